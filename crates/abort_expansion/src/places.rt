//! Where the states of a region are behind expansion, and transitions to them.

ghost use Rattle.std.specs.Prelude.{◌≡◌, [], ◌∷◌, ◌++◌, IfOk, OnOk, false, slice_get, unwrap_or, map};
ghost use Rattle.abort_expansion.specs.Transitions.{place_of, counting, led, led_by};

use crate::making::{go, put_counting_down};
use core_charts::{Effect, Transition, copied_effects, copied_trigger};
use sc_graph::VariableId;
use sc_values::Expr;
use sqlite_items::Items;
use std::alloc::{AllocError, Global};

/// Where the states of a region are, behind expansion.
#[derive(Drop)]
pub struct RegionPlaces {
    /// Of each state of the text its place.
    pub states: Items<u32>,
    /// Of each state of the text whether it is final.
    pub finals: Items<bool>,
    /// The place of the abandoned state.
    pub left: u32,
    /// The termination counter of the superstate that holds the region.
    pub counter: Option<VariableId>,
}

impl RegionPlaces {
    fn place_of(&self, target: u32) -> u32
        ensures { result ≡ place_of self.now target }
    {
        match self.states.get(target as usize) {
            Some(place) => *place,
            None => 0,
        }
    }

    fn is_final(&self, target: u32) -> bool
        ensures { result ≡ unwrap_or (slice_get self.now.finals target) false }
    {
        match self.finals.get(target as usize) {
            Some(is_final) => *is_final,
            None => false,
        }
    }

    // These effects of a transition to a state of the text, which counts down where that is final.
    fn counting(
        &self,
        alloc: Global,
        target: u32,
        effects: &[Effect],
    ) -> Result<Items<Effect>, AllocError>
        ensures { IfOk result (λ made. made ≡ counting self.now target effects.now) }
    {
        let mut all = copied_effects(alloc, effects)?;
        if self.is_final(target) {
            put_counting_down(alloc, self.counter, &mut all)?;
        }
        Ok(all)
    }

    // A transition as it stands, to where its target is.
    fn led(&self, alloc: Global, transition: &Transition) -> Result<Transition, AllocError>
        ensures { IfOk result (λ made. made ≡ led self.now transition.now) }
    {
        Ok(Transition {
            kind: transition.kind,
            immediate: transition.immediate,
            trigger: copied_trigger(alloc, &transition.trigger)?,
            effects: self.counting(alloc, transition.target, transition.effects.as_slice())?,
            target: self.place_of(transition.target),
        })
    }

    /// Puts its effects and target behind others, tested at once by this trigger.
    pub(crate) fn put_led_by(
        &self,
        alloc: Global,
        trigger: Option<Expr>,
        transition: &Transition,
        made: &mut Items<Transition>,
    ) -> Result<(), AllocError>
        ensures { OnOk result (made.new ≡ made.old ++ led_by self.now trigger transition.now ∷ []) }
    {
        let effects = self.counting(alloc, transition.target, transition.effects.as_slice())?;
        made.push(go(true, trigger, effects, self.place_of(transition.target)))
    }

    /// Puts transitions behind others as they stand, to where their targets are.
    pub(crate) fn put_all_led(
        &self,
        alloc: Global,
        all: &[Transition],
        made: &mut Items<Transition>,
    ) -> Result<(), AllocError>
        ensures { OnOk result (made.new ≡ made.old ++ map (led self.now) all.now) }
    {
        for transition in all {
            made.push(self.led(alloc, transition)?)?;
        }
        Ok(())
    }
}
