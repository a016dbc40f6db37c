//! The numbers of the elements of a chart.

ghost use Rattle.std.specs.Prelude.{◌≡◌, suc, IfOk};
ghost use Rattle.core_charts.specs.Numbers.{behind_transition, behind_transitions, first};
ghost use Rattle.core_charts.specs.Numbers.{within_region, within_state};

use crate::Transition;
use std::alloc::AllocError;

/// The numbers that come next: of a region, of a state, of a transition, of an effect.
#[derive(Clone, Copy)]
pub struct ElementNumbers {
    pub region: u32,
    pub state: u32,
    pub transition: u32,
    pub effect: u32,
}

/// The number behind this one. Err: no memory holds a chart with so many.
pub fn next(number: u32) -> Result<u32, AllocError>
    ensures { IfOk result (λ next. next ≡ suc number) }
{
    match number.checked_add(1) {
        Some(next) => Ok(next),
        None => Err(AllocError),
    }
}

impl ElementNumbers {
    /// Those of the first ones.
    pub fn first() -> ElementNumbers
        ensures { result ≡ first }
    {
        ElementNumbers {
            region: 0,
            state: 0,
            transition: 0,
            effect: 0,
        }
    }

    /// Those behind a transition. Err: no memory holds a chart with so many.
    pub fn behind_transition(self, transition: &Transition) -> Result<ElementNumbers, AllocError>
        ensures { IfOk result (λ behind. behind ≡ behind_transition transition.now self) }
    {
        let Ok(effects) = u32::try_from(transition.effects.len()) else {
            return Err(AllocError);
        };
        let Some(effect) = self.effect.checked_add(effects) else {
            return Err(AllocError);
        };
        Ok(ElementNumbers {
            region: self.region,
            state: self.state,
            transition: next(self.transition)?,
            effect,
        })
    }

    // Those behind transitions.
    fn behind_transitions(self, transitions: &[Transition]) -> Result<ElementNumbers, AllocError>
        ensures { IfOk result (λ behind. behind ≡ behind_transitions transitions.now self) }
    {
        let mut here = self;
        for transition in transitions {
            here = here.behind_transition(transition)?;
        }
        Ok(here)
    }

    /// Those within a state with these transitions. Err: no memory holds a chart with so many.
    pub fn within_state(self, own: &[Transition]) -> Result<ElementNumbers, AllocError>
        ensures { IfOk result (λ within. within ≡ within_state own.now self) }
    {
        let inside = ElementNumbers {
            region: self.region,
            state: next(self.state)?,
            transition: self.transition,
            effect: self.effect,
        };
        inside.behind_transitions(own)
    }

    /// Those within a region. Err: no memory holds a chart with so many.
    pub fn within_region(self) -> Result<ElementNumbers, AllocError>
        ensures { IfOk result (λ within. within ≡ within_region self) }
    {
        Ok(ElementNumbers {
            region: next(self.region)?,
            state: self.state,
            transition: self.transition,
            effect: self.effect,
        })
    }
}
