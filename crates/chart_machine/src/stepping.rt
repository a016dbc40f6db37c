//! One step of a region.

ghost use Rattle.std.specs.Prelude.{◌≡◌, ◌∷◌, ◌++◌, [], IfOk, OnOk, Some, None, slice_set};
ghost use Rattle.chart_machine.specs.Table.{state_at};
ghost use Rattle.chart_machine.specs.Steps.{to, moved, written, after, state_in, dropped, acts, taken, tested};
ghost use Rattle.chart_machine.specs.Steps.{entering_on, guarding_on};

use crate::chosen::{closing_tests, first_closing_tests};
use crate::copies::put_moves;
use crate::evaluating::verdict;
use crate::region_change::{RegionChange, Write};
use crate::standing::{Configuration, Move, Standing};
use crate::table::Table;
use core_charts::{Effect, Transition, copied_effects, copied_transitions};
use sc_values::Value;
use sqlite_items::Items;
use std::alloc::{AllocError, Global};

// The region comes to stand there.
pub(crate) fn only_move(
    alloc: Global,
    region: usize,
    standing: Standing,
) -> Result<Items<Move>, AllocError>
    ensures { IfOk result (λ moves. moves ≡ to region standing ∷ []) }
{
    let mut moves = Items::new(alloc);
    moves.push(Move { region, standing })?;
    Ok(moves)
}

// The regions as these moves leave them.
pub(crate) fn move_all(
    alloc: Global,
    moves: &[Move],
    regions: &mut Items<Standing>,
) -> Result<(), AllocError>
    ensures { OnOk result (regions.new ≡ moved moves.now regions.old) }
{
    for one in moves {
        put_standing(regions, one.region, one.standing.copied(alloc)?);
    }
    Ok(())
}

fn put_standing(regions: &mut Items<Standing>, region: usize, standing: Standing)
    ensures { regions.new ≡ slice_set regions.old region standing }
{
    if region < regions.len() {
        regions.set(region, standing);
    }
}

fn write(write: &Option<Write>, variables: &mut Items<Value>)
    ensures { variables.new ≡ written write.now variables.old }
{
    if let Some(new) = write {
        put_value(variables, new.variable as usize, new.value);
    }
}

fn put_value(variables: &mut Items<Value>, variable: usize, value: Value)
    ensures { variables.new ≡ slice_set variables.old variable value }
{
    if variable < variables.len() {
        variables.set(variable, value);
    }
}

impl Configuration {
    pub(crate) fn after(
        &self,
        alloc: Global,
        change: &RegionChange,
    ) -> Result<Configuration, AllocError>
        ensures { IfOk result (λ c. c ≡ after change.now self.now) }
    {
        let mut after = self.copied(alloc)?;
        write(&change.write, &mut after.variables);
        move_all(alloc, change.moves.as_slice(), &mut after.regions)?;
        Ok(after)
    }
}

impl Table {
    // The transitions of a state; none for a number without a state.
    pub(crate) fn transitions(&self, state: usize) -> &[Transition]
        ensures { result.now ≡ (state_at self.now state).transitions }
    {
        match self.states.get(state) {
            Some(row) => row.transitions.as_slice(),
            None => &[],
        }
    }

    // Puts the moves by which a state is entered behind others.
    fn put_entered(
        &self,
        alloc: Global,
        state: usize,
        moves: &mut Items<Move>,
    ) -> Result<(), AllocError>
        ensures { OnOk result (moves.new ≡ moves.old ++ (state_at self.now state).entered) }
    {
        match self.states.get(state) {
            Some(row) => put_moves(alloc, row.entered.as_slice(), moves),
            None => Ok(()),
        }
    }

    // Puts the moves by which the regions of a state are entered behind others.
    fn put_opened(
        &self,
        alloc: Global,
        state: usize,
        moves: &mut Items<Move>,
    ) -> Result<(), AllocError>
        ensures { OnOk result (moves.new ≡ moves.old ++ (state_at self.now state).opened) }
    {
        match self.states.get(state) {
            Some(row) => put_moves(alloc, row.opened.as_slice(), moves),
            None => Ok(()),
        }
    }

    // The state of this place among those of a region.
    fn state_in(&self, region: usize, place: u32) -> usize
        ensures { result ≡ state_in self.now region place }
    {
        if region == 0 {
            return 0;
        }
        match self.regions.get(region - 1) {
            Some(row) => match row.states.get(place as usize) {
                Some(state) => *state,
                None => 0,
            },
            None => 0,
        }
    }

    // Puts the moves by which all that is inside a state is dropped behind others.
    fn put_dropped(
        &self,
        alloc: Global,
        state: usize,
        moves: &mut Items<Move>,
    ) -> Result<(), AllocError>
        ensures { OnOk result (moves.new ≡ moves.old ++ dropped self.now state) }
    {
        let inside = self.inside(alloc, state)?;
        for region in inside.as_slice() {
            moves.push(Move {
                region: *region,
                standing: Standing::Outside,
            })?;
        }
        Ok(())
    }

    // Goes on with the effects of a transition out of a state, or enters its target.
    pub(crate) fn put_acts(
        &self,
        alloc: Global,
        region: usize,
        state: usize,
        effects: &[Effect],
        target: u32,
        moves: &mut Items<Move>,
    ) -> Result<(), AllocError>
        ensures { OnOk result (moves.new ≡ moves.old ++ acts self.now region state effects.now target) }
    {
        if effects.is_empty() {
            return self.put_entered(alloc, self.state_in(region, target), moves);
        }
        let effects = copied_effects(alloc, effects)?;
        moves.push(Move {
            region,
            standing: Standing::Acting {
                state,
                effects,
                target,
            },
        })
    }

    // Takes a transition out of a state.
    fn taken(
        &self,
        alloc: Global,
        region: usize,
        state: usize,
        transition: &Transition,
    ) -> Result<Option<RegionChange>, AllocError>
        ensures { IfOk result (λ change.
            change ≡ Some (record { write = None; moves = taken self.now region state transition.now })) }
    {
        let mut moves = Items::new(alloc);
        self.put_dropped(alloc, state, &mut moves)?;
        let effects = transition.effects.as_slice();
        self.put_acts(alloc, region, state, effects, transition.target, &mut moves)?;
        Ok(Some(RegionChange { write: None, moves }))
    }

    // A test: where it is true its transition is taken, else these moves are made.
    pub(crate) fn tested(
        &self,
        alloc: Global,
        c: &Configuration,
        region: usize,
        state: usize,
        test: &Transition,
        otherwise: Items<Move>,
    ) -> Result<Option<RegionChange>, AllocError>
        ensures { IfOk result (λ change. change ≡ tested self.now c.now region state test.now otherwise) }
    {
        match verdict(c.variables.as_slice(), &test.trigger) {
            Some(true) => self.taken(alloc, region, state, test),
            Some(false) => Ok(Some(RegionChange {
                write: None,
                moves: otherwise,
            })),
            None => Ok(None),
        }
    }

    // The regions of a superstate are entered, when no strong abort was taken.
    pub(crate) fn entering_on(
        &self,
        alloc: Global,
        region: usize,
        state: usize,
        tests: &[Transition],
    ) -> Result<Items<Move>, AllocError>
        ensures { IfOk result (λ moves. moves ≡ entering_on self.now region state tests.now) }
    {
        if !tests.is_empty() {
            let tests = copied_transitions(alloc, tests)?;
            return only_move(alloc, region, Standing::Entering { state, tests });
        }
        let tests = first_closing_tests(alloc, self.transitions(state))?;
        let mut moves = only_move(alloc, region, Standing::Within { state, tests })?;
        self.put_opened(alloc, state, &mut moves)?;
        Ok(moves)
    }

    // The inside has its turn, when no strong abort was taken.
    pub(crate) fn guarding_on(
        &self,
        alloc: Global,
        region: usize,
        state: usize,
        tests: &[Transition],
    ) -> Result<Items<Move>, AllocError>
        ensures { IfOk result (λ moves. moves ≡ guarding_on self.now region state tests.now) }
    {
        if !tests.is_empty() {
            let tests = copied_transitions(alloc, tests)?;
            return only_move(alloc, region, Standing::Guarding { state, tests });
        }
        let tests = closing_tests(alloc, self.transitions(state))?;
        only_move(alloc, region, Standing::Within { state, tests })
    }
}
