//! How many superstates, states and new variables are in a piece of a chart.

ghost use Rattle.std.specs.Prelude.{◌≡◌, ◌+◌, ◌<◌, ◌^◌, ◌||◌, ◌&&◌, false, IfOk, map};
ghost use Rattle.abort_expansion.specs.Flags.{weak_around};
ghost use Rattle.abort_expansion.specs.Pieces.{superstates_in, variables_in, past_region};
ghost use Rattle.abort_expansion.specs.Expansion.{piece_of_region, piece_of_state, past_state, initial_number};

use crate::flags::{Flags, flag_count, weak_around};
use crate::pieces::NextNumbers;
use core_charts::{Region, State, has_weak};
use std::alloc::AllocError;

/// How many superstates, states and new variables there are.
#[derive(Clone, Copy)]
pub(crate) struct Size {
    pub(crate) superstates: u32,
    pub(crate) states: u32,
    pub(crate) variables: u32,
}

// Err: no memory holds a chart with so many.
fn sum(a: u32, b: u32) -> Result<u32, AllocError>
    ensures value { IfOk result (λ both. both ≡ a + b) }
    ensures within { IfOk result (λ both. both < 2 ^ 32) }
{
    match a.checked_add(b) {
        Some(both) => Ok(both),
        None => Err(AllocError),
    }
}

impl Size {
    // Both together. Err: no memory holds a chart with so many.
    fn plus(self, more: Size) -> Result<Size, AllocError>
        ensures superstates { IfOk result (λ both. both.superstates ≡ self.superstates + more.superstates) }
        ensures states { IfOk result (λ both. both.states ≡ self.states + more.states) }
        ensures variables { IfOk result (λ both. both.variables ≡ self.variables + more.variables) }
        ensures few { IfOk result (λ both. (both.superstates < 2 ^ 32) × (both.variables < 2 ^ 32)) }
    {
        Ok(Size {
            superstates: sum(self.superstates, more.superstates)?,
            states: sum(self.states, more.states)?,
            variables: sum(self.variables, more.variables)?,
        })
    }
}

/// Of a region with all that is in it, by whether weak aborts enclose it. Err: no memory holds so many.
#[cycle(counting)]
pub(crate) fn region_size(weak: bool, region: &Region) -> Result<Size, AllocError>
    ensures superstates { IfOk result (λ size. size.superstates ≡ (piece_of_region region.now).superstates) }
    ensures states { IfOk result (λ size. size.states ≡ (piece_of_region region.now).states) }
    ensures variables { IfOk result (λ size. size.variables ≡ (piece_of_region region.now).variables weak) }
{
    let mut size = Size {
        superstates: 0,
        states: 0,
        variables: 0,
    };
    for state in region.states.as_slice() {
        size = size.plus(state_size(weak, state)?)?;
    }
    Ok(size)
}

/// Of a state with all that is in it, by whether weak aborts enclose it. Err: no memory holds so many.
#[cycle(counting)]
pub(crate) fn state_size(weak: bool, state: &State) -> Result<Size, AllocError>
    ensures superstates { IfOk result (λ size. size.superstates ≡ (piece_of_state state.now).superstates) }
    ensures states { IfOk result (λ size. size.states ≡ (piece_of_state state.now).states) }
    ensures variables { IfOk result (λ size. size.variables ≡ (piece_of_state state.now).variables weak) }
{
    let transitions = state.transitions.as_slice();
    let is_superstate = state.is_superstate();
    let inside_weak = weak || (is_superstate && has_weak(transitions));
    let mut size = Size {
        superstates: if is_superstate { 1 } else { 0 },
        states: 1,
        variables: if is_superstate {
            flag_count(weak, transitions)
        } else {
            0
        },
    };
    for region in state.regions.as_slice() {
        size = size.plus(region_size(inside_weak, region)?)?;
    }
    Ok(size)
}

/// Of the regions of a chart. Err: no memory holds so many.
pub(crate) fn regions_size(regions: &[Region]) -> Result<Size, AllocError>
    ensures superstates { IfOk result (λ size. size.superstates ≡ superstates_in (map piece_of_region regions.now)) }
    ensures variables { IfOk result (λ size. size.variables ≡ variables_in false (map piece_of_region regions.now)) }
    ensures few { IfOk result (λ size. (size.superstates < 2 ^ 32) × (size.variables < 2 ^ 32)) }
{
    let mut size = Size {
        superstates: 0,
        states: 0,
        variables: 0,
    };
    for region in regions {
        size = size.plus(region_size(false, region)?)?;
    }
    Ok(size)
}

impl NextNumbers {
    /// Those behind a region. Err: no memory holds so many.
    pub(crate) fn past_region(
        self,
        around: &[Flags],
        region: &Region,
    ) -> Result<NextNumbers, AllocError>
        ensures { IfOk result (λ next. next ≡ past_region (weak_around around.now) (piece_of_region region.now) self) }
    {
        self.past(region_size(weak_around(around), region)?)
    }

    /// Those behind a state. Err: no memory holds so many.
    pub(crate) fn past_state(
        self,
        around: &[Flags],
        state: &State,
    ) -> Result<NextNumbers, AllocError>
        ensures { IfOk result (λ next. next ≡ past_state (weak_around around.now) (piece_of_state state.now) self) }
    {
        self.past(state_size(weak_around(around), state)?)
    }

    // Those behind a piece of this size. Err: no memory holds so many.
    fn past(self, size: Size) -> Result<NextNumbers, AllocError>
        ensures superstate { IfOk result (λ next. next.superstate ≡ self.superstate + size.superstates) }
        ensures variable { IfOk result (λ next. next.variable ≡ self.variable + size.variables) }
        ensures state { IfOk result (λ next. next.state ≡ self.state + size.states) }
    {
        Ok(NextNumbers {
            superstate: sum(self.superstate, size.superstates)?,
            variable: sum(self.variable, size.variables)?,
            state: sum(self.state, size.states)?,
        })
    }

    /// Those inside a superstate, behind its own number and its variables. Err: no memory holds so many.
    pub(crate) fn within(self, variables: u32) -> Result<NextNumbers, AllocError>
        ensures superstate { IfOk result (λ next. next.superstate ≡ self.superstate + 1) }
        ensures variable { IfOk result (λ next. next.variable ≡ self.variable + variables) }
        ensures state { IfOk result (λ next. next.state ≡ self.state + 1) }
    {
        Ok(NextNumbers {
            superstate: sum(self.superstate, 1)?,
            variable: sum(self.variable, variables)?,
            state: sum(self.state, 1)?,
        })
    }
}

/// The number of the initial state, where that of the first state is this. Err: no memory holds so many.
pub(crate) fn initial_number(states: &[State], number: u32) -> Result<u32, AllocError>
    ensures { IfOk result (λ n. n ≡ initial_number (map piece_of_state states.now) number) }
{
    let mut next = number;
    for state in states {
        if state.is_initial {
            return Ok(next);
        }
        next = sum(next, state_size(false, state)?.states)?;
    }
    Ok(next)
}
