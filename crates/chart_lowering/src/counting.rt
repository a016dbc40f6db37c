//! How many labels a piece of a chart has.

ghost use Rattle.std.specs.Prelude.{◌≡◌, IfOk, map};
ghost use Rattle.core_charts.specs.Tests.{terminations};
ghost use Rattle.chart_lowering.specs.Lowering.{labels_of_simple, labels_behind, labels_in_initial, piece_of_region};
ghost use Rattle.chart_lowering.specs.Lowering.{piece_of_state};

use crate::labels::past;
use core_charts::{Region, State, Transition};
use std::alloc::AllocError;

/// The labels of a region with all that is in it. Err: no memory holds a text with so many.
#[cycle(counting)]
pub(crate) fn region_labels(region: &Region) -> Result<u64, AllocError>
    ensures { IfOk result (λ labels. labels ≡ (piece_of_region region.now).labels) }
{
    let mut labels = 1;
    for state in region.states.as_slice() {
        labels = past(labels, state_labels(state)?)?;
    }
    Ok(labels)
}

/// The labels of a state with all that is in it. Err: no memory holds a text with so many.
#[cycle(counting)]
pub(crate) fn state_labels(state: &State) -> Result<u64, AllocError>
    ensures { IfOk result (λ labels. labels ≡ (piece_of_state state.now).labels) }
{
    let transitions = state.transitions.as_slice();
    if state.is_final {
        return Ok(1);
    }
    if !state.is_superstate() {
        return Ok(simple_labels(transitions));
    }
    let mut labels = 1;
    for region in state.regions.as_slice() {
        labels = past(labels, region_labels(region)?)?;
    }
    past(labels, labels_behind(transitions))
}

// The labels of a simple state.
fn simple_labels(transitions: &[Transition]) -> u64
    ensures { result ≡ labels_of_simple transitions.now }
{
    for transition in transitions {
        if transition.immediate && transition.trigger.is_none() {
            return 1;
        }
    }
    2
}

// The labels behind a superstate's fork.
fn labels_behind(transitions: &[Transition]) -> u64
    ensures { result ≡ labels_behind (terminations transitions.now) }
{
    for transition in transitions {
        if transition.kind.is_join() {
            return 0;
        }
    }
    1
}

/// The labels of the initial states. Err: no memory holds a text with so many.
pub(crate) fn labels_in_initial(states: &[State]) -> Result<u64, AllocError>
    ensures { IfOk result (λ labels. labels ≡ labels_in_initial (map piece_of_state states.now)) }
{
    let mut labels = 0;
    for state in states {
        if state.is_initial {
            labels = past(labels, state_labels(state)?)?;
        }
    }
    Ok(labels)
}
