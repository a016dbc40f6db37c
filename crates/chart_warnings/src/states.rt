//! Warnings of states.

ghost use Rattle.std.specs.Prelude.{◌≡◌, ◌++◌, ◌<◌, IfOk, OnOk, length};
ghost use Rattle.chart_warnings.specs.Warnings.{is_none, led_to, of_state, targets_besides};
ghost use Rattle.chart_warnings.specs.Inside.Marks.{Tells, marked};

use crate::marks::{is_marked, mark, unmarked};
use crate::warning::{Warning, warn_where};
use core_charts::{State, Transition};
use sqlite_items::Items;
use std::alloc::{AllocError, Global};

/// Marks for each place of a region's states whether a transition of another state leads there.
pub(crate) fn led_to(alloc: Global, states: &[State]) -> Result<Vec<bool>, AllocError>
    ensures { IfOk result (λ marks. Tells (led_to 0 states.now) (length states.now) marks.items) }
{
    let mut marks = unmarked(alloc, states.len())?;
    for (place, state) in states.iter().enumerate() {
        mark_targets(place, state.transitions.as_slice(), &mut marks);
    }
    Ok(marks)
}

// Marks the targets of the transitions of the state at this place, but for itself.
fn mark_targets(place: usize, transitions: &[Transition], marks: &mut Vec<bool>)
    ensures { marks.new.items ≡ marked (targets_besides place transitions.now) marks.old.items }
{
    for transition in transitions {
        let target = transition.target as usize;
        if target != place {
            mark(marks, target);
        }
    }
}

// Whether each of the transitions of the state at this place leads back to it.
fn all_lead_back(place: usize, transitions: &[Transition]) -> bool
    ensures { result ≡ is_none (targets_besides place transitions.now) }
{
    for transition in transitions {
        if transition.target as usize != place {
            return false;
        }
    }
    true
}

/// The warnings of the state at this place among these, which has this number, come behind others.
pub(crate) fn warn_of_state(
    states: &[State],
    led: &[bool],
    place: usize,
    number: usize,
    state: &State,
    warnings: &mut Items<Warning>,
) -> Result<(), AllocError>
    requires led { Tells (led_to 0 states.now) (length states.now) led.now }
    requires place { place < length states.now }
    ensures { OnOk result (warnings.new ≡ warnings.old ++ of_state states.now place number state.now) }
{
    let is_unreached = !state.is_initial && !is_marked(led, place);
    warn_where(is_unreached, Warning::Unreached { state: number }, warnings)?;
    let is_kept = state.is_initial
        && states.len() > 1
        && all_lead_back(place, state.transitions.as_slice());
    warn_where(is_kept, Warning::NeverLeft { state: number }, warnings)
}
