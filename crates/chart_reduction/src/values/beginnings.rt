//! Which regions may end in the tick in which they are entered.

ghost use Rattle.std.specs.Prelude.{◌≡◌, map};
ghost use Rattle.chart_reduction.specs.Endings.{all_at_once, some_true, is_joined, is_immediate};
ghost use Rattle.chart_reduction.specs.Endings.{ends_at_once, begins_so};

use core_charts::Transition;
use extended_charts::{ExtendedRegion, ExtendedState};

fn is_immediate(transitions: &[Transition]) -> bool
    ensures { result ≡ is_immediate transitions.now }
{
    transitions.iter().any(|transition| transition.immediate)
}

/// Whether one of these is a termination.
pub(crate) fn is_joined(transitions: &[Transition]) -> bool
    ensures { result ≡ is_joined transitions.now }
{
    transitions
        .iter()
        .any(|transition| transition.kind.is_join())
}

/// Whether each of these regions may end in the tick in which it is entered.
#[cycle(beginning)]
pub(crate) fn all_at_once(regions: &[ExtendedRegion]) -> bool
    ensures { result ≡ all_at_once regions.now }
{
    for region in regions {
        if !ends_at_once(region) {
            return false;
        }
    }
    true
}

#[cycle(beginning)]
fn ends_at_once(region: &ExtendedRegion) -> bool
    ensures { result ≡ ends_at_once region.now }
{
    some_at_once(region.states.as_slice())
}

#[cycle(beginning)]
fn some_at_once(states: &[ExtendedState]) -> bool
    ensures { result ≡ some_true (map begins_so states.now) }
{
    for state in states {
        if begins_so(state) {
            return true;
        }
    }
    false
}

// Whether the state is an initial one that is final, or may be left in the tick in which it is entered.
#[cycle(beginning)]
#[tactic(auto, using(crate::proofs::EndingStates::state_begins))]
fn begins_so(state: &ExtendedState) -> bool
    ensures { result ≡ begins_so state.now }
{
    let transitions = state.transitions.as_slice();
    if !state.is_initial {
        return false;
    }
    if state.is_final || is_immediate(transitions) {
        return true;
    }
    is_joined(transitions) && all_at_once(state.regions.as_slice())
}
