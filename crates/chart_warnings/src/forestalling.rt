//! Transitions that are never taken, since another one of their state is.

ghost use Rattle.std.specs.Prelude.{◌≡◌};
ghost use Rattle.chart_warnings.specs.Warnings.{forestalls, goes_before, is_always, is_first, is_forestalled};
ghost use Rattle.chart_warnings.specs.Warnings.{is_sure, turn};

use core_charts::{Transition, TransitionKind};
use sc_values::Expr;

/// Whether one of these transitions of a state is taken in place of that at this place, which is never taken.
pub(crate) fn is_forestalled(
    transitions: &[Transition],
    place: usize,
    transition: &Transition,
) -> bool
    ensures { result ≡ is_forestalled 0 transitions.now place transition.now }
{
    for (other, before) in transitions.iter().enumerate() {
        if forestalls(other, before, place, transition) {
            return true;
        }
    }
    false
}

fn forestalls(other: usize, before: &Transition, place: usize, transition: &Transition) -> bool
    ensures { result ≡ forestalls other before.now place transition.now }
{
    if !is_sure(before) {
        return false;
    }
    let goes_before = goes_before(other, before, place, transition);
    if before.immediate {
        goes_before || !is_first(transition)
    } else {
        goes_before && !is_first(transition)
    }
}

fn goes_before(other: usize, before: &Transition, place: usize, transition: &Transition) -> bool
    ensures { result ≡ goes_before other before.now place transition.now }
{
    let turn_before = turn(before.kind);
    let turn_of_it = turn(transition.kind);
    turn_before < turn_of_it || (turn_before == turn_of_it && other < place)
}

/// In which turn it is tested: strong aborts, weak ones, the termination.
pub(crate) fn turn(kind: TransitionKind) -> u8
    ensures { result ≡ turn kind }
{
    match kind {
        TransitionKind::Go | TransitionKind::Strong => 0,
        TransitionKind::Weak => 1,
        TransitionKind::Join => 2,
    }
}

// Whether it is tested in the tick of entry too.
fn is_first(transition: &Transition) -> bool
    ensures { result ≡ is_first transition.now }
{
    transition.immediate || transition.kind.is_join()
}

// Whether it is taken as soon as it is tested.
fn is_sure(transition: &Transition) -> bool
    ensures { result ≡ is_sure transition.now }
{
    !transition.kind.is_join() && is_always(&transition.trigger)
}

fn is_always(trigger: &Option<Expr>) -> bool
    ensures { result ≡ is_always trigger.now }
{
    trigger.is_none()
}
