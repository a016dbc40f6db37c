//! The first pair of steps that stand in a forbidden order.

ghost use Rattle.std.specs.Prelude.{◌<◌, ◌↔◌, ℕ, IsTrue, MatchOption, length};
ghost use Rattle.sc_values.specs.Access.{MayPrecede};
ghost use Rattle.sc_values.specs.Runs.{ConcurrentSteps, IsOrdered};
ghost use Rattle.sc_graph.specs.Accesses.{accesses};
ghost use Rattle.sc_graph.specs.Threads.{ForkedApart};
ghost use Rattle.sc_graph.specs.Valid.{IsFormed};
ghost use Rattle.tick_core.specs.Judging.{IsForbidden, IsFirstForbidden};
ghost use Rattle.tick_core.specs.Inside.Judging.{IsFirstBefore, TakesBetween, acts_at};

use crate::judging::replaying::Taken;
use sc_graph::{NodeId, Program, ThreadId, lca};

/// The first pair of concurrent steps that stand in a forbidden order: the least second step, and for
/// it the least first. None: the steps are in order.
pub(crate) fn first_forbidden(program: &Program, steps: &[Taken]) -> Option<(usize, usize)>
    requires { IsFormed program.now }
    ensures { MatchOption result (IsOrdered (ForkedApart program.now) (acts_at program.now steps.now))
        (λ pair. IsFirstForbidden (ForkedApart program.now) (acts_at program.now steps.now) pair.0 pair.1) }
{
    for second in 0..steps.len() {
        if let Some(first) = first_before(program, steps, second) {
            return Some((first, second));
        }
    }
    None
}

// The first step that may not stand before this one.
fn first_before(program: &Program, steps: &[Taken], second: usize) -> Option<usize>
    requires formed { IsFormed program.now }
    requires within { second < length steps.now }
    ensures { MatchOption result ((i : ℕ) → ¬ IsForbidden (ForkedApart program.now)
        (acts_at program.now steps.now) i second) (λ i. IsFirstBefore program.now steps.now i second) }
{
    for first in 0..second {
        if is_forbidden(program, steps, first, second) {
            return Some(first);
        }
    }
    None
}

// Whether two steps are concurrent and may not stand in this order.
fn is_forbidden(program: &Program, steps: &[Taken], first: usize, second: usize) -> bool
    requires formed { IsFormed program.now }
    requires before { first < second }
    requires within { second < length steps.now }
    ensures { IsTrue result ↔ IsForbidden (ForkedApart program.now) (acts_at program.now steps.now) first second }
{
    are_concurrent(program, steps, first, second)
        && !may_precede(program, steps[first].node, steps[second].node)
}

// Whether the threads of two steps are concurrent and no step between belongs to the one that forks
// them apart.
fn are_concurrent(program: &Program, steps: &[Taken], first: usize, second: usize) -> bool
    requires formed { IsFormed program.now }
    requires before { first < second }
    requires within { second < length steps.now }
    ensures { IsTrue result ↔ ConcurrentSteps (ForkedApart program.now) (acts_at program.now steps.now) first second }
{
    match lca(program, steps[first].thread, steps[second].thread) {
        Some(forking) => !takes_between(steps, first, second, forking),
        None => false,
    }
}

// Whether a thread takes a step strictly between these places.
fn takes_between(steps: &[Taken], first: usize, second: usize, thread: ThreadId) -> bool
    requires before { first < second }
    requires within { second < length steps.now }
    ensures { IsTrue result ↔ TakesBetween steps.now first second thread }
{
    for at in first + 1..second {
        if steps[at].thread == thread {
            return true;
        }
    }
    false
}

// Whether a concurrent step at the first node may come before one at the second.
fn may_precede(program: &Program, first: NodeId, second: NodeId) -> bool
    ensures { IsTrue result ↔ MayPrecede (accesses program.now first) (accesses program.now second) }
{
    match (program.step(first), program.step(second)) {
        (Some(first), Some(second)) => first.may_precede(second),
        _ => true,
    }
}
