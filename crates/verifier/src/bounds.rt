//! The tick-bound and budget rule: a thread's bound covers each of its depths, and each of its joins
//! with what is forked there; the budget covers the root.

ghost use Rattle.std.specs.Prelude.{◌≡◌, ◌↔◌, ◌<◌, ◌≤◌, ◌+◌, ◌*◌, IsTrue, MatchOption, ℕ, length};
ghost use Rattle.sc_graph.specs.Costs.{child_bounds, BoundAt, BudgetHolds};
ghost use Rattle.sc_graph.specs.Limits.{child_limit};
ghost use Rattle.sc_graph.specs.Size.{SizeAt};
ghost use Rattle.sc_graph.specs.Tables.{bound, weight};
ghost use Rattle.sc_graph.specs.declared.place.Place.{Place};
ghost use Rattle.sc_graph.specs.declared.place.Place.TheVariants as place;
ghost use Rattle.verifier.specs.Inside.ByNode.{IsCovered};
ghost use Rattle.verifier.specs.Inside.Faults.{IsFault};

use crate::weights::entry_weight;
use sc_graph::{NodeId, Place, Program, Step, Tables, ThreadId};

/// A place where the rule is broken, where it is.
pub(crate) fn bound_fault(program: &Program, tables: &Tables) -> Option<Place>
    requires { (at : Place) → SizeAt program.now tables.now at }
    ensures { IsFault (BoundAt program.now tables.now) result }
{
    for n in 0..program.node_count() {
        if let Some(thread) = uncovered(program, tables, n) {
            return Some(Place::Thread(thread));
        }
    }
    if budget_holds(program, tables) {
        None
    } else {
        Some(Place::Image)
    }
}

// Whether the budget covers the root.
fn budget_holds(program: &Program, tables: &Tables) -> bool
    ensures { IsTrue result ↔ BudgetHolds program.now tables.now }
{
    tables.bound(0) <= tables.budget && entry_weight(program, tables, 0) <= u64::from(tables.budget)
}

// The thread whose bound does not cover a node, where there is one.
fn uncovered(program: &Program, tables: &Tables, n: NodeId) -> Option<ThreadId>
    requires { (at : Place) → SizeAt program.now tables.now at }
    ensures { MatchOption result (IsCovered program.now tables.now n)
        (λ t. ¬ BoundAt program.now tables.now (place.Thread t)) }
{
    match program.step(n) {
        Some(Step::Depth { .. }) => {
            exceeded(tables, program.owner(n), u64::from(tables.weight(n)))
        }
        Some(Step::Fork { children, join }) => {
            let needed = join_cost(tables, children.as_slice(), *join);
            exceeded(tables, program.owner(*join), needed)
        }
        _ => None,
    }
}

// The thread, where its bound is less than what is needed.
fn exceeded(tables: &Tables, thread: Option<ThreadId>, needed: u64) -> Option<ThreadId>
    ensures { MatchOption result ((t : ℕ) → thread ≡ Some t → needed ≤ bound tables.now t)
        (λ t. (thread ≡ Some t) × (bound tables.now t < needed)) }
{
    match thread {
        Some(t) if u64::from(tables.bound(t)) < needed => Some(t),
        _ => None,
    }
}

// The weight of a join and the bounds of the children of its fork.
fn join_cost(tables: &Tables, children: &[ThreadId], join: NodeId) -> u64
    requires { length children.now ≤ child_limit }
    ensures { result ≡ weight tables.now join + child_bounds tables.now children.now }
{
    u64::from(tables.weight(join)) + child_bounds(tables, children)
}

// The sum of the bounds of these threads.
fn child_bounds(tables: &Tables, children: &[ThreadId]) -> u64
    requires { length children.now ≤ child_limit }
    ensures value { result ≡ child_bounds tables.now children.now }
    ensures small { result ≤ 4294967295 * length children.now }
{
    let mut sum = 0;
    for child in children {
        sum += u64::from(tables.bound(*child));
    }
    sum
}
