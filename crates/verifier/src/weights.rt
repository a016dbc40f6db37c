//! The step-weight rule: a node's weight covers its own step and what may follow in this tick.

ghost use Rattle.std.specs.Prelude.{◌≡◌, ◌↔◌, ◌<◌, ◌≤◌, IsTrue, length, ◌+◌, ◌*◌, if◌then◌else◌};
ghost use Rattle.sc_graph.specs.Costs.{entry_weight, entry_weights, entries_end, needed_weight, WeightAt};
ghost use Rattle.sc_graph.specs.Tables.{weight};
ghost use Rattle.sc_graph.specs.Limits.{child_limit};
ghost use Rattle.sc_graph.specs.Program.{entry_of};
ghost use Rattle.sc_graph.specs.Size.{StepFits, SizeAt};
ghost use Rattle.sc_graph.specs.declared.place.Place.{Place};
ghost use Rattle.sc_graph.specs.declared.place.Place.TheVariants as place;
ghost use Rattle.verifier.specs.Inside.Faults.{IsFault};

use crate::end_bits::entries_end;
use sc_graph::{NodeId, Place, Program, Step, Tables, ThreadId};

/// A place where the rule is broken, where it is.
pub(crate) fn weight_fault(program: &Program, tables: &Tables) -> Option<Place>
    requires { (at : Place) → SizeAt program.now tables.now at }
    ensures { IsFault (WeightAt program.now tables.now) result }
{
    for n in 0..program.node_count() {
        if !weight_holds(program, tables, n) {
            return Some(Place::Node(n));
        }
    }
    None
}

// Whether the rule is kept at a node.
fn weight_holds(program: &Program, tables: &Tables, n: NodeId) -> bool
    requires { SizeAt program.now tables.now (place.Node n) }
    ensures { IsTrue result ↔ WeightAt program.now tables.now (place.Node n) }
{
    match program.step(n) {
        Some(step) => needed_weight(program, tables, step) <= u64::from(tables.weight(n)),
        None => true,
    }
}

// What the weight of a node with this step must at least be.
fn needed_weight(program: &Program, tables: &Tables, step: &Step) -> u64
    requires { StepFits program.now step.now }
    ensures { result ≡ needed_weight program.now tables.now step.now }
{
    match step {
        Step::Assign { next, .. }
        | Step::Update { next, .. }
        | Step::Join { next }
        | Step::Depth { next } => 1 + u64::from(tables.weight(*next)),
        Step::Cond { then, other, .. } => {
            1 + u64::from(tables.weight(*then).max(tables.weight(*other)))
        }
        Step::Fork { children, join } => {
            1 + fork_weight(program, tables, children.as_slice(), *join)
        }
        Step::Surf { .. } | Step::Exit => 1,
    }
}

// The weight of what a fork sets going: its children, and its join where it may be reached in the
// same tick.
fn fork_weight(program: &Program, tables: &Tables, children: &[ThreadId], join: NodeId) -> u64
    requires { length children.now ≤ child_limit }
    ensures value { result ≡ entry_weights program.now tables.now children.now +
        (if entries_end program.now tables.now children.now then weight tables.now join else 0) }
    ensures small { result ≤ 4259775 }
{
    let entries = entry_weights(program, tables, children);
    if entries_end(program, tables, children) {
        entries + u64::from(tables.weight(join))
    } else {
        entries
    }
}

// The sum of the weights of the entries of these threads.
fn entry_weights(program: &Program, tables: &Tables, children: &[ThreadId]) -> u64
    requires { length children.now ≤ child_limit }
    ensures value { result ≡ entry_weights program.now tables.now children.now }
    ensures small { result ≤ 65535 * length children.now }
{
    let mut sum = 0;
    for child in children {
        sum += entry_weight(program, tables, *child);
    }
    sum
}

/// The weight of the node where a thread begins.
pub(crate) fn entry_weight(program: &Program, tables: &Tables, thread: ThreadId) -> u64
    ensures value { result ≡ entry_weight tables.now (entry_of program.now thread) }
    ensures small { result ≤ 65535 }
{
    match program.entry(thread) {
        Some(node) => u64::from(tables.weight(node)),
        None => 0,
    }
}
