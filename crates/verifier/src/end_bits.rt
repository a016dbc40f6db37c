//! The end-bit rule: a node from which a thread may end in this tick has its end bit.

ghost use Rattle.std.specs.Prelude.{◌≡◌, ◌↔◌, ◌<◌, IsTrue};
ghost use Rattle.sc_graph.specs.Costs.{entry_end_bit, entries_end, may_end, EndBitAt};
ghost use Rattle.sc_graph.specs.Program.{entry_of};
ghost use Rattle.sc_graph.specs.declared.place.Place.TheVariants as place;
ghost use Rattle.verifier.specs.Inside.Faults.{IsFault};

use sc_graph::{NodeId, Place, Program, Step, Tables, ThreadId};

/// A place where the rule is broken, where it is.
pub(crate) fn end_bit_fault(program: &Program, tables: &Tables) -> Option<Place>
    ensures { IsFault (EndBitAt program.now tables.now) result }
{
    for n in 0..program.node_count() {
        if !end_bit_holds(program, tables, n) {
            return Some(Place::Node(n));
        }
    }
    None
}

// Whether the rule is kept at a node.
fn end_bit_holds(program: &Program, tables: &Tables, n: NodeId) -> bool
    ensures { IsTrue result ↔ EndBitAt program.now tables.now (place.Node n) }
{
    match program.step(n) {
        Some(step) => tables.end_bit(n) || !may_end(program, tables, step),
        None => true,
    }
}

// Whether a thread at such a step may end in this tick.
fn may_end(program: &Program, tables: &Tables, step: &Step) -> bool
    ensures { result ≡ may_end program.now tables.now step.now }
{
    match step {
        Step::Assign { next, .. }
        | Step::Update { next, .. }
        | Step::Join { next }
        | Step::Depth { next } => tables.end_bit(*next),
        Step::Cond { then, other, .. } => tables.end_bit(*then) || tables.end_bit(*other),
        Step::Fork { children, join } => {
            entries_end(program, tables, children.as_slice()) && tables.end_bit(*join)
        }
        Step::Surf { .. } => false,
        Step::Exit => true,
    }
}

/// Whether all these threads may end in the tick in which they are forked.
pub(crate) fn entries_end(program: &Program, tables: &Tables, children: &[ThreadId]) -> bool
    ensures { result ≡ entries_end program.now tables.now children.now }
{
    children
        .iter()
        .all(|child| entry_end_bit(program, tables, *child))
}

// Whether a thread may end in the tick in which it is forked.
fn entry_end_bit(program: &Program, tables: &Tables, thread: ThreadId) -> bool
    ensures { result ≡ entry_end_bit tables.now (entry_of program.now thread) }
{
    match program.entry(thread) {
        Some(node) => tables.end_bit(node),
        None => false,
    }
}
