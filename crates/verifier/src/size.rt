//! The size and range rule: what it asks of the program, and the greatest budget.

ghost use Rattle.sc_graph.specs.Size.{SizeAt};
ghost use Rattle.verifier.specs.Inside.Faults.{IsFault};

use sc_graph::{BUDGET_LIMIT, Place, Program, Tables};

/// A place where the size and range rule is broken, where it is.
pub(crate) fn size_fault(program: &Program, tables: &Tables) -> Option<Place>
    ensures { IsFault (SizeAt program.now tables.now) result }
{
    match program.size_fault() {
        Some(place) => Some(place),
        None => {
            if tables.budget <= BUDGET_LIMIT {
                None
            } else {
                Some(Place::Image)
            }
        }
    }
}
