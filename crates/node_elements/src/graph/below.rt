//! The origins of the nodes of the threads that a text forks.

ghost use Rattle.std.specs.Prelude.{◌≡◌, ◌++◌, IfOk, map};
ghost use Rattle.node_elements.specs.GraphOrigins.{behind_row, below_row, piece_of};

use crate::graph::behind::next;
use crate::graph::origin::NodeOrigin;
use crate::graph::own::put_thread;
use scl::Statement;
use sqlite_items::Items;
use std::alloc::AllocError;

/// Puts the origins of the nodes of those threads that are forked in these statements behind the others: the answer is
/// the number behind their points, of which the first has this one. Err: memory was refused.
#[cycle(below)]
pub(crate) fn put_below(
    statements: &[Statement],
    number: u32,
    origins: &mut Items<NodeOrigin>,
) -> Result<u32, AllocError>
    ensures origins { IfOk result (λ _. origins.new ≡ origins.old ++ below_row (map piece_of statements.now) number) }
    ensures next { IfOk result (λ next. next ≡ behind_row (map piece_of statements.now) number) }
{
    let mut here = number;
    for statement in statements {
        here = put_below_of(statement, here, origins)?;
    }
    Ok(here)
}

#[cycle(below)]
fn put_below_of(
    statement: &Statement,
    number: u32,
    origins: &mut Items<NodeOrigin>,
) -> Result<u32, AllocError>
    ensures origins { IfOk result (λ _. origins.new ≡ origins.old ++ (piece_of statement.now).below number) }
    ensures next { IfOk result (λ next. next ≡ (piece_of statement.now).behind number) }
{
    match statement {
        Statement::Assign { .. } => next(number),
        Statement::Label(_) => next(number),
        Statement::Goto(_) => next(number),
        Statement::Pause => next(number),
        Statement::If {
            test: _,
            first,
            second,
        } => {
            let between = put_below(first.as_slice(), next(number)?, origins)?;
            put_below(second.as_slice(), between, origins)
        }
        Statement::Fork { branches } => {
            let mut here = next(number)?;
            for branch in branches.as_slice() {
                put_thread(branch.as_slice(), here, origins)?;
                here = next(put_below(branch.as_slice(), here, origins)?)?;
            }
            Ok(here)
        }
    }
}
