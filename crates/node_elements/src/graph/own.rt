//! The origins of the nodes of a thread.

ghost use Rattle.std.specs.Prelude.{◌≡◌, ◌++◌, IfOk, map};
ghost use Rattle.node_elements.specs.GraphOrigins.{behind_row, own_row, piece_of, thread, two_nodes};

use crate::graph::behind::{behind, next};
use crate::graph::origin::NodeOrigin;
use scl::Statement;
use sqlite_items::Items;
use std::alloc::AllocError;

/// Puts the origins of a thread's nodes behind the others, where its first point has this number: the answer is that of
/// its end. Err: memory was refused.
pub(crate) fn put_thread(
    statements: &[Statement],
    number: u32,
    origins: &mut Items<NodeOrigin>,
) -> Result<u32, AllocError>
    ensures origins { IfOk result (λ _. origins.new ≡ origins.old ++ thread (map piece_of statements.now) number) }
    ensures end { IfOk result (λ end. end ≡ behind_row (map piece_of statements.now) number) }
{
    let end = put_own(statements, number, origins)?;
    origins.push(NodeOrigin::First(end))?;
    Ok(end)
}

// Puts those of these statements behind the others: the answer is the number behind their points.
#[cycle(own)]
fn put_own(
    statements: &[Statement],
    number: u32,
    origins: &mut Items<NodeOrigin>,
) -> Result<u32, AllocError>
    ensures origins { IfOk result (λ _. origins.new ≡ origins.old ++ own_row (map piece_of statements.now) number) }
    ensures next { IfOk result (λ next. next ≡ behind_row (map piece_of statements.now) number) }
{
    let mut here = number;
    for statement in statements {
        here = put_own_of(statement, here, origins)?;
    }
    Ok(here)
}

#[cycle(own)]
fn put_own_of(
    statement: &Statement,
    number: u32,
    origins: &mut Items<NodeOrigin>,
) -> Result<u32, AllocError>
    ensures origins { IfOk result (λ _. origins.new ≡ origins.old ++ (piece_of statement.now).own number) }
    ensures next { IfOk result (λ next. next ≡ (piece_of statement.now).behind number) }
{
    match statement {
        Statement::Label(_) => next(number),
        Statement::Goto(_) => next(number),
        Statement::Assign { .. } => {
            origins.push(NodeOrigin::First(number))?;
            next(number)
        }
        Statement::Pause => {
            put_two(number, origins)?;
            next(number)
        }
        Statement::If {
            test: _,
            first,
            second,
        } => {
            origins.push(NodeOrigin::First(number))?;
            let between = put_own(first.as_slice(), next(number)?, origins)?;
            put_own(second.as_slice(), between, origins)
        }
        Statement::Fork { .. } => {
            put_two(number, origins)?;
            behind(statement, number)
        }
    }
}

// Puts those of the two nodes of this point behind the others.
fn put_two(number: u32, origins: &mut Items<NodeOrigin>) -> Result<(), AllocError>
    ensures { IfOk result (λ _. origins.new ≡ origins.old ++ two_nodes.own number) }
{
    origins.push(NodeOrigin::First(number))?;
    origins.push(NodeOrigin::Second(number))
}
