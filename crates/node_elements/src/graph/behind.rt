//! Which number comes behind the points of a piece of text.

ghost use Rattle.std.specs.Prelude.{◌≡◌, suc, IfOk, map};
ghost use Rattle.node_elements.specs.GraphOrigins.{behind_row, piece_of};

use scl::Statement;
use std::alloc::AllocError;

/// The number behind this one. Err: no memory holds a text with so many points.
pub(crate) fn next(number: u32) -> Result<u32, AllocError>
    ensures { IfOk result (λ next. next ≡ suc number) }
{
    match number.checked_add(1) {
        Some(next) => Ok(next),
        None => Err(AllocError),
    }
}

#[cycle(numbering)]
fn behind_row(statements: &[Statement], number: u32) -> Result<u32, AllocError>
    ensures { IfOk result (λ next. next ≡ behind_row (map piece_of statements.now) number) }
{
    let mut here = number;
    for statement in statements {
        here = behind(statement, here)?;
    }
    Ok(here)
}

/// The number behind a statement, whose own number this is. Err: no memory holds a text with so many points.
#[cycle(numbering)]
pub(crate) fn behind(statement: &Statement, number: u32) -> Result<u32, AllocError>
    ensures { IfOk result (λ next. next ≡ (piece_of statement.now).behind number) }
{
    match statement {
        Statement::Assign { .. } => next(number),
        Statement::Label(_) => next(number),
        Statement::Goto(_) => next(number),
        Statement::Pause => next(number),
        Statement::If {
            test: _,
            first,
            second,
        } => {
            let between = behind_row(first.as_slice(), next(number)?)?;
            behind_row(second.as_slice(), between)
        }
        Statement::Fork { branches } => {
            let mut here = next(number)?;
            for branch in branches.as_slice() {
                here = next(behind_row(branch.as_slice(), here)?)?;
            }
            Ok(here)
        }
    }
}
