//! The text of a tree.

ghost use Rattle.std.specs.Prelude.{◌≡◌, IfOk, string_bytes};
ghost use Rattle.scl_printer.specs.Expressions.{expression_text, shown};
ghost use Rattle.scl_printer.specs.Inside.Seen.{seen};

use crate::operation_texts::{Shown, binary, literal, load, unary};
use crate::parentheses::{Parentheses, parentheses_of};
use sc_graph::Variable;
use sc_values::Expr;
use std::alloc::{AllocError, Global};

/// The text of an expression over these variables, as SCL text is printed. Err: memory was refused.
pub fn text_of(
    alloc: Global,
    variables: &[Variable],
    expression: &Expr,
) -> Result<String, AllocError>
    ensures { IfOk result (λ text. string_bytes text ≡ expression_text variables.now expression.now) }
{
    let parentheses = parentheses_of(expression);
    let Shown { text, form: _ } = shown(alloc, parentheses, variables, expression)?;
    Ok(text)
}

fn shown(
    alloc: Global,
    parentheses: Parentheses,
    variables: &[Variable],
    expression: &Expr,
) -> Result<Shown, AllocError>
    ensures { IfOk result (λ s. seen s ≡ shown parentheses variables.now expression.now) }
{
    match expression {
        Expr::Literal(value) => Ok(literal(alloc, *value)?),
        Expr::Load(variable) => Ok(load(alloc, variables, *variable)?),
        Expr::Unary(operator, inner) => {
            let inner = shown(alloc, parentheses, variables, inner.get())?;
            Ok(unary(alloc, parentheses, *operator, inner)?)
        }
        Expr::Binary(operator, left, right) => {
            let left = shown(alloc, parentheses, variables, left.get())?;
            let right = shown(alloc, parentheses, variables, right.get())?;
            Ok(binary(alloc, parentheses, *operator, left, right)?)
        }
    }
}
