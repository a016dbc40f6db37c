//! The text of an operation from those of its operands.

ghost use Rattle.std.specs.Prelude.{◌≡◌, IfOk, List, string_bytes};
ghost use Rattle.sc_graph.specs.declared.program.Variable.{Variable};
ghost use Rattle.sc_values.specs.declared.expression.Expr.TheOpen as tree;
ghost use Rattle.scl_printer.specs.Expressions.{operand, prefix_text, divisor_text, shown_step, value_text};
ghost use Rattle.scl_printer.specs.Inside.Seen.{seen};
ghost use Rattle.scl_printer.specs.declared.parentheses.Parentheses.{Parentheses};

use crate::expressions::{closing_text, infix_text, opening_text, prefix_text, variable_text};
use crate::parentheses::{
    Form, Parentheses, binary_form, binary_takes_not, is_enclosed, unary_form, unary_takes_not,
};
use sc_graph::{Variable, VariableId};
use sc_values::{BinaryOperator, UnaryOperator, Value};
use std::alloc::{AllocError, Global};

/// The text of an expression, and what it is to an operator around it.
#[derive(Drop)]
pub(crate) struct Shown {
    pub(crate) text: String,
    pub(crate) form: Form,
}

pub(crate) fn literal(alloc: Global, value: Value) -> Result<Shown, AllocError>
    ensures { IfOk result (λ s. (p : Parentheses) (variables : List Variable)
        → seen s ≡ shown_step p variables (tree.Literal value)) }
{
    let text = match value {
        Value::Bool(true) => format!(in alloc; "true")?,
        Value::Bool(false) => format!(in alloc; "false")?,
        Value::Int(number) => format!(in alloc; "{number}")?,
    };
    Ok(Shown {
        text,
        form: Form::Whole,
    })
}

pub(crate) fn load(
    alloc: Global,
    variables: &[Variable],
    variable: VariableId,
) -> Result<Shown, AllocError>
    ensures { IfOk result (λ s. (p : Parentheses) → seen s ≡ shown_step p variables.now (tree.Load variable)) }
{
    Ok(Shown {
        text: String::from_str(alloc, variable_text(variables, variable))?,
        form: Form::Whole,
    })
}

// The text of an operand.
fn operand(
    alloc: Global,
    parentheses: Parentheses,
    takes_not: bool,
    shown: Shown,
) -> Result<String, AllocError>
    ensures { IfOk result (λ text. string_bytes text ≡ operand parentheses takes_not (seen shown)) }
{
    let Shown { text, form } = shown;
    if is_enclosed(parentheses, takes_not, form) {
        format!(in alloc; "({text})")
    } else {
        Ok(text)
    }
}

pub(crate) fn unary(
    alloc: Global,
    parentheses: Parentheses,
    operator: UnaryOperator,
    inner: Shown,
) -> Result<Shown, AllocError>
    ensures { IfOk result (λ s. (variables : List Variable)
        → seen s ≡ shown_step parentheses variables (tree.Unary operator (seen inner))) }
{
    let inner = operand(alloc, parentheses, unary_takes_not(operator), inner)?;
    let before = prefix_text(operator);
    let behind = divisor_text(alloc, operator)?;
    Ok(Shown {
        text: format!(in alloc; "{before}{inner}{behind}")?,
        form: unary_form(operator),
    })
}

/// What stands behind the operand of an operator: where it divides, its sign and the divisor. Err: memory was refused.
pub fn divisor_text(alloc: Global, operator: UnaryOperator) -> Result<String, AllocError>
    ensures { IfOk result (λ text. string_bytes text ≡ divisor_text operator) }
{
    match operator {
        UnaryOperator::Divide(divisor) => {
            let number = divisor.number();
            format!(in alloc; " / {number}")
        }
        UnaryOperator::Remainder(divisor) => {
            let number = divisor.number();
            format!(in alloc; " % {number}")
        }
        UnaryOperator::Negate | UnaryOperator::Not => Ok(String::new(alloc)),
    }
}

pub(crate) fn binary(
    alloc: Global,
    parentheses: Parentheses,
    operator: BinaryOperator,
    left: Shown,
    right: Shown,
) -> Result<Shown, AllocError>
    ensures { IfOk result (λ s. (variables : List Variable)
        → seen s ≡ shown_step parentheses variables (tree.Binary operator (seen left) (seen right))) }
{
    let takes_not = binary_takes_not(operator);
    let left = operand(alloc, parentheses, takes_not, left)?;
    let right = operand(alloc, parentheses, takes_not, right)?;
    let opening = opening_text(operator);
    let infix = infix_text(operator);
    let closing = closing_text(operator);
    Ok(Shown {
        text: format!(in alloc; "{opening}{left}{infix}{right}{closing}")?,
        form: binary_form(operator),
    })
}
