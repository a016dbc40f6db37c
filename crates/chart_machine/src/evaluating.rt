//! Values of expressions and of triggers.

ghost use Rattle.std.specs.Prelude.{◌≡◌, slice_get};
ghost use Rattle.sc_values.specs.Expr.{value};
ghost use Rattle.chart_machine.specs.Steps.{truth, verdict};

use sc_values::{Expr, Value};

/// The value of an expression over the variables' values. None: a variable is unknown, or a kind doesn't fit.
pub fn value_of(expression: &Expr, variables: &[Value]) -> Option<Value>
    ensures { result ≡ value expression.now variables.now }
{
    match expression {
        Expr::Literal(literal) => Some(*literal),
        Expr::Load(x) => value_at(variables, *x),
        Expr::Unary(f, operand) => match value_of(operand.get(), variables) {
            Some(operand) => f.apply(operand),
            None => None,
        },
        Expr::Binary(f, left, right) => {
            match (
                value_of(left.get(), variables),
                value_of(right.get(), variables),
            ) {
                (Some(left), Some(right)) => f.apply(left, right),
                _ => None,
            }
        }
    }
}

fn value_at(variables: &[Value], variable: u16) -> Option<Value>
    ensures { result ≡ slice_get variables.now variable }
{
    variables.get(variable as usize).copied()
}

// Whether a trigger holds; a missing one does. None: its value is no truth.
pub(crate) fn verdict(variables: &[Value], trigger: &Option<Expr>) -> Option<bool>
    ensures { result ≡ verdict variables.now trigger.now }
{
    match trigger {
        None => Some(true),
        Some(condition) => match value_of(condition, variables) {
            Some(Value::Bool(holds)) => Some(holds),
            _ => None,
        },
    }
}
