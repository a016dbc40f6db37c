//! Whether two expressions are one and the same.

ghost use Rattle.std.specs.Prelude.{◌≡◌, ◌↔◌, IsTrue};
ghost use Rattle.sc_values.specs.declared.expression.Expr.TheVariants as expr;

use sc_values::{Expr, UnaryOperator, Value};

fn is_literal(value: Value, other: &Expr) -> bool
    ensures { IsTrue result ↔ (expr.Literal value ≡ other.now) }
{
    matches!(other, Expr::Literal(literal) if *literal == value)
}

fn is_load(variable: u16, other: &Expr) -> bool
    ensures { IsTrue result ↔ (expr.Load variable ≡ other.now) }
{
    matches!(other, Expr::Load(load) if *load == variable)
}

#[tactic(auto, using(crate::proofs::Same::operators_decide))]
fn is_same_operator(one: UnaryOperator, other: UnaryOperator) -> bool
    ensures { IsTrue result ↔ (one ≡ other) }
{
    one == other
}

/// Whether two expressions are the same.
pub(crate) fn is_same_expression(one: &Expr, other: &Expr) -> bool
    ensures { IsTrue result ↔ (one.now ≡ other.now) }
{
    match one {
        Expr::Literal(value) => is_literal(*value, other),
        Expr::Load(variable) => is_load(*variable, other),
        Expr::Unary(operator, operand) => match other {
            Expr::Unary(f, inner) => {
                is_same_operator(*operator, *f) && is_same_expression(operand.get(), inner.get())
            }
            _ => false,
        },
        Expr::Binary(operator, left, right) => match other {
            Expr::Binary(f, first, second) => {
                *operator == *f
                    && is_same_expression(left.get(), first.get())
                    && is_same_expression(right.get(), second.get())
            }
            _ => false,
        },
    }
}

/// Whether two conditions are the same.
pub(crate) fn is_same_trigger(one: &Option<Expr>, other: &Option<Expr>) -> bool
    ensures { IsTrue result ↔ (one.now ≡ other.now) }
{
    match one {
        Some(condition) => match other {
            Some(other) => is_same_expression(condition, other),
            None => false,
        },
        None => other.is_none(),
    }
}
