//! The variables of expressions.

ghost use Rattle.std.specs.Prelude.{◌≡◌, not};
ghost use Rattle.std.specs.List.{filter};
ghost use Rattle.sc_values.specs.declared.expression.Expr.TheViews.{out-Expr};
ghost use Rattle.chart_warnings.specs.Names.{is_rest, is_rest_value};
ghost use Rattle.chart_warnings.specs.Inside.Marks.{is_besides, marked, variables_of};

use crate::marks::mark;
use sc_values::{Expr, Value};

/// Marks the variables of an expression, but for this one.
#[tactic(auto, using(crate::proofs::Marking::binary_marked))]
pub(crate) fn mark_reads(expr: &Expr, besides: Option<u16>, marks: &mut Vec<bool>)
    ensures { marks.new.items ≡ marked (filter (is_besides besides) (variables_of expr.now)) marks.old.items }
{
    match expr {
        Expr::Literal(_) => {}
        Expr::Load(x) => {
            if is_besides(besides, *x) {
                mark(marks, *x as usize);
            }
        }
        Expr::Unary(_, operand) => mark_reads(operand.get(), besides, marks),
        Expr::Binary(_, left, right) => {
            mark_reads(left.get(), besides, marks);
            mark_reads(right.get(), besides, marks);
        }
    }
}

fn is_besides(besides: Option<u16>, variable: u16) -> bool
    ensures { result ≡ is_besides besides variable }
{
    match besides {
        Some(other) => other != variable,
        None => true,
    }
}

/// Whether an expression is the literal `false` or 0.
pub(crate) fn is_rest(expr: &Expr) -> bool
    ensures { result ≡ is_rest (out-Expr expr.now) }
{
    match expr {
        Expr::Literal(value) => is_rest_value(*value),
        _ => false,
    }
}

fn is_rest_value(value: Value) -> bool
    ensures { result ≡ is_rest_value value }
{
    match value {
        Value::Bool(is_set) => !is_set,
        Value::Int(number) => number == 0,
    }
}
