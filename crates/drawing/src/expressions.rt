//! The text of an expression, with as few parentheses as it can do with.

ghost use Rattle.std.specs.Prelude.{◌≡◌, IfOk, List, nat_lt, string_bytes};
ghost use Rattle.scl_printer.specs.Expressions.{divisor_text, value_text};
ghost use Rattle.drawing.specs.Expressions.{sparing_text, written};
ghost use Rattle.drawing.specs.Inside.Puts.{Puts};
ghost use Rattle.drawing.specs.declared.symbols.Symbol.{Symbol};

use crate::levels::{WHOLE, binary_level, left_level, right_level, unary_level};
use crate::symbols::{Symbol, put_symbol};
use crate::text::Text;
use sc_values::{Expr, UnaryOperator, Value};
use scl_printer::{closing_text, infix_text, opening_text, prefix_text};
use std::alloc::{AllocError, Global};

/// The text of an expression, in which numbers name these. Err: memory was refused.
pub fn sparing_text(
    alloc: Global,
    symbols: &[Symbol],
    expression: &Expr,
) -> Result<String, AllocError>
    ensures { IfOk result (λ text. string_bytes text ≡ sparing_text symbols.now expression.now) }
{
    let mut text = Text::new(alloc);
    put_expression(&mut text, symbols, expression);
    text.finish()
}

/// Puts the text of an expression, in which numbers name these.
pub(crate) fn put_expression(text: &mut Text, symbols: &[Symbol], expression: &Expr)
    ensures { Puts text.old text.new (sparing_text symbols.now expression.now) }
{
    match expression {
        Expr::Literal(value) => put_value(text, *value),
        Expr::Load(variable) => put_symbol(text, symbols, *variable),
        Expr::Unary(operator, operand) => {
            let operand = operand.get();
            let is_inner = stands_enclosed(operand, unary_level(*operator));
            text.put(prefix_text(*operator));
            text.put_if(is_inner, "(");
            put_expression(text, symbols, operand);
            text.put_if(is_inner, ")");
            put_divisor(text, *operator);
        }
        Expr::Binary(operator, left, right) => {
            let left = left.get();
            let is_left = stands_enclosed(left, left_level(*operator));
            let right = right.get();
            let is_right = stands_enclosed(right, right_level(*operator));
            text.put(opening_text(*operator));
            text.put_if(is_left, "(");
            put_expression(text, symbols, left);
            text.put_if(is_left, ")");
            text.put(infix_text(*operator));
            text.put_if(is_right, "(");
            put_expression(text, symbols, right);
            text.put_if(is_right, ")");
            text.put(closing_text(*operator));
        }
    }
}

// Whether an operand stands in parentheses where this level is needed.
fn stands_enclosed(operand: &Expr, least: u8) -> bool
    ensures { (symbols : List Symbol) → result ≡ nat_lt (written symbols operand.now).level least }
{
    level(operand) < least
}

fn level(expression: &Expr) -> u8
    ensures { (symbols : List Symbol) → result ≡ (written symbols expression.now).level }
{
    match expression {
        Expr::Literal(_) | Expr::Load(_) => WHOLE,
        Expr::Unary(operator, _) => unary_level(*operator),
        Expr::Binary(operator, _, _) => binary_level(*operator),
    }
}

fn put_value(text: &mut Text, value: Value)
    ensures { Puts text.old text.new (value_text value) }
{
    match value {
        Value::Bool(true) => text.put("true"),
        Value::Bool(false) => text.put("false"),
        Value::Int(number) => text.put_signed(number),
    }
}

// Puts what stands behind the operand of an operator: where it divides, its sign and the divisor.
fn put_divisor(text: &mut Text, operator: UnaryOperator)
    ensures { Puts text.old text.new (divisor_text operator) }
{
    match operator {
        UnaryOperator::Divide(divisor) => {
            text.put(" / ");
            text.put_signed(divisor.number());
        }
        UnaryOperator::Remainder(divisor) => {
            text.put(" % ");
            text.put_signed(divisor.number());
        }
        UnaryOperator::Negate | UnaryOperator::Not => {}
    }
}
