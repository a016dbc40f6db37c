//! Writing an expression.

ghost use Rattle.std.specs.Prelude.{◌≡◌, ◌++◌};
ghost use Rattle.std.specs.Fmt.{signed_decimal};
ghost use Rattle.scl_printer.specs.Expressions.{value_text, variable_text, prefix_text, divisor_text, opening_text};
ghost use Rattle.scl_printer.specs.Expressions.{infix_text, closing_text, is_infix, shown, expression_text};
ghost use Rattle.scl_printer.specs.Inside.Writing.{Writes, page};

use crate::buffered::Buffered;
use crate::parentheses::{
    Parentheses, binary_takes_not, parentheses_of, stands_enclosed, unary_takes_not,
};
use itoa::Buffer;
use sc_graph::{Variable, VariableId};
use sc_values::{BinaryOperator, Expr, Sink, UnaryOperator, Value};
use sqlite_items::at;

/// Writes an expression over these variables.
pub(crate) fn write_expression<W: Sink>(
    buffered: &mut Buffered,
    sink: &mut W,
    variables: &[Variable],
    expression: &Expr,
)
    ensures { Writes (page (W.taken sink.old) (W.failures sink.old) buffered.old)
        (page (W.taken sink.new) (W.failures sink.new) buffered.new) (expression_text variables.now expression.now) }
{
    let parentheses = parentheses_of(expression);
    write_tree(buffered, sink, parentheses, variables, expression);
}

// Writes an expression with these parentheses.
fn write_tree<W: Sink>(
    buffered: &mut Buffered,
    sink: &mut W,
    parentheses: Parentheses,
    variables: &[Variable],
    expression: &Expr,
)
    ensures { Writes (page (W.taken sink.old) (W.failures sink.old) buffered.old)
        (page (W.taken sink.new) (W.failures sink.new) buffered.new)
        (shown parentheses variables.now expression.now).text }
{
    match expression {
        Expr::Literal(value) => write_value(buffered, sink, *value),
        Expr::Load(variable) => buffered.put_text(sink, variable_text(variables, *variable)),
        Expr::Unary(operator, operand) => {
            let operand = operand.get();
            let is_inner = stands_enclosed(parentheses, unary_takes_not(*operator), operand);
            buffered.put_text(sink, prefix_text(*operator));
            buffered.put_if(sink, is_inner, "(");
            write_tree(buffered, sink, parentheses, variables, operand);
            buffered.put_if(sink, is_inner, ")");
            write_divisor(buffered, sink, *operator);
        }
        Expr::Binary(operator, left, right) => {
            let takes_not = binary_takes_not(*operator);
            let left = left.get();
            let is_left = stands_enclosed(parentheses, takes_not, left);
            let right = right.get();
            let is_right = stands_enclosed(parentheses, takes_not, right);
            buffered.put_text(sink, opening_text(*operator));
            buffered.put_if(sink, is_left, "(");
            write_tree(buffered, sink, parentheses, variables, left);
            buffered.put_if(sink, is_left, ")");
            buffered.put_text(sink, infix_text(*operator));
            buffered.put_if(sink, is_right, "(");
            write_tree(buffered, sink, parentheses, variables, right);
            buffered.put_if(sink, is_right, ")");
            buffered.put_text(sink, closing_text(*operator));
        }
    }
}

/// The name of the variable of this number. Empty: there is none.
pub fn variable_text(variables: &[Variable], variable: VariableId) -> &str
    ensures { result.now ≡ variable_text variables.now variable }
{
    match at(variables, variable as usize) {
        Some(variable) => variable.name.as_str(),
        None => "",
    }
}

fn write_value<W: Sink>(buffered: &mut Buffered, sink: &mut W, value: Value)
    ensures { Writes (page (W.taken sink.old) (W.failures sink.old) buffered.old)
        (page (W.taken sink.new) (W.failures sink.new) buffered.new) (value_text value) }
{
    match value {
        Value::Bool(true) => buffered.put_text(sink, "true"),
        Value::Bool(false) => buffered.put_text(sink, "false"),
        Value::Int(number) => write_number(buffered, sink, number),
    }
}

fn write_number<W: Sink>(buffered: &mut Buffered, sink: &mut W, number: i32)
    ensures { Writes (page (W.taken sink.old) (W.failures sink.old) buffered.old)
        (page (W.taken sink.new) (W.failures sink.new) buffered.new) (signed_decimal number) }
{
    let mut buffer = Buffer::new();
    buffered.put_text(sink, buffer.format(number));
}

// Writes a sign, and a number behind it.
fn write_behind<W: Sink>(buffered: &mut Buffered, sink: &mut W, sign: &str, number: i32)
    ensures { Writes (page (W.taken sink.old) (W.failures sink.old) buffered.old)
        (page (W.taken sink.new) (W.failures sink.new) buffered.new) (sign.now ++ signed_decimal number) }
{
    buffered.put_text(sink, sign);
    write_number(buffered, sink, number);
}

// Writes what stands behind the operand of an operator: where it divides, its sign and the divisor.
fn write_divisor<W: Sink>(buffered: &mut Buffered, sink: &mut W, operator: UnaryOperator)
    ensures { Writes (page (W.taken sink.old) (W.failures sink.old) buffered.old)
        (page (W.taken sink.new) (W.failures sink.new) buffered.new) (divisor_text operator) }
{
    match operator {
        UnaryOperator::Divide(divisor) => write_behind(buffered, sink, " / ", divisor.number()),
        UnaryOperator::Remainder(divisor) => write_behind(buffered, sink, " % ", divisor.number()),
        UnaryOperator::Negate | UnaryOperator::Not => {}
    }
}

/// Whether an operator stands between its operands.
pub fn is_infix(operator: BinaryOperator) -> bool
    ensures { result ≡ is_infix operator }
{
    match operator {
        BinaryOperator::Min => false,
        BinaryOperator::Max => false,
        _ => true,
    }
}

/// What stands before the operand of an operator.
pub fn prefix_text(operator: UnaryOperator) -> &'static str
    ensures { result.now ≡ prefix_text operator }
{
    match operator {
        UnaryOperator::Negate => "-",
        UnaryOperator::Not => "not ",
        UnaryOperator::Divide(_) => "",
        UnaryOperator::Remainder(_) => "",
    }
}

/// What stands before the operands of an operator.
pub fn opening_text(operator: BinaryOperator) -> &'static str
    ensures { result.now ≡ opening_text operator }
{
    match operator {
        BinaryOperator::Min => "min(",
        BinaryOperator::Max => "max(",
        _ => "",
    }
}

/// What stands between the operands of an operator.
pub fn infix_text(operator: BinaryOperator) -> &'static str
    ensures { result.now ≡ infix_text operator }
{
    match operator {
        BinaryOperator::Add => " + ",
        BinaryOperator::Subtract => " - ",
        BinaryOperator::Multiply => " * ",
        BinaryOperator::Min => ", ",
        BinaryOperator::Max => ", ",
        BinaryOperator::And => " and ",
        BinaryOperator::Or => " or ",
        BinaryOperator::Equal => " == ",
        BinaryOperator::NotEqual => " != ",
        BinaryOperator::Less => " < ",
        BinaryOperator::LessOrEqual => " <= ",
        BinaryOperator::Greater => " > ",
        BinaryOperator::GreaterOrEqual => " >= ",
    }
}

/// What stands behind the operands of an operator.
pub fn closing_text(operator: BinaryOperator) -> &'static str
    ensures { result.now ≡ closing_text operator }
{
    match operator {
        BinaryOperator::Min => ")",
        BinaryOperator::Max => ")",
        _ => "",
    }
}
