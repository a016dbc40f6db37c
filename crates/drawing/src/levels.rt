//! How tightly operators hold their operands together, as the grammar of expressions has it.

ghost use Rattle.std.specs.Prelude.{◌≡◌};
ghost use Rattle.drawing.specs.Expressions.{binary_level, left_level, right_level, unary_level};

use sc_values::{BinaryOperator, UnaryOperator};

/// The level of what stands for itself: a name, a value, `min` and `max`.
pub(crate) const WHOLE: u8 = 8;

/// The level of an operator with one operand, which its operand must have too.
pub(crate) fn unary_level(operator: UnaryOperator) -> u8
    ensures { result ≡ unary_level operator }
{
    match operator {
        UnaryOperator::Not => 3,
        UnaryOperator::Divide(_) | UnaryOperator::Remainder(_) => 6,
        UnaryOperator::Negate => 7,
    }
}

/// The level of an operator with two operands.
pub(crate) fn binary_level(operator: BinaryOperator) -> u8
    ensures { result ≡ binary_level operator }
{
    match operator {
        BinaryOperator::Or => 1,
        BinaryOperator::And => 2,
        BinaryOperator::Equal => 4,
        BinaryOperator::NotEqual => 4,
        BinaryOperator::Less => 4,
        BinaryOperator::LessOrEqual => 4,
        BinaryOperator::Greater => 4,
        BinaryOperator::GreaterOrEqual => 4,
        BinaryOperator::Add => 5,
        BinaryOperator::Subtract => 5,
        BinaryOperator::Multiply => 6,
        BinaryOperator::Min => WHOLE,
        BinaryOperator::Max => WHOLE,
    }
}

/// The level that its left operand must have.
pub(crate) fn left_level(operator: BinaryOperator) -> u8
    ensures { result ≡ left_level operator }
{
    match operator {
        BinaryOperator::Or => 1,
        BinaryOperator::And => 2,
        BinaryOperator::Equal => 5,
        BinaryOperator::NotEqual => 5,
        BinaryOperator::Less => 5,
        BinaryOperator::LessOrEqual => 5,
        BinaryOperator::Greater => 5,
        BinaryOperator::GreaterOrEqual => 5,
        BinaryOperator::Add => 5,
        BinaryOperator::Subtract => 5,
        BinaryOperator::Multiply => 6,
        BinaryOperator::Min => 0,
        BinaryOperator::Max => 0,
    }
}

/// The level that its right operand must have.
pub(crate) fn right_level(operator: BinaryOperator) -> u8
    ensures { result ≡ right_level operator }
{
    match operator {
        BinaryOperator::Or => 2,
        BinaryOperator::And => 3,
        BinaryOperator::Equal => 5,
        BinaryOperator::NotEqual => 5,
        BinaryOperator::Less => 5,
        BinaryOperator::LessOrEqual => 5,
        BinaryOperator::Greater => 5,
        BinaryOperator::GreaterOrEqual => 5,
        BinaryOperator::Add => 6,
        BinaryOperator::Subtract => 6,
        BinaryOperator::Multiply => 7,
        BinaryOperator::Min => 0,
        BinaryOperator::Max => 0,
    }
}
