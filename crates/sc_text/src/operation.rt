//! The parts of an expression as it stands in a text.

use sc_values::{BinaryOperator, Name, UnaryOperator, Value};

/// An operation of an expression in postfix order, as the text has it: names are not yet numbers.
#[derive(Clone, Copy)]
pub enum TextOperation {
    Literal(Value),
    /// The variable of this name, which stands at this place of the text.
    Load(Name, usize),
    Unary(UnaryOperator),
    Binary(BinaryOperator),
}
