//! The operations of postfix codes.

ghost use Rattle.std.specs.Prelude.{◌≡◌, false};

use crate::operator::{BinaryOperator, UnaryOperator};
use crate::value::Value;

/// One operation of a postfix code: it takes its operands from a stack and leaves its value there.
#[derive(Clone, Copy, PartialEq, Eq)]
pub enum Operation {
    /// Leaves this value.
    Literal(Value),
    /// Leaves the value of the variable with this number.
    Load(u16),
    Unary(UnaryOperator),
    Binary(BinaryOperator),
}

// What fills the places of a code that hold no operation.
impl Default for Operation {
    fn default() -> Operation
        ensures { result ≡ Operation.Literal (Value.Bool false) }
    {
        Operation::Literal(Value::Bool(false))
    }
}
