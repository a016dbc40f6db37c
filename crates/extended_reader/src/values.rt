//! The values that are written as literals.

ghost use Rattle.std.specs.Prelude.{◌≡◌, option_map};
ghost use Rattle.extended_reader.specs.Items.{literal_of, negated, value_of, value_in};

use sc_text::{TextExpression, TextOperation};
use sc_values::{UnaryOperator, Value};

/// The value of a literal, or of one under a minus.
fn value_of(operations: &[TextOperation]) -> Value
    ensures { result ≡ value_of operations.now }
{
    match operations {
        [literal] => literal_of(literal),
        [literal, _] => negated(literal_of(literal)),
        _ => Value::Bool(false),
    }
}

fn literal_of(operation: &TextOperation) -> Value
    ensures { result ≡ literal_of operation.now }
{
    match operation {
        TextOperation::Literal(value) => *value,
        _ => Value::Bool(false),
    }
}

fn negated(value: Value) -> Value
    ensures { result ≡ negated value }
{
    match UnaryOperator::Negate.apply(value) {
        Some(other) => other,
        None => value,
    }
}

/// The value, where there is one.
pub(crate) fn initial(value: &Option<TextExpression>) -> Option<Value>
    ensures { result ≡ option_map (λ e. value_of e.operations) value.now }
{
    match value {
        Some(value) => Some(value_of(value.operations.as_slice())),
        None => None,
    }
}

/// The value, or `false` where there is none.
pub(crate) fn value_in(value: &Option<TextExpression>) -> Value
    ensures { result ≡ value_in value.now }
{
    match value {
        Some(value) => value_of(value.operations.as_slice()),
        None => Value::Bool(false),
    }
}
