//! Operations and codes at the front of bytes.

ghost use Rattle.std.specs.Prelude.{◌≡◌, ◌≤◌};
ghost use Rattle.sc_values.specs.Limits.{operation_limit};
ghost use Rattle.bytecode.specs.Reading.{each_at};
ghost use Rattle.bytecode.specs.Inside.Readers.{GivesExactly};
ghost use Rattle.bytecode.specs.Reading.Codes.{operation_body, divisor_at, is_division};
ghost use Rattle.bytecode.specs.Reading.Codes.{division, operation_at, code_at};

use crate::fault::DecodeFault;
use crate::reading::fields::{FLAGS, byte, choice, length, number16, number32};
use sc_values::{BinaryOperator, Code, Divisor, OPERATION_LIMIT, Operation, UnaryOperator, Value};
use sqlite_items::at;

const OPERATORS: [Operation; 15] = [
    Operation::Unary(UnaryOperator::Negate),
    Operation::Unary(UnaryOperator::Not),
    Operation::Binary(BinaryOperator::Add),
    Operation::Binary(BinaryOperator::Subtract),
    Operation::Binary(BinaryOperator::Multiply),
    Operation::Binary(BinaryOperator::Min),
    Operation::Binary(BinaryOperator::Max),
    Operation::Binary(BinaryOperator::And),
    Operation::Binary(BinaryOperator::Or),
    Operation::Binary(BinaryOperator::Equal),
    Operation::Binary(BinaryOperator::NotEqual),
    Operation::Binary(BinaryOperator::Less),
    Operation::Binary(BinaryOperator::LessOrEqual),
    Operation::Binary(BinaryOperator::Greater),
    Operation::Binary(BinaryOperator::GreaterOrEqual),
];

fn operator<'b>(
    bytes: &[u8],
    number: u8,
    rest: &'b [u8],
) -> Result<(Operation, &'b [u8]), DecodeFault>
    requires { 3 ≤ number }
    ensures { GivesExactly (λ x. (x.0, x.1.now)) result (operation_body bytes.now number rest.now) }
{
    match at(&OPERATORS, number as usize - 3) {
        Some(operator) => Ok((*operator, rest)),
        None => Err(DecodeFault::Field(bytes.len())),
    }
}

#[tactic(auto, unfolding(crate::specs::Reading::Codes::operation_body))]
fn body<'b>(bytes: &[u8], number: u8, rest: &'b [u8]) -> Result<(Operation, &'b [u8]), DecodeFault>
    ensures { GivesExactly (λ x. (x.0, x.1.now)) result (operation_body bytes.now number rest.now) }
{
    match number {
        0 => {
            let (literal, rest) = choice(&FLAGS, rest)?;
            Ok((Operation::Literal(Value::Bool(literal)), rest))
        }
        1 => {
            let (literal, rest) = number32(rest)?;
            Ok((Operation::Literal(Value::Int(literal.cast_signed())), rest))
        }
        2 => {
            let (variable, rest) = number16(rest)?;
            Ok((Operation::Load(variable), rest))
        }
        _ => operator(bytes, number, rest),
    }
}

#[tactic(auto, unfolding(crate::specs::Reading::Codes::divisor_at))]
fn divisor(bytes: &[u8]) -> Result<(Divisor, &[u8]), DecodeFault>
    ensures { GivesExactly (λ x. (x.0, x.1.now)) result (divisor_at bytes.now) }
{
    let (number, rest) = number32(bytes)?;
    let left = bytes.len();
    match Divisor::of(number.cast_signed()) {
        Some(divisor) => Ok((divisor, rest)),
        None => Err(DecodeFault::Field(left)),
    }
}

// Whether the operation of this number is a division in this version of the layout.
fn is_division(version: u8, number: u8) -> bool
    ensures { result ≡ is_division version number }
{
    18 <= number && number <= 19 && 2 <= version
}

fn division(number: u8, divisor: Divisor) -> UnaryOperator
    ensures { result ≡ division number divisor }
{
    if number == 18 {
        UnaryOperator::Divide(divisor)
    } else {
        UnaryOperator::Remainder(divisor)
    }
}

#[tactic(auto, unfolding(crate::specs::Reading::Codes::operation_at, crate::specs::Reading::Codes::division_at))]
fn operation(version: u8, bytes: &[u8]) -> Result<(Operation, &[u8]), DecodeFault>
    ensures { GivesExactly (λ x. (x.0, x.1.now)) result (operation_at version bytes.now) }
{
    let (number, rest) = byte(bytes)?;
    if is_division(version, number) {
        let (divisor, rest) = divisor(rest)?;
        Ok((Operation::Unary(division(number, divisor)), rest))
    } else {
        body(bytes, number, rest)
    }
}

fn operations(version: u8, count: u8, bytes: &[u8]) -> Result<(Code, &[u8]), DecodeFault>
    requires { count ≤ operation_limit }
    ensures { GivesExactly (λ x. (x.0, x.1.now)) result (each_at (operation_at version) count bytes.now) }
{
    let mut code = Code::new();
    let mut rest = bytes;
    for _ in 0..count {
        let (operation, after) = operation(version, rest)?;
        code.push(operation);
        rest = after;
    }
    Ok((code, rest))
}

/// A code of this version of the layout: its number of operations, and these.
#[tactic(auto, unfolding(crate::specs::Reading::Codes::code_at))]
pub fn code(version: u8, bytes: &[u8]) -> Result<(Code, &[u8]), DecodeFault>
    ensures { GivesExactly (λ x. (x.0, x.1.now)) result (code_at version bytes.now) }
{
    let (count, rest) = length(0, OPERATION_LIMIT as u8, bytes)?;
    operations(version, count, rest)
}
