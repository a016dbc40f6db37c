//! Operations and codes at the end of bytes.

ghost use Rattle.std.specs.Prelude.{◌≡◌, ◌++◌, OnOk};
ghost use Rattle.std.specs.List.{flat_map, AllByRecursion};
ghost use Rattle.std.specs.Int.{w32};
ghost use Rattle.std.specs.Int.RustNames.{FitsSigned};
ghost use Rattle.sc_values.specs.declared.operation.Operation.TheVariants as op;
ghost use Rattle.bytecode.specs.Codes.{unary_number, divisor_bytes, binary_number, operation_bytes, code_bytes};
ghost use Rattle.bytecode.specs.Fits.{SayableOperation, SayableCode};

use crate::writing::fields::{put16, put32};
use sc_values::{BinaryOperator, Code, Divisor, Operation, UnaryOperator, Value};
use std::alloc::AllocError;

fn unary_byte(operator: UnaryOperator) -> u8
    ensures { result ≡ unary_number operator }
{
    match operator {
        UnaryOperator::Negate => 3,
        UnaryOperator::Not => 4,
        UnaryOperator::Divide(_) => 18,
        UnaryOperator::Remainder(_) => 19,
    }
}

fn put_divisor(out: &mut Vec<u8>, divisor: Divisor) -> Result<(), AllocError>
    ensures written { OnOk result (out.new.items ≡ out.old.items ++ divisor_bytes divisor) }
    ensures fits { FitsSigned w32 divisor.number }
{
    put32(out, divisor.number().cast_unsigned())
}

#[tactic(auto, unfolding(crate::specs::Codes::operation_bytes))]
fn put_unary(out: &mut Vec<u8>, operator: UnaryOperator) -> Result<(), AllocError>
    ensures written { OnOk result (out.new.items ≡ out.old.items ++ operation_bytes (op.Unary operator)) }
    ensures fits { OnOk result (SayableOperation 2 (op.Unary operator)) }
{
    out.push(unary_byte(operator))?;
    match operator {
        UnaryOperator::Negate | UnaryOperator::Not => Ok(()),
        UnaryOperator::Divide(divisor) => put_divisor(out, divisor),
        UnaryOperator::Remainder(divisor) => put_divisor(out, divisor),
    }
}

fn binary_byte(operator: BinaryOperator) -> u8
    ensures { result ≡ binary_number operator }
{
    match operator {
        BinaryOperator::Add => 5,
        BinaryOperator::Subtract => 6,
        BinaryOperator::Multiply => 7,
        BinaryOperator::Min => 8,
        BinaryOperator::Max => 9,
        BinaryOperator::And => 10,
        BinaryOperator::Or => 11,
        BinaryOperator::Equal => 12,
        BinaryOperator::NotEqual => 13,
        BinaryOperator::Less => 14,
        BinaryOperator::LessOrEqual => 15,
        BinaryOperator::Greater => 16,
        BinaryOperator::GreaterOrEqual => 17,
    }
}

#[tactic(auto, unfolding(crate::specs::Codes::operation_bytes))]
fn put_operation(out: &mut Vec<u8>, operation: &Operation) -> Result<(), AllocError>
    ensures written { OnOk result (out.new.items ≡ out.old.items ++ operation_bytes operation.now) }
    ensures fits { OnOk result (SayableOperation 2 operation.now) }
{
    match *operation {
        Operation::Literal(Value::Bool(literal)) => {
            out.push(0)?;
            out.push(literal as u8)?;
            Ok(())
        }
        Operation::Literal(Value::Int(literal)) => {
            out.push(1)?;
            put32(out, literal.cast_unsigned())
        }
        Operation::Load(variable) => {
            out.push(2)?;
            put16(out, variable)
        }
        Operation::Unary(operator) => put_unary(out, operator),
        Operation::Binary(operator) => {
            out.push(binary_byte(operator))?;
            Ok(())
        }
    }
}

fn put_operations(out: &mut Vec<u8>, operations: &[Operation]) -> Result<(), AllocError>
    ensures written { OnOk result (out.new.items ≡ out.old.items ++ flat_map operation_bytes operations.now) }
    ensures fits { OnOk result (AllByRecursion (SayableOperation 2) operations.now) }
{
    for operation in operations {
        put_operation(out, operation)?;
    }
    Ok(())
}

/// A code: its number of operations, and these.
#[tactic(auto, unfolding(crate::specs::Codes::code_bytes))]
pub fn put_code(out: &mut Vec<u8>, code: &Code) -> Result<(), AllocError>
    ensures written { OnOk result (out.new.items ≡ out.old.items ++ code_bytes code.now) }
    ensures fits { OnOk result (SayableCode 2 code.now) }
{
    let operations = code.operations();
    out.push(operations.len() as u8)?;
    put_operations(out, operations)
}
