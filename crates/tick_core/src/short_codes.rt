//! The value of a short code, which most are, at once.

ghost use Rattle.std.specs.Prelude.{◌≡◌, [], ◌∷◌, IfSome, Some};
ghost use Rattle.sc_values.specs.Code.{code_value};
ghost use Rattle.tick_core.specs.Inside.ShortCodes.{operand_value};

use sc_values::{Code, Operation, Value};

/// The value of a code that is one operand, or one operator behind its operands, over these variables. None:
/// it is another one, or has no value.
#[tactic(auto, using(crate::proofs::ShortCodes::one_at, crate::proofs::ShortCodes::two_at, crate::proofs::ShortCodes::three_at, crate::proofs::ShortCodes::one_operand,))]
#[inline(always)]
pub(crate) fn short_value(code: &Code, variables: &[Value]) -> Option<Value>
    ensures { IfSome result (λ v. code_value code.now variables.now ≡ Some v) }
{
    match code.operations() {
        [operand] => value_of(operand, variables),
        [operand, operator] => value_by_one(operand, operator, variables),
        [left, right, operator] => value_by_two(left, right, operator, variables),
        _ => None,
    }
}

// The value of an operator behind one operand. None: there is none.
#[tactic(auto, using(crate::proofs::ShortCodes::unary_of))]
#[inline(always)]
fn value_by_one(operand: &Operation, operator: &Operation, variables: &[Value]) -> Option<Value>
    ensures { IfSome result (λ v. code_value (operand.now ∷ operator.now ∷ []) variables.now ≡ Some v) }
{
    match (operator, value_of(operand, variables)) {
        (Operation::Unary(f), Some(value)) => f.apply(value),
        _ => None,
    }
}

// The value of an operator behind two operands. None: there is none.
#[tactic(auto, using(crate::proofs::ShortCodes::binary_of))]
#[inline(always)]
fn value_by_two(
    left: &Operation,
    right: &Operation,
    operator: &Operation,
    variables: &[Value],
) -> Option<Value>
    ensures { IfSome result (λ v. code_value (left.now ∷ right.now ∷ operator.now ∷ []) variables.now ≡ Some v) }
{
    let (first, second) = (value_of(left, variables), value_of(right, variables));
    match (operator, first, second) {
        (Operation::Binary(f), Some(first), Some(second)) => f.apply(first, second),
        _ => None,
    }
}

// The value of an operation that is an operand. None: it is an operator, or no variable is there.
#[inline(always)]
fn value_of(operation: &Operation, variables: &[Value]) -> Option<Value>
    ensures { result ≡ operand_value operation.now variables.now }
{
    match operation {
        Operation::Literal(value) => Some(*value),
        Operation::Load(variable) => variables.get(*variable as usize).copied(),
        Operation::Unary(_) | Operation::Binary(_) => None,
    }
}
