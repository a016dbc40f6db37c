//! Whether a code is well formed, by running it over a stack of kinds.

ghost use Rattle.std.specs.Prelude.{◌≡◌, ◌↔◌, IsTrue, [], ◌∷◌, option_and_then, MatchOption, Some, None};
ghost use Rattle.sc_values.specs.Code.{IsWellFormed};
ghost use Rattle.sc_values.specs.Inside.Stack.{alone, kind_acted, tested};

use crate::code::Code;
use crate::code_loads::{load_count, loaded_kind};
use crate::limits::LOAD_LIMIT;
use crate::operation::Operation;
use crate::stack::Stack;
use crate::value::Kind;

/// Whether a code is well formed under these kinds of the variables.
pub(crate) fn is_well_formed(code: &Code, kinds: &[Kind]) -> bool
    ensures { IsTrue result ↔ IsWellFormed kinds.now code.now }
{
    let operations = code.operations();
    kind_of_code(operations, kinds).is_some() && load_count(operations) <= LOAD_LIMIT
}

// The kind of what a code leaves on a stack of kinds. None: it leaves another number of operands
// than one, or an operand is missing, of another kind or one too many.
fn kind_of_code(operations: &[Operation], kinds: &[Kind]) -> Option<Kind>
    ensures { result ≡ option_and_then alone (tested kinds.now operations.now []) }
{
    let mut stack = Stack::new();
    for operation in operations {
        match kind_left(&mut stack, operation, loaded_kind(operation, kinds)) {
            Some(kind) if !stack.is_full() => stack.push(kind),
            _ => return None,
        }
    }
    let kind = stack.pop()?;
    if stack.is_empty() { Some(kind) } else { None }
}

// The kind that an operation leaves for those of its operands, which it takes off the stack.
fn kind_left(stack: &mut Stack<Kind>, operation: &Operation, variable: Option<Kind>) -> Option<Kind>
    ensures { MatchOption result (kind_acted variable operation.now stack.old ≡ None)
        (λ k. kind_acted variable operation.now stack.old ≡ Some (k ∷ stack.new)) }
{
    match operation {
        Operation::Literal(value) => Some(value.kind()),
        Operation::Load(_) => variable,
        Operation::Unary(f) => match stack.pop() {
            Some(operand) => f.kind(operand),
            None => None,
        },
        Operation::Binary(f) => match (stack.pop(), stack.pop()) {
            (Some(right), Some(left)) => f.kind(left, right),
            _ => None,
        },
    }
}
