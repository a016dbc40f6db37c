//! The loads of a code.

ghost use Rattle.std.specs.Prelude.{◌≡◌, ◌≤◌, length, option_and_then, slice_get};
ghost use Rattle.sc_values.specs.Limits.{load_limit, operation_limit};
ghost use Rattle.sc_values.specs.Code.{loaded, loads};
ghost use Rattle.sc_values.specs.Checked.{loaded_from};

use crate::code::Code;
use crate::expression::variable_kind;
use crate::limits::LOAD_LIMIT;
use crate::operation::Operation;
use crate::value::Kind;
use arrayvec::ArrayVec;

/// The kinds of the variables that a code loads, in the order of its loads.
pub(crate) fn load_kinds(code: &Code, kinds: &[Kind]) -> ArrayVec<Kind, LOAD_LIMIT>
    requires { length (loads code.now) ≤ load_limit }
    ensures { result.items ≡ loaded_from kinds.now code.now }
{
    let mut found = ArrayVec::new();
    for operation in code.operations() {
        if let Some(kind) = loaded_kind(operation, kinds) {
            found.push(kind);
        }
    }
    found
}

/// The kind of the variable that an operation loads, if it loads one.
pub(crate) fn loaded_kind(operation: &Operation, kinds: &[Kind]) -> Option<Kind>
    ensures { result ≡ option_and_then (slice_get kinds.now) (loaded operation.now) }
{
    match operation {
        Operation::Load(x) => variable_kind(kinds, *x),
        _ => None,
    }
}

/// How many operations are loads.
pub(crate) fn load_count(operations: &[Operation]) -> usize
    requires { length operations.now ≤ operation_limit }
    ensures { result ≡ length (loads operations.now) }
{
    let mut count = 0;
    for operation in operations {
        if let Operation::Load(_) = operation {
            count += 1;
        }
    }
    count
}
