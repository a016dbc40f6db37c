//! The kind that a code which was checked leaves: that of its last operation.

ghost use Rattle.std.specs.Prelude.{◌≡◌, ◌-◌, length, option_and_then, slice_get};
ghost use Rattle.sc_values.specs.Inside.Stack.{last_kind};

use crate::operation::Operation;
use crate::value::Kind;

/// The kind of what the last operation leaves, where the loads are of these kinds.
pub(crate) fn last_left(operations: &[Operation], loads: &[Kind]) -> Option<Kind>
    ensures { result ≡ option_and_then (last_kind (slice_get loads.now 0))
        (slice_get operations.now (length operations.now - 1)) }
{
    match operations.last() {
        Some(operation) => kind_after(operation, loads.first().copied()),
        None => None,
    }
}

// The kind of what an operation leaves, where the code's first load is of this kind.
fn kind_after(operation: &Operation, first: Option<Kind>) -> Option<Kind>
    ensures { result ≡ last_kind first operation.now }
{
    match operation {
        Operation::Literal(value) => Some(value.kind()),
        Operation::Load(_) => first,
        Operation::Unary(f) => Some(f.gives()),
        Operation::Binary(f) => Some(f.gives()),
    }
}
