//! The limits of an expression, as far as its operations tell.

ghost use Rattle.std.specs.Prelude.{◌≡◌, ◌≤◌, ◌+◌, ℕ, count_by};
ghost use Rattle.sc_text.specs.Flaws.{is_load, height_behind, greatest_height, passes_limits};

use crate::TextOperation;
use sc_values::{LOAD_LIMIT, OPERAND_LIMIT, OPERATION_LIMIT};

/// Whether an expression passes a limit of codes.
pub fn passes_limits(operations: &[TextOperation]) -> bool
    ensures { result ≡ passes_limits operations.now }
{
    operations.len() > OPERATION_LIMIT
        || load_count(operations) > LOAD_LIMIT
        || greatest_height(operations) > OPERAND_LIMIT
}

fn load_count(operations: &[TextOperation]) -> usize
    ensures { result ≡ count_by is_load operations.now }
{
    let mut count = 0;
    for operation in operations {
        if is_load(operation) {
            count += 1;
        }
    }
    count
}

fn is_load(operation: &TextOperation) -> bool
    ensures { result ≡ is_load operation.now }
{
    match operation {
        TextOperation::Load(_, _) => true,
        _ => false,
    }
}

// The most operands that stand at any moment.
fn greatest_height(operations: &[TextOperation]) -> usize
    ensures { result ≡ greatest_height 0 operations.now }
{
    let mut height: usize = 0;
    let mut greatest: usize = 0;
    for operation in operations {
        greatest = greatest.max(height);
        height = height_behind(operation, height);
    }
    greatest.max(height)
}

fn height_behind(operation: &TextOperation, height: usize) -> usize
    requires { height + 1 ≤ 18446744073709551615 }
    ensures { result ≡ height_behind operation.now height }
{
    match operation {
        TextOperation::Literal(_) | TextOperation::Load(_, _) => height + 1,
        TextOperation::Unary(_) => height,
        TextOperation::Binary(_) => height.saturating_sub(1),
    }
}
