//! The tree that a postfix code spells, built from its operations.

ghost use Rattle.std.specs.Prelude.{◌≡◌, ◌∷◌, [], IfOk, MatchOption, reverse};
ghost use Rattle.sc_values.specs.Code.{grown, only, tree_of};
ghost use Rattle.sc_values.specs.Code.{some_if};

use crate::{BinaryOperator, Expr, Operation, UnaryOperator};
use sqlite_items::{Boxed, Items};
use std::alloc::{AllocError, Global};

/// The tree that a code spells. None: it spells none. Err: memory was refused.
pub fn tree_of(alloc: Global, code: &[Operation]) -> Result<Option<Expr>, AllocError>
    ensures { IfOk result (λ tree. tree ≡ tree_of code.now) }
{
    let mut stack: Items<Expr> = Items::new(alloc);
    for operation in code {
        if !grow_trees(alloc, *operation, &mut stack)? {
            return Ok(None);
        }
    }
    Ok(only_tree(&mut stack))
}

/// Puts the tree of an operation in place of those of its operands, which stand last. False: one is missing, and some
/// are lost. Err: memory was refused.
pub fn grow_trees(
    alloc: Global,
    operation: Operation,
    stack: &mut Items<Expr>,
) -> Result<bool, AllocError>
    ensures { IfOk result (λ can. grown operation (reverse stack.old) ≡ some_if can (reverse stack.new)) }
{
    match operation {
        Operation::Literal(value) => {
            stack.push(Expr::Literal(value))?;
            Ok(true)
        }
        Operation::Load(variable) => {
            stack.push(Expr::Load(variable))?;
            Ok(true)
        }
        Operation::Unary(f) => unary(alloc, f, stack),
        Operation::Binary(f) => binary(alloc, f, stack),
    }
}

fn unary(alloc: Global, f: UnaryOperator, stack: &mut Items<Expr>) -> Result<bool, AllocError>
    ensures { IfOk result (λ can. grown (Operation.Unary f) (reverse stack.old) ≡ some_if can (reverse stack.new)) }
{
    match last(stack) {
        Some(operand) => {
            stack.push(Expr::Unary(f, Boxed::new(alloc, operand)?))?;
            Ok(true)
        }
        None => Ok(false),
    }
}

fn binary(alloc: Global, f: BinaryOperator, stack: &mut Items<Expr>) -> Result<bool, AllocError>
    ensures { IfOk result (λ can. grown (Operation.Binary f) (reverse stack.old) ≡ some_if can (reverse stack.new)) }
{
    match (last(stack), last(stack)) {
        (Some(right), Some(left)) => {
            let left = Boxed::new(alloc, left)?;
            let right = Boxed::new(alloc, right)?;
            stack.push(Expr::Binary(f, left, right))?;
            Ok(true)
        }
        _ => Ok(false),
    }
}

// Takes the last one off.
fn last(stack: &mut Items<Expr>) -> Option<Expr>
    ensures { MatchOption result ((reverse stack.old ≡ []) × (reverse stack.new ≡ []))
        (λ tree. reverse stack.old ≡ tree ∷ reverse stack.new) }
{
    stack.pop()
}

/// The tree, where nothing but that stands there.
pub fn only_tree(stack: &mut Items<Expr>) -> Option<Expr>
    ensures { result ≡ only (reverse stack.old) }
{
    match (last(stack), last(stack)) {
        (Some(tree), None) => Some(tree),
        _ => None,
    }
}
