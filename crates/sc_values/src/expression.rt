//! Expressions, as trees.

ghost use Rattle.std.specs.Prelude.{◌≡◌, ◌+◌, ◌<◌, ◌++◌, ◌∷◌, [], length, slice_get, IfOk, MatchBool};
ghost use Rattle.sc_values.specs.Limits.{operation_limit};
ghost use Rattle.sc_values.specs.Assignment.{is_read};
ghost use Rattle.sc_values.specs.Expr.{kind, postorder};
ghost use Rattle.sc_values.specs.Inside.Reading.{names};

use crate::code::Code;
use crate::operation::Operation;
use crate::operator::{BinaryOperator, UnaryOperator};
use crate::value::{Kind, Value};
use sqlite_items::Boxed;
use std::alloc::{AllocError, Global};

/// An expression, as a tree. A variable is named by its number.
#[derive(Drop)]
pub enum Expr {
    Literal(Value),
    Load(u16),
    Unary(UnaryOperator, Boxed<Expr>),
    Binary(BinaryOperator, Boxed<Expr>, Boxed<Expr>),
}

impl Expr {
    /// Its kind over the variables' kinds. None: it isn't well kinded.
    pub fn kind(&self, kinds: &[Kind]) -> Option<Kind>
        ensures { result ≡ kind self.now kinds.now }
    {
        match self {
            Expr::Literal(value) => Some(value.kind()),
            Expr::Load(x) => variable_kind(kinds, *x),
            Expr::Unary(f, operand) => match operand.get().kind(kinds) {
                Some(of) => f.kind(of),
                None => None,
            },
            Expr::Binary(f, left, right) => {
                match (left.get().kind(kinds), right.get().kind(kinds)) {
                    (Some(of_left), Some(of_right)) => f.kind(of_left, of_right),
                    _ => None,
                }
            }
        }
    }

    /// A copy of it. Err: memory was refused.
    pub fn copied(&self, alloc: Global) -> Result<Expr, AllocError>
        ensures { IfOk result (λ copy. copy ≡ self.now) }
    {
        let copy = match self {
            Expr::Literal(value) => Expr::Literal(*value),
            Expr::Load(x) => Expr::Load(*x),
            Expr::Unary(f, operand) => {
                let operand = operand.get().copied(alloc)?;
                Expr::Unary(*f, Boxed::new(alloc, operand)?)
            }
            Expr::Binary(f, left, right) => {
                let left = left.get().copied(alloc)?;
                let right = right.get().copied(alloc)?;
                Expr::Binary(*f, Boxed::new(alloc, left)?, Boxed::new(alloc, right)?)
            }
        };
        Ok(copy)
    }

    /// Whether it reads a variable.
    pub fn reads(&self, variable: u16) -> bool
        ensures { result ≡ is_read variable self.now }
    {
        self.names(variable)
    }

    // Whether a variable stands in it.
    fn names(&self, variable: u16) -> bool
        ensures { result ≡ names variable self.now }
    {
        match self {
            Expr::Literal(_) => false,
            Expr::Load(x) => *x == variable,
            Expr::Unary(_, operand) => operand.get().names(variable),
            Expr::Binary(_, left, right) => {
                left.get().names(variable) || right.get().names(variable)
            }
        }
    }

    // Puts its operations behind a code's. False: they are more than 64 together, and the code ends
    // somewhere in between.
    pub(crate) fn write(&self, code: &mut Code) -> bool
        ensures { MatchBool result (code.new ≡ code.old ++ postorder self.now)
            (operation_limit < length (code.old ++ postorder self.now)) }
    {
        match self {
            Expr::Literal(value) => code.push_within(Operation::Literal(*value)),
            Expr::Load(x) => code.push_within(Operation::Load(*x)),
            Expr::Unary(f, operand) => {
                operand.get().write(code) && code.push_within(Operation::Unary(*f))
            }
            Expr::Binary(f, left, right) => {
                left.get().write(code)
                    && right.get().write(code)
                    && code.push_within(Operation::Binary(*f))
            }
        }
    }
}

// The kind of the variable with this number, if there is one.
pub(crate) fn variable_kind(kinds: &[Kind], variable: u16) -> Option<Kind>
    ensures { result ≡ slice_get kinds.now variable }
{
    kinds.get(variable as usize).copied()
}
