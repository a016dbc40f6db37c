//! Operators.

ghost use Rattle.std.specs.Prelude.{◌≡◌};
ghost use Rattle.sc_values.specs.Operator.{operator_of, kind_combined, combined, unary_value, binary_value, int_value};
ghost use Rattle.sc_values.specs.Operator.{truth_value, unary_kind, binary_kind, int_kind, truth_kind};
ghost use Rattle.sc_values.specs.Inside.Stack.{given_by_unary, given_by_binary};

use crate::divisor::Divisor;
use crate::value::{Kind, Value};

/// An operator of one operand. A division is one: its divisor is part of it.
#[derive(Clone, Copy, PartialEq, Eq)]
pub enum UnaryOperator {
    Negate,
    Not,
    /// The quotient by this divisor, rounded towards 0.
    Divide(Divisor),
    /// What that quotient leaves.
    Remainder(Divisor),
}

/// An operator of two operands. `Min` and `Max` are written as calls, the others as infixes.
#[derive(Clone, Copy, PartialEq, Eq)]
pub enum BinaryOperator {
    Add,
    Subtract,
    Multiply,
    Min,
    Max,
    And,
    Or,
    Equal,
    NotEqual,
    Less,
    LessOrEqual,
    Greater,
    GreaterOrEqual,
}

/// The function by which an update combines a variable with a value: six functions of which the
/// order of updates does not matter.
#[derive(Clone, Copy, PartialEq, Eq)]
pub enum Combination {
    Add,
    Multiply,
    Min,
    Max,
    And,
    Or,
}

impl Combination {
    /// The operator that computes it.
    pub fn operator(self) -> BinaryOperator
        ensures { result ≡ operator_of self }
    {
        match self {
            Combination::Add => BinaryOperator::Add,
            Combination::Multiply => BinaryOperator::Multiply,
            Combination::Min => BinaryOperator::Min,
            Combination::Max => BinaryOperator::Max,
            Combination::And => BinaryOperator::And,
            Combination::Or => BinaryOperator::Or,
        }
    }

    /// The kind of the values that it combines, and of what it gives.
    pub fn kind(self) -> Kind
        ensures { result ≡ kind_combined self }
    {
        match self {
            Combination::And | Combination::Or => Kind::Bool,
            Combination::Add | Combination::Multiply | Combination::Min | Combination::Max => {
                Kind::Int
            }
        }
    }

    /// What a variable of this value becomes by an update. Where a kind doesn't fit, it stays.
    pub fn combine(self, present: Value, by: Value) -> Value
        ensures { result ≡ combined self present by }
    {
        match self.operator().apply(present, by) {
            Some(value) => value,
            None => present,
        }
    }
}

impl UnaryOperator {
    /// The operator's value. None: the operand isn't of the operator's kind. An integer wraps.
    pub fn apply(self, operand: Value) -> Option<Value>
        ensures { result ≡ unary_value self operand }
    {
        match (self, operand) {
            (UnaryOperator::Negate, Value::Int(n)) => Some(Value::Int(n.wrapping_neg())),
            (UnaryOperator::Not, Value::Bool(b)) => Some(Value::Bool(!b)),
            (UnaryOperator::Divide(d), Value::Int(n)) => Some(Value::Int(d.quotient_of(n))),
            (UnaryOperator::Remainder(d), Value::Int(n)) => Some(Value::Int(d.remainder_of(n))),
            _ => None,
        }
    }

    // The kind of the value, where the operand fits.
    pub(crate) fn gives(self) -> Kind
        ensures { result ≡ given_by_unary self }
    {
        match self {
            UnaryOperator::Negate | UnaryOperator::Divide(_) | UnaryOperator::Remainder(_) => {
                Kind::Int
            }
            UnaryOperator::Not => Kind::Bool,
        }
    }

    /// The kind of the value. None: the operand isn't of the operator's kind.
    pub fn kind(self, operand: Kind) -> Option<Kind>
        ensures { result ≡ unary_kind self operand }
    {
        match (self, operand) {
            (UnaryOperator::Negate, Kind::Int) => Some(Kind::Int),
            (UnaryOperator::Not, Kind::Bool) => Some(Kind::Bool),
            (UnaryOperator::Divide(_), Kind::Int) => Some(Kind::Int),
            (UnaryOperator::Remainder(_), Kind::Int) => Some(Kind::Int),
            _ => None,
        }
    }
}

impl BinaryOperator {
    /// The operator's value. None: the operands aren't of the operator's kinds. An integer wraps.
    pub fn apply(self, left: Value, right: Value) -> Option<Value>
        ensures { result ≡ binary_value self left right }
    {
        match (left, right) {
            (Value::Int(m), Value::Int(n)) => self.of_integers(m, n),
            (Value::Bool(a), Value::Bool(b)) => self.of_truths(a, b),
            _ => None,
        }
    }

    /// The kind of the value. None: the operands aren't of the operator's kinds.
    pub fn kind(self, left: Kind, right: Kind) -> Option<Kind>
        ensures { result ≡ binary_kind self left right }
    {
        match (left, right) {
            (Kind::Int, Kind::Int) => self.kind_of_integers(),
            (Kind::Bool, Kind::Bool) => self.kind_of_truths(),
            _ => None,
        }
    }

    // The kind of the value, where the operands fit.
    pub(crate) fn gives(self) -> Kind
        ensures { result ≡ given_by_binary self }
    {
        match self {
            BinaryOperator::Add
            | BinaryOperator::Subtract
            | BinaryOperator::Multiply
            | BinaryOperator::Min
            | BinaryOperator::Max => Kind::Int,
            _ => Kind::Bool,
        }
    }

    fn of_integers(self, m: i32, n: i32) -> Option<Value>
        ensures { result ≡ int_value self m n }
    {
        let value = match self {
            BinaryOperator::Add => Value::Int(m.wrapping_add(n)),
            BinaryOperator::Subtract => Value::Int(m.wrapping_sub(n)),
            BinaryOperator::Multiply => Value::Int(m.wrapping_mul(n)),
            BinaryOperator::Min => Value::Int(m.min(n)),
            BinaryOperator::Max => Value::Int(m.max(n)),
            BinaryOperator::And | BinaryOperator::Or => return None,
            BinaryOperator::Equal => Value::Bool(m == n),
            BinaryOperator::NotEqual => Value::Bool(m != n),
            BinaryOperator::Less => Value::Bool(m < n),
            BinaryOperator::LessOrEqual => Value::Bool(m <= n),
            BinaryOperator::Greater => Value::Bool(m > n),
            BinaryOperator::GreaterOrEqual => Value::Bool(m >= n),
        };
        Some(value)
    }

    fn of_truths(self, a: bool, b: bool) -> Option<Value>
        ensures { result ≡ truth_value self a b }
    {
        match self {
            BinaryOperator::And => Some(Value::Bool(a & b)),
            BinaryOperator::Or => Some(Value::Bool(a | b)),
            BinaryOperator::Equal => Some(Value::Bool(a == b)),
            BinaryOperator::NotEqual => Some(Value::Bool(a != b)),
            _ => None,
        }
    }

    fn kind_of_integers(self) -> Option<Kind>
        ensures { result ≡ int_kind self }
    {
        match self {
            BinaryOperator::Add
            | BinaryOperator::Subtract
            | BinaryOperator::Multiply
            | BinaryOperator::Min
            | BinaryOperator::Max => Some(Kind::Int),
            BinaryOperator::And | BinaryOperator::Or => None,
            BinaryOperator::Equal
            | BinaryOperator::NotEqual
            | BinaryOperator::Less
            | BinaryOperator::LessOrEqual
            | BinaryOperator::Greater
            | BinaryOperator::GreaterOrEqual => Some(Kind::Bool),
        }
    }

    fn kind_of_truths(self) -> Option<Kind>
        ensures { result ≡ truth_kind self }
    {
        match self {
            BinaryOperator::And
            | BinaryOperator::Or
            | BinaryOperator::Equal
            | BinaryOperator::NotEqual => Some(Kind::Bool),
            _ => None,
        }
    }
}
