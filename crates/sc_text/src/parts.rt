//! What both languages have: names, expressions and variables.

ghost use Rattle.std.specs.Prelude.{◌≡◌, ◌↔◌, ℕ, IfOk, IsTrue, IsSome, Some, slice_get, count_by, map};
ghost use Rattle.std.specs.List.{list_any};
ghost use Rattle.std.specs.Str.{bytes_eq};
ghost use Rattle.sc_graph.specs.declared.program.Variable.{Variable};
ghost use Rattle.sc_graph.specs.Size.{is_output};
ghost use Rattle.sc_values.specs.Expr.{kind, postorder};
ghost use Rattle.sc_values.specs.Code.{IsWithinLimits};
ghost use Rattle.sc_text.specs.Tokens.{IsReserved};
ghost use Rattle.sc_text.specs.Parts.{IsNameIn, is_writable_literal, is_writable_unary, is_writable, IsExpression};
ghost use Rattle.sc_text.specs.Parts.{AreVariables, are_distinct};

use crate::language::Language;
use crate::word::Word;
use sc_graph::{OUTPUT_LIMIT, VARIABLE_LIMIT, Variable};
use sc_values::{Code, Expr, Kind, Name, UnaryOperator, Value};
use std::alloc::{AllocError, Global};

impl Language {
    /// Whether it takes this for a name: it is no reserved word, and in charts doesn't begin with `_`.
    pub fn takes_name(self, name: &Name) -> bool
        ensures { IsTrue result ↔ IsNameIn self name.now }
    {
        !is_reserved(name) && self.allows(name.as_bytes()[0])
    }

    /// Whether a program may declare these variables: 256 and 64 outputs at most, of different names that
    /// the language takes.
    /// Err: memory was refused.
    pub fn takes_variables(self, alloc: Global, variables: &[Variable]) -> Result<bool, AllocError>
        ensures { IfOk result (λ takes. IsTrue takes ↔ AreVariables self variables.now) }
    {
        let names = names_of(alloc, variables)?;
        Ok(
            variables.len() <= VARIABLE_LIMIT
                && output_count(variables) <= OUTPUT_LIMIT
                && self.takes_names(variables)
                && are_distinct(&names),
        )
    }

    fn takes_names(self, variables: &[Variable]) -> bool
        ensures { IsTrue result ↔ ((i : ℕ) (x : Variable) → slice_get variables.now i ≡ Some x → IsNameIn self x.name) }
    {
        for variable in variables {
            if !self.takes_name(&variable.name) {
                return false;
            }
        }
        true
    }
}

fn names_of(alloc: Global, variables: &[Variable]) -> Result<Vec<Name>, AllocError>
    ensures { IfOk result (λ names. names.items ≡ map (λ x. x.name) variables.now) }
{
    let mut names = Vec::with_capacity(alloc, variables.len())?;
    for variable in variables {
        names.push(variable.name)?;
    }
    Ok(names)
}

fn is_reserved(name: &Name) -> bool
    ensures { IsTrue result ↔ IsReserved name.now }
{
    Word::of(name.as_bytes()).is_some()
}

// How many of the variables are outputs.
fn output_count(variables: &[Variable]) -> usize
    ensures { result ≡ count_by (λ x. is_output x.role) variables.now }
{
    variables.iter().filter(|x| x.role.is_output()).count()
}

/// Whether no two of the names are equal.
pub fn are_distinct(names: &[Name]) -> bool
    ensures { result ≡ are_distinct names.now }
{
    for (at, name) in names.iter().enumerate() {
        if is_among(&names[at + 1..], name) {
            return false;
        }
    }
    true
}

fn is_among(names: &[Name], name: &Name) -> bool
    ensures { result ≡ list_any (bytes_eq name.now) names.now }
{
    names.iter().any(|other| name == other)
}

/// Whether a text can write the expression: no literal is negative, and no divisor is -2147483648.
pub fn is_writable(expression: &Expr) -> bool
    ensures { result ≡ is_writable expression.now }
{
    match expression {
        Expr::Literal(value) => is_writable_literal(*value),
        Expr::Load(_) => true,
        Expr::Unary(f, operand) => is_writable_unary(*f) && is_writable(operand.get()),
        Expr::Binary(_, left, right) => is_writable(left.get()) && is_writable(right.get()),
    }
}

fn is_writable_literal(value: Value) -> bool
    ensures { result ≡ is_writable_literal value }
{
    match value {
        Value::Bool(_) => true,
        Value::Int(n) => n >= 0,
    }
}

fn is_writable_unary(f: UnaryOperator) -> bool
    ensures { result ≡ is_writable_unary f }
{
    match f {
        UnaryOperator::Divide(divisor) | UnaryOperator::Remainder(divisor) => divisor.number()
            != i32::MIN,
        UnaryOperator::Negate | UnaryOperator::Not => true,
    }
}

/// Whether this is an expression of this kind over variables of these kinds, within the limits of codes,
/// that a text can write.
pub fn is_expression(expression: &Expr, kinds: &[Kind], kind: Kind) -> bool
    ensures { IsTrue result ↔ IsExpression kinds.now kind expression.now }
{
    is_writable(expression)
        && expression.kind(kinds) == Some(kind)
        && is_within_limits(expression, kinds)
}

// Whether no limit of codes is passed, of an expression that is well kinded.
fn is_within_limits(expression: &Expr, kinds: &[Kind]) -> bool
    ensures { IsSome (kind expression.now kinds.now) → (IsTrue result ↔ IsWithinLimits (postorder expression.now)) }
{
    Code::of(expression, kinds).is_ok()
}
