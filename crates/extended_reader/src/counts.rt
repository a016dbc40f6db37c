//! The conditions of which ticks are counted, and what transitions ask of them.

ghost use Rattle.std.specs.Prelude.{◌≡◌, ◌≤◌, ◌+◌, [], ◌∷◌, ◌++◌, IfOk, OnOk, length};
ghost use Rattle.sc_values.specs.declared.expression.Expr.TheVariants as expr;
ghost use Rattle.sc_values.specs.declared.operator.BinaryOperator.TheVariants as operator;
ghost use Rattle.sc_graph.specs.Limits.{variable_limit};
ghost use Rattle.sc_text.specs.Flaws.{variable_names};
ghost use Rattle.sc_text.specs.Resolved.{expression_of};
ghost use Rattle.extended_reader.specs.Counts.{at_least, conditions, counted, counts_of, one_less, with_this};

use crate::text_drafts::DraftWay;
use sc_text::{Scope, TextExpression};
use sc_values::{BinaryOperator, Expr, Value};
use sqlite_items::{Boxed, Items};
use std::alloc::{AllocError, Global};

/// Puts the conditions of which these transitions count the ticks, over these variables, behind others. Err: memory was
/// refused.
pub(crate) fn put_conditions(
    alloc: Global,
    scope: &Scope,
    ways: &[DraftWay],
    made: &mut Items<Expr>,
) -> Result<(), AllocError>
    requires { length scope.now.variables.now ≤ variable_limit }
    ensures { OnOk result (made.new ≡
        made.old ++ conditions (variable_names scope.now.variables.now) ways.now) }
{
    for way in ways {
        if let Some(delay) = &way.delay {
            if let Some(count) = &delay.count {
                put_condition(alloc, scope, &count.condition, made)?;
            }
        }
    }
    Ok(())
}

fn put_condition(
    alloc: Global,
    scope: &Scope,
    condition: &TextExpression,
    made: &mut Items<Expr>,
) -> Result<(), AllocError>
    requires { length scope.now.variables.now ≤ variable_limit }
    ensures { OnOk result (made.new ≡ made.old ++
        expression_of (variable_names scope.now.variables.now) condition.now.operations ∷ []) }
{
    match scope.resolved(alloc, condition) {
        Ok(resolved) => made.push(resolved),
        Err(error) => Err(error),
    }
}

fn one_more(count: u16) -> Result<u16, AllocError>
    ensures { IfOk result (λ more. more ≡ count + 1) }
{
    match count.checked_add(1) {
        Some(more) => Ok(more),
        None => Err(AllocError),
    }
}

/// How many counts these transitions have. Err: there are more than 65535.
pub(crate) fn counts_in(ways: &[DraftWay]) -> Result<u16, AllocError>
    ensures { IfOk result (λ counts. counts ≡ length (counts_of ways.now)) }
{
    let mut counts = 0;
    for way in ways {
        if let Some(delay) = &way.delay {
            if delay.count.is_some() {
                counts = one_more(counts)?;
            }
        }
    }
    Ok(counts)
}

/// An operator over these operands. Err: memory was refused.
pub(crate) fn binary(
    alloc: Global,
    operator: BinaryOperator,
    left: Expr,
    right: Expr,
) -> Result<Expr, AllocError>
    ensures { IfOk result (λ made. made ≡ expr.Binary operator left right) }
{
    match Boxed::new(alloc, left) {
        Ok(left) => binary_over(alloc, operator, left, right),
        Err(error) => {
            drop(right);
            Err(error)
        }
    }
}

fn binary_over(
    alloc: Global,
    operator: BinaryOperator,
    left: Boxed<Expr>,
    right: Expr,
) -> Result<Expr, AllocError>
    ensures { IfOk result (λ made. made ≡ expr.Binary operator left right) }
{
    match Boxed::new(alloc, right) {
        Ok(right) => Ok(Expr::Binary(operator, left, right)),
        Err(error) => {
            drop(left);
            Err(error)
        }
    }
}

/// That a number names at least so many ticks. Err: memory was refused.
pub(crate) fn at_least(alloc: Global, number: u16, ticks: Expr) -> Result<Expr, AllocError>
    ensures { IfOk result (λ made. made ≡ at_least number ticks) }
{
    let number = Expr::Load(number);
    binary(alloc, BinaryOperator::GreaterOrEqual, number, ticks)
}

/// That the condition was true in so many ticks, where a number names in how many it was before this one. Err: memory
/// was refused.
pub(crate) fn counted(
    alloc: Global,
    number: u16,
    condition: Expr,
    ticks: Expr,
) -> Result<Expr, AllocError>
    ensures { IfOk result (λ made. made ≡ counted number condition ticks) }
{
    match with_this(alloc, number, condition, &ticks) {
        Ok(with_this) => with_this_or_without(alloc, number, with_this, ticks),
        Err(error) => {
            drop(ticks);
            Err(error)
        }
    }
}

fn with_this_or_without(
    alloc: Global,
    number: u16,
    with_this: Expr,
    ticks: Expr,
) -> Result<Expr, AllocError>
    ensures { IfOk result (λ made. made ≡ expr.Binary operator.Or with_this (at_least number ticks)) }
{
    match at_least(alloc, number, ticks) {
        Ok(without) => binary(alloc, BinaryOperator::Or, with_this, without),
        Err(error) => {
            drop(with_this);
            Err(error)
        }
    }
}

// That there are as many with this tick.
fn with_this(alloc: Global, number: u16, condition: Expr, ticks: &Expr) -> Result<Expr, AllocError>
    ensures { IfOk result (λ made. made ≡ with_this number condition ticks.now) }
{
    match one_less(alloc, number, ticks) {
        Ok(before) => binary(alloc, BinaryOperator::And, condition, before),
        Err(error) => {
            drop(condition);
            Err(error)
        }
    }
}

// That a number names at least so many ticks but one.
fn one_less(alloc: Global, number: u16, ticks: &Expr) -> Result<Expr, AllocError>
    ensures { IfOk result (λ made. made ≡ at_least number (one_less ticks.now)) }
{
    let all = ticks.copied(alloc)?;
    let one = Expr::Literal(Value::Int(1));
    let others = binary(alloc, BinaryOperator::Subtract, all, one)?;
    at_least(alloc, number, others)
}
