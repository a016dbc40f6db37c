//! What transitions ask: waits and tests.

ghost use Rattle.std.specs.Prelude.{◌≡◌, IfOk, string_bytes};
ghost use Rattle.sc_values.specs.declared.expression.Expr.TheViews.{out-Expr};
ghost use Rattle.extended_charts.specs.Reading.{is_count};
ghost use Rattle.drawing.specs.Inside.Seen.{text_seen};
ghost use Rattle.drawing.specs.Triggers.{after_text, asked_text, counted_now, counted_text};
ghost use Rattle.drawing.specs.Triggers.{is_counted, is_elapsed, of_text, test_text, tested_step, wait_text};
ghost use Rattle.drawing.specs.Triggers.{with_test};

use crate::{Symbol, sparing_text};
use extended_charts::ELAPSED;
use sc_values::{BinaryOperator, Expr};
use std::alloc::{AllocError, Global};

// Whether an expression is the ticks since the state was entered.
fn is_elapsed(expression: &Expr) -> bool
    ensures { result ≡ is_elapsed (out-Expr expression.now) }
{
    match expression {
        Expr::Load(x) => *x == ELAPSED,
        _ => false,
    }
}

fn is_count(counts: usize, x: u16) -> bool
    ensures { result ≡ is_count counts x }
{
    x < ELAPSED && !(counts < (ELAPSED - x) as usize)
}

// Whether an expression is one of so many counts.
fn is_counted(counts: usize, expression: &Expr) -> bool
    ensures { result ≡ is_counted counts (out-Expr expression.now) }
{
    match expression {
        Expr::Load(x) => is_count(counts, *x),
        _ => false,
    }
}

fn after_text(alloc: Global, symbols: &[Symbol], ticks: &Expr) -> Result<String, AllocError>
    ensures { IfOk result (λ text. string_bytes text ≡ after_text symbols.now ticks.now) }
{
    let ticks = sparing_text(alloc, symbols, ticks)?;
    format!(in alloc; " after {ticks}")
}

fn of_text(
    alloc: Global,
    symbols: &[Symbol],
    ticks: &Expr,
    condition: &Expr,
) -> Result<String, AllocError>
    ensures { IfOk result (λ text. string_bytes text ≡ of_text symbols.now ticks.now condition.now) }
{
    let after = after_text(alloc, symbols, ticks)?;
    let condition = sparing_text(alloc, symbols, condition)?;
    format!(in alloc; "{after} of {condition}")
}

// The count of so many ticks, by what it asks of this one.
fn counted_now(
    alloc: Global,
    symbols: &[Symbol],
    ticks: &Expr,
    current: &Expr,
) -> Result<Option<String>, AllocError>
    ensures { IfOk result (λ text. text_seen text ≡ counted_now symbols.now ticks.now (out-Expr current.now)) }
{
    match current {
        Expr::Binary(BinaryOperator::And, condition, _) => {
            Ok(Some(of_text(alloc, symbols, ticks, condition.get())?))
        }
        _ => Ok(None),
    }
}

// A count, by what it asks of this tick and of those before.
fn counted_text(
    alloc: Global,
    symbols: &[Symbol],
    counts: usize,
    current: &Expr,
    earlier: &Expr,
) -> Result<Option<String>, AllocError>
    ensures { IfOk result (λ text. text_seen text
        ≡ counted_text symbols.now counts current.now (out-Expr earlier.now)) }
{
    match earlier {
        Expr::Binary(BinaryOperator::GreaterOrEqual, number, ticks) => {
            if is_counted(counts, number.get()) {
                counted_now(alloc, symbols, ticks.get(), current)
            } else {
                Ok(None)
            }
        }
        _ => Ok(None),
    }
}

// The wait that an expression is; none where it is none.
fn wait_text(
    alloc: Global,
    symbols: &[Symbol],
    counts: usize,
    expression: &Expr,
) -> Result<Option<String>, AllocError>
    ensures { IfOk result (λ text. text_seen text ≡ wait_text symbols.now counts expression.now) }
{
    match expression {
        Expr::Binary(BinaryOperator::GreaterOrEqual, number, ticks) => {
            if is_elapsed(number.get()) {
                Ok(Some(after_text(alloc, symbols, ticks.get())?))
            } else {
                Ok(None)
            }
        }
        Expr::Binary(BinaryOperator::Or, current, earlier) => {
            counted_text(alloc, symbols, counts, current.get(), earlier.get())
        }
        _ => Ok(None),
    }
}

fn test_text(alloc: Global, symbols: &[Symbol], test: &Expr) -> Result<String, AllocError>
    ensures { IfOk result (λ text. string_bytes text ≡ test_text symbols.now test.now) }
{
    let test = sparing_text(alloc, symbols, test)?;
    format!(in alloc; " if {test}")
}

// A wait and a test; where there is no wait, the whole is a test.
fn with_test(
    alloc: Global,
    symbols: &[Symbol],
    wait: Option<String>,
    test: &Expr,
    whole: &Expr,
) -> Result<String, AllocError>
    ensures { IfOk result (λ text. string_bytes text
        ≡ with_test symbols.now (text_seen wait) test.now whole.now) }
{
    match wait {
        Some(wait) => {
            let test = test_text(alloc, symbols, test)?;
            format!(in alloc; "{wait}{test}")
        }
        None => test_text(alloc, symbols, whole),
    }
}

// What is asked by what is no wait alone: a wait and a test, or a test.
fn tested_text(
    alloc: Global,
    symbols: &[Symbol],
    counts: usize,
    trigger: &Expr,
) -> Result<String, AllocError>
    ensures { IfOk result (λ text. string_bytes text
        ≡ tested_step symbols.now counts trigger.now (out-Expr trigger.now)) }
{
    match trigger {
        Expr::Binary(BinaryOperator::And, wait, test) => {
            let wait = wait_text(alloc, symbols, counts, wait.get())?;
            with_test(alloc, symbols, wait, test.get(), trigger)
        }
        _ => test_text(alloc, symbols, trigger),
    }
}

/// What a transition with this trigger asks, in a chart with so many counts: a wait, a test, or both; nothing where
/// there is none. Err: memory was refused.
pub(crate) fn asked_text(
    alloc: Global,
    symbols: &[Symbol],
    counts: usize,
    trigger: &Option<Expr>,
) -> Result<String, AllocError>
    ensures { IfOk result (λ text. string_bytes text ≡ asked_text symbols.now counts trigger.now) }
{
    match trigger {
        Some(trigger) => match wait_text(alloc, symbols, counts, trigger)? {
            Some(wait) => Ok(wait),
            None => tested_text(alloc, symbols, counts, trigger),
        },
        None => Ok(String::new(alloc)),
    }
}
