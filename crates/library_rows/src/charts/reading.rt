//! What the words of a row stand for.

ghost use Rattle.std.specs.Prelude.{◌≤◌, IfOk};

use crate::reading::number;
use crate::words::{Unanswered, halves, known};
use chart_reader::read_chart;
use core_charts::Chart;
use sc_values::{Name, Value};
use sqlite_items::Items;
use std::alloc::Global;
use tick_core::Inputs;

/// The chart whose text stands behind its word.
pub(crate) fn chart_of(alloc: Global, spelled: &str) -> Result<Chart, Unanswered> {
    let text = format!(in alloc; "chart {spelled}")?;
    known(read_chart(alloc, text.as_str()).ok())
}

/// Numbers, each a word.
pub(crate) fn numbers(alloc: Global, text: &str) -> Result<Vec<usize>, Unanswered> {
    let mut numbers = Vec::new(alloc);
    for word in text.split_whitespace() {
        numbers.push(number(word)?)?;
    }
    Ok(numbers)
}

// A value: `false`, a number, or, where there is no word, `true`.
fn value(word: &str) -> Result<Value, Unanswered> {
    match word {
        "" => Ok(Value::Bool(true)),
        "false" => Ok(Value::Bool(false)),
        _ => Ok(Value::Int(known(word.parse::<i32>().ok())?)),
    }
}

// An input, as `NAME=VALUE`, or as `NAME` where it is `true`.
fn input(word: &str) -> Result<(Name, Value), Unanswered> {
    let (name, given) = halves(word, '=');
    Ok((known(Name::of(name))?, value(given)?))
}

/// Inputs, each a word.
pub(crate) fn inputs(alloc: Global, text: &str) -> Result<Vec<(Name, Value)>, Unanswered> {
    let mut inputs = Vec::new(alloc);
    for word in text.split_whitespace() {
        inputs.push(input(word)?)?;
    }
    Ok(inputs)
}

/// The inputs of ticks, one behind the other, with `;` between them.
pub(crate) fn ticks(alloc: Global, text: &str) -> Result<Vec<Inputs>, Unanswered> {
    let mut ticks = Vec::new(alloc);
    for part in text.split(';') {
        ticks.push(Items::from_vec(inputs(alloc, part)?))?;
    }
    Ok(ticks)
}

/// A number of workers, 1 to 8.
pub(crate) fn workers(text: &str) -> Result<u8, Unanswered>
    ensures { IfOk result (λ workers. (1 ≤ workers) × (workers ≤ 8)) }
{
    match text.parse::<u8>().ok() {
        Some(workers) if 1 <= workers && workers <= 8 => Ok(workers),
        _ => Err(Unanswered),
    }
}
