//! What the words of a row stand for.

use crate::words::{Unanswered, halves, known};
use sc_values::{Kind, Name, Value};
use sqlite_items::Items;
use std::alloc::Global;
use tick_core::Inputs;

/// A number.
pub(crate) fn number(word: &str) -> Result<usize, Unanswered> {
    known(word.parse::<usize>().ok())
}

/// The number of a thread, a node or a variable.
pub(crate) fn place(word: &str) -> Result<u16, Unanswered> {
    known(word.parse::<u16>().ok())
}

/// Numbers of threads, each a word.
pub(crate) fn places(alloc: Global, text: &str) -> Result<Vec<u16>, Unanswered> {
    let mut places = Vec::new(alloc);
    for word in text.split_whitespace() {
        places.push(place(word)?)?;
    }
    Ok(places)
}

/// A value: `true`, `false` or a number.
pub(crate) fn value(word: &str) -> Result<Value, Unanswered> {
    match word {
        "true" => Ok(Value::Bool(true)),
        "false" => Ok(Value::Bool(false)),
        _ => Ok(Value::Int(known(word.parse::<i32>().ok())?)),
    }
}

/// Values, each a word.
pub(crate) fn values(alloc: Global, text: &str) -> Result<Vec<Value>, Unanswered> {
    let mut values = Vec::new(alloc);
    for word in text.split_whitespace() {
        values.push(value(word)?)?;
    }
    Ok(values)
}

/// A kind: `int` or `bool`.
pub(crate) fn kind(word: &str) -> Result<Kind, Unanswered> {
    match word {
        "int" => Ok(Kind::Int),
        "bool" => Ok(Kind::Bool),
        _ => Err(Unanswered),
    }
}

/// Kinds, each a word.
pub(crate) fn kinds(alloc: Global, text: &str) -> Result<Vec<Kind>, Unanswered> {
    let mut kinds = Vec::new(alloc);
    for word in text.split_whitespace() {
        kinds.push(kind(word)?)?;
    }
    Ok(kinds)
}

// An input, as `NAME=VALUE`.
fn input(word: &str) -> Result<(Name, Value), Unanswered> {
    let (name, given) = halves(word, '=');
    Ok((known(Name::of(name))?, value(given)?))
}

/// Inputs, each as `NAME=VALUE`.
pub(crate) fn inputs(alloc: Global, text: &str) -> Result<Inputs, Unanswered> {
    let mut inputs = Items::new(alloc);
    for word in text.split_whitespace() {
        inputs.push(input(word)?)?;
    }
    Ok(inputs)
}
