//! What operators make of values and of kinds.

use crate::answers::Answers;
use crate::operations::{binary, combination, unary};
use crate::reading::{kind, value};
use crate::telling::{tell_any, word_of_kind};
use crate::words::{Unanswered, halves, known};
use sc_values::{Divisor, Kind, Value};

// `OPERATOR VALUE`, or `OPERATOR VALUE VALUE`.
fn applied(words: &str) -> Result<Option<Value>, Unanswered> {
    let (word, rest) = halves(words, ' ');
    let (first, second) = halves(rest, ' ');
    let first = value(first)?;
    if second.is_empty() {
        Ok(known(unary(word))?.apply(first))
    } else {
        Ok(known(binary(word))?.apply(first, value(second)?))
    }
}

// The same of kinds.
fn kind_of(words: &str) -> Result<Option<Kind>, Unanswered> {
    let (word, rest) = halves(words, ' ');
    let (first, second) = halves(rest, ' ');
    let first = kind(first)?;
    if second.is_empty() {
        Ok(known(unary(word))?.kind(first))
    } else {
        Ok(known(binary(word))?.kind(first, kind(second)?))
    }
}

// `COMBINATION PRESENT VALUE`.
fn combined(words: &str) -> Result<Value, Unanswered> {
    let (word, rest) = halves(words, ' ');
    let (present, by) = halves(rest, ' ');
    Ok(known(combination(word))?.combine(value(present)?, value(by)?))
}

// The divisor that a number is.
fn divisor(word: &str) -> Result<Option<Value>, Unanswered> {
    let number = known(word.parse::<i32>().ok())?;
    Ok(Divisor::of(number).map(|divisor| Value::Int(divisor.number())))
}

/// Whether a row is about operators; what is told of it.
pub(crate) fn tell_operator(row: &str, answers: &mut Answers) -> Result<bool, Unanswered> {
    let (word, rest) = halves(row, ' ');
    match word {
        "apply" => tell_any(answers, applied(rest)?),
        "divisor" => tell_any(answers, divisor(rest)?),
        "combine" => tell_any(answers, Some(combined(rest)?)),
        "initial" => tell_any(answers, Some(kind(rest)?.initial())),
        "kind" => answers.tell(word_of_kind(kind_of(rest)?)),
        "combines" => answers.tell(word_of_kind(Some(known(combination(rest))?.kind()))),
        _ => return Ok(false),
    }
    Ok(true)
}
