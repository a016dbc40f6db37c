//! What the words of a row stand for.

use std::alloc::{AllocError, AllocFailed};

/// There is no answer: a row means nothing, or memory was refused.
#[derive(Clone, Copy, Debug, PartialEq, Eq)]
pub(crate) struct Unanswered;

impl From<AllocError> for Unanswered {
    fn from(_refused: AllocError) -> Unanswered {
        Unanswered
    }
}

impl<T: Drop> From<AllocFailed<T>> for Unanswered {
    fn from(_refused: AllocFailed<T>) -> Unanswered {
        Unanswered
    }
}

/// What it holds; else the row means nothing.
pub(crate) fn known<T>(answer: Option<T>) -> Result<T, Unanswered> {
    match answer {
        Some(it) => Ok(it),
        None => Err(Unanswered),
    }
}

/// The text before a sign, and the text behind it.
pub(crate) fn halves(text: &str, sign: char) -> (&str, &str) {
    let mut parts = text.splitn(2, sign);
    match (parts.next(), parts.next()) {
        (Some(first), Some(second)) => (first, second),
        _ => (text, ""),
    }
}
