//! The faults of readers in words.

use crate::could_follow::Grammar;
use crate::extended_rules::{has_double_underscore, told_of_extended_kind};
use crate::found::{Piece, found, stands_at};
use crate::fronts::front_of;
use crate::grammar_words::put_stop;
use crate::limit_words::put_limit;
use crate::page::Page;
use crate::rule_words::{put_repeated, put_rule};
use crate::spellings::for_sign;
use crate::told::Told;
use crate::unknown_words::put_unknown;
use extended_reader::without_comments;
use node_sources::name_in;
use sc_text::FaultKind;
use std::alloc::{AllocError, Global};

/// A fault of a text in words: what is wrong, and what helps, which is empty where nothing is known to.
#[derive(Drop)]
pub(crate) struct Words {
    pub(crate) cause: Page,
    pub(crate) cure: Page,
}

impl Words {
    /// No words.
    pub(crate) fn none(alloc: Global) -> Words {
        Words {
            cause: Page::new(alloc),
            cure: Page::new(alloc),
        }
    }

    /// Says this of a piece of a text.
    pub(crate) fn tell(&mut self, told: Told, piece: &str) {
        self.cause.put_filled(told.cause, piece);
        self.cure.put(told.cure);
    }

    /// Says this of what was found at a place of a text.
    pub(crate) fn tell_found(&mut self, told: Told, found: Piece<'_>) {
        found.put_into(&mut self.cause, told.cause);
        self.cure.put(told.cure);
    }

    /// Says this of a piece of a text, if memory was not refused to what finds it.
    pub(crate) fn tell_made(&mut self, told: Result<Told, AllocError>, piece: &str) {
        match told {
            Ok(told) => self.tell(told, piece),
            Err(_) => self.cause.refuse(),
        }
    }
}

const MADE_NAME: Told = Told {
    cause: "@ has two underscores side by side: in an extended chart such names are reserved",
    cure: "leave one of them away",
};

const COMMENT: Told = Told {
    cause: "the comment that begins here is not closed",
    cure: "write `*/` where it ends",
};

const UNDERSCORE: Told = Told {
    cause: "in a chart no name begins with `_`: such names are reserved",
    cure: "let it begin with a letter",
};

const BEGINS_WITH_ZERO: Told = Told {
    cause: "@ begins with 0 and goes on",
    cure: "leave the 0 away: numbers are to the base of ten",
};

// What is wrong where no token stands. A block comment stands there only if it is not closed.
fn told_of_token(text: &str, at: usize) -> Told {
    if Grammar::of(text) == Grammar::ExtendedChart && has_double_underscore(name_in(text, at)) {
        return MADE_NAME;
    }
    if stands_at(text, at, "/*") {
        return COMMENT;
    }
    match text.as_bytes().get(at) {
        Some(b'_') => UNDERSCORE,
        Some(b'0'..=b'9') => BEGINS_WITH_ZERO,
        _ => Told {
            cause: "@ is nothing of the language",
            cure: for_sign(text, at).unwrap_or("write it otherwise; outside comments all is ASCII"),
        },
    }
}

const KIND: Told = Told {
    cause: "the expression that begins here has another kind than its place wants, or an operator has an operand of the wrong one",
    cure: "truth values and numbers do not mix: write `x != 0` for a test of a number",
};

// What is wrong with an expression of another kind.
fn told_of_kind(alloc: Global, text: &str, at: usize) -> Result<Told, AllocError> {
    if Grammar::of(text) != Grammar::ExtendedChart {
        return Ok(KIND);
    }
    match told_of_extended_kind(alloc, front_of(text, at))? {
        Some(told) => Ok(told),
        None => Ok(KIND),
    }
}

// Says the fault of a text at a byte, by what stands before and at that byte. What stands there is no block comment
// that the tokens of the text leave out, but for one that is not closed.
fn put_plain(alloc: Global, words: &mut Words, text: &str, broken: FaultKind, at: usize) {
    match broken {
        FaultKind::Token => words.tell_found(told_of_token(text, at), found(text, at)),
        FaultKind::Grammar => put_stop(alloc, words, text, at),
        FaultKind::Unknown => put_unknown(alloc, words, text, at),
        FaultKind::Repeated => put_repeated(alloc, words, text, at),
        FaultKind::Kind => words.tell_made(told_of_kind(alloc, text, at), name_in(text, at)),
        FaultKind::Rule => put_rule(alloc, words, text, at),
        FaultKind::Limit => put_limit(alloc, words, text, at),
    }
}

/// Says the fault of a text at a byte.
pub(crate) fn put_fault(
    alloc: Global,
    words: &mut Words,
    text: &str,
    broken: FaultKind,
    at: usize,
) {
    if broken == FaultKind::Token || Grammar::of(text) != Grammar::ExtendedChart {
        put_plain(alloc, words, text, broken, at);
        return;
    }
    match without_comments(alloc, text) {
        Ok(plain) => {
            put_plain(alloc, words, plain.as_str(), broken, at);
            drop(plain);
        }
        Err(_) => words.cause.refuse(),
    }
}
