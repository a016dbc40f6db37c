//! A rule of the language that is broken, and a name that stands twice, in words.

use crate::could_follow::Grammar;
use crate::extended_rules::{INPUT_ASSIGNED, told_of_extended};
use crate::fronts::{front_of, last_token};
use crate::told::Told;
use crate::words::Words;
use node_sources::name_in;
use sc_text::{Sign, Token, TokenKind, Word, tokens};
use std::alloc::{AllocError, Global};

// How many states of a region are initial whose tokens begin here, behind its name.
fn initial_states(tokens: &[Token]) -> usize {
    let mut depth: usize = 0;
    let mut count: usize = 0;
    for token in tokens {
        match token.kind {
            TokenKind::Sign(Sign::OpenBrace) => depth = depth.saturating_add(1),
            TokenKind::Sign(Sign::CloseBrace) => {
                depth = depth.saturating_sub(1);
                if depth == 0 {
                    return count;
                }
            }
            TokenKind::Word(Word::Initial) if depth == 1 => count = count.saturating_add(1),
            _ => {}
        }
    }
    count
}

// Whether the region whose name stands at a byte has an initial state.
fn has_initial(alloc: Global, text: &str, at: usize) -> bool {
    match tokens(alloc, Grammar::of(text).tokens(), text) {
        Ok(tokens) => {
            for (place, token) in tokens.as_slice().iter().enumerate() {
                if token.at == at {
                    return match tokens.as_slice().get(place..) {
                        Some(rest) => initial_states(rest) > 0,
                        None => false,
                    };
                }
            }
            false
        }
        Err(_) => false,
    }
}

const MORE_INITIAL: Told = Told {
    cause: "region `@` has more than one initial state",
    cure: "put `initial` before the one state with which it begins",
};

const NO_INITIAL: Told = Told {
    cause: "region `@` has no initial state",
    cure: "put `initial` before the one state with which it begins",
};

const FINAL: Told = Told {
    cause: "state `@` is final, and has regions or transitions",
    cure: "leave them out, or `final`: where a final state is entered its region ends",
};

const GO: Told = Told {
    cause: "`go` leaves a simple state, and this one has regions",
    cure: "a superstate is left by `strong` or `weak`, or, when all its regions have ended, by `join`",
};

const JOIN: Told = Told {
    cause: "this `join` stands at a state without regions, or is its second one",
    cure: "a simple state is left by `go`, and a superstate by one `join` at most: put what it chooses into a state behind it",
};

const ABORT: Told = Told {
    cause: "`strong` and `weak` leave a superstate, and this state has no regions",
    cure: "a simple state is left by `go`",
};

// What is wrong with a transition that begins with this word and cannot stand there.
fn told_of_transition(word: Word) -> Told {
    match word {
        Word::Go => GO,
        Word::Join => JOIN,
        _ => ABORT,
    }
}

// What is wrong with a name at which a rule is broken.
fn told_of_name(alloc: Global, text: &str, at: usize, name: &str) -> Result<Told, AllocError> {
    let grammar = Grammar::of(text);
    match last_token(alloc, grammar.tokens(), front_of(text, at)) {
        Some(TokenKind::Word(Word::Region)) => Ok(if has_initial(alloc, text, at) {
            MORE_INITIAL
        } else {
            NO_INITIAL
        }),
        Some(TokenKind::Word(Word::State)) => Ok(FINAL),
        before if grammar == Grammar::ExtendedChart => told_of_extended(alloc, text, name, before),
        _ => Ok(INPUT_ASSIGNED),
    }
}

/// Says which rule is broken at a byte of a text.
pub(crate) fn put_rule(alloc: Global, words: &mut Words, text: &str, at: usize) {
    let name = name_in(text, at);
    match Word::of(name.as_bytes()) {
        Some(word) => words.tell(told_of_transition(word), name),
        None => words.tell_made(told_of_name(alloc, text, at, name), name),
    }
}

// That a second name like it is given to what a name is of that stands behind this token.
fn repeated(before: Option<TokenKind>) -> &'static str {
    match before {
        Some(TokenKind::Word(Word::Region)) => {
            "a second region of one superstate, or of the chart, is named `@`"
        }
        Some(TokenKind::Word(Word::State)) => "a second state of one region is named `@`",
        Some(TokenKind::Word(Word::Bool | Word::Int) | TokenKind::Name(_)) => {
            "a second variable is named `@`"
        }
        _ => "a second label is named `@`",
    }
}

/// Says of the name at a byte of a text that it stands twice.
pub(crate) fn put_repeated(alloc: Global, words: &mut Words, text: &str, at: usize) {
    let before = last_token(alloc, Grammar::of(text).tokens(), front_of(text, at));
    let told = Told {
        cause: repeated(before),
        cure: "rename one of them",
    };
    words.tell(told, name_in(text, at));
}
