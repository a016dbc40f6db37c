//! A limit that is passed, in words.

use crate::could_follow::Grammar;
use crate::fronts::{front_of, last_token};
use crate::told::Told;
use crate::words::Words;
use node_sources::name_in;
use sc_text::{ReadFault, TokenKind, Word, tokens};
use std::alloc::{AllocError, Global};

const ANY: &str =
    "a limit is passed: what begins here is one too many or too large, or it nests one level too deep";

const CURE: &str =
    "split it: a local variable for a part of an expression, a thread for some of the branches";

// A number or a name that is too long, by its first byte.
fn long_token(first: Option<u8>) -> &'static str {
    match first {
        Some(b'0'..=b'9') => "a number is at most 2147483647",
        _ => "a name has at most 64 characters",
    }
}

// What is one too many or too deep, where a word tells it.
fn limit_of_word(word: Word) -> &'static str {
    match word {
        Word::Region => "regions nest one level too deep",
        Word::Fork => "forks nest one level too deep",
        Word::If => "ifs nest one level too deep",
        Word::Par => "one branch too many",
        Word::Go | Word::Strong | Word::Weak | Word::Join => "one transition too many",
        _ => ANY,
    }
}

// What is one too many, where the word before its name tells it.
fn limit_of_name(before: Option<TokenKind>) -> &'static str {
    match before {
        Some(TokenKind::Word(Word::Region)) => "one region too many",
        Some(TokenKind::Word(Word::State)) => "one state too many",
        Some(TokenKind::Word(Word::Bool | Word::Int)) => "one variable too many",
        _ => ANY,
    }
}

// What passes a limit at a byte of a text, all of which is tokens.
fn limit_of_token(alloc: Global, text: &str, at: usize) -> &'static str {
    match Word::of(name_in(text, at).as_bytes()) {
        Some(word) => limit_of_word(word),
        None => limit_of_name(last_token(alloc, Grammar::of(text).tokens(), front_of(text, at))),
    }
}

// What passes a limit at a byte of a text.
fn limit_at(alloc: Global, text: &str, at: usize) -> Result<&'static str, AllocError> {
    match tokens(alloc, Grammar::of(text).tokens(), text) {
        Ok(_) => Ok(limit_of_token(alloc, text, at)),
        Err(ReadFault::Text(..)) => Ok(long_token(text.as_bytes().get(at).copied())),
        Err(ReadFault::Memory) => Err(AllocError),
    }
}

/// Says the limit that is passed at a byte of a text.
pub(crate) fn put_limit(alloc: Global, words: &mut Words, text: &str, at: usize) {
    match limit_at(alloc, text, at) {
        Ok(cause) => words.tell(Told { cause, cure: CURE }, ""),
        Err(_) => words.cause.refuse(),
    }
}
