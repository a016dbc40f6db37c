//! The tokens of a text.

use crate::sign::Sign;
use crate::word::Word;
use sc_values::Name;

/// What a token is.
#[derive(Clone, Copy)]
pub enum TokenKind {
    /// A name that is no reserved word.
    Name(Name),
    /// A number, from 0 to 2147483647.
    Number(i32),
    Word(Word),
    Sign(Sign),
}

/// A token, and the place of its first byte in the text, from 0.
#[derive(Clone, Copy)]
pub struct Token {
    pub kind: TokenKind,
    pub at: usize,
}
