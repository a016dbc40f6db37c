//! What stands before a place of a text.

use sc_text::{Language, TokenKind, tokens};
use std::alloc::Global;
use std::str;

/// The text before a byte. Empty: no character begins at that byte.
pub(crate) fn front_of(text: &str, at: usize) -> &str {
    match text.as_bytes().get(..at) {
        Some(bytes) => str::from_utf8(bytes).unwrap_or(""),
        None => text,
    }
}

/// The last token of a text. None: it has none, or is no list of tokens; or memory was refused.
pub(crate) fn last_token(alloc: Global, language: Language, front: &str) -> Option<TokenKind> {
    match tokens(alloc, language, front) {
        Ok(tokens) => tokens.as_slice().last().map(|token| token.kind),
        Err(_) => None,
    }
}
