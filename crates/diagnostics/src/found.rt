//! What stands at a place of a text.

use crate::page::Page;
use node_sources::name_in;

/// Whether this piece stands at a byte of a text.
pub(crate) fn stands_at(text: &str, at: usize, piece: &str) -> bool {
    match text.as_bytes().get(at..) {
        Some(rest) => rest.starts_with(piece.as_bytes()),
        None => false,
    }
}

/// Which of these pieces stands at a byte of a text, the first of several.
pub(crate) fn one_at(text: &str, at: usize, pieces: &[&'static str]) -> Option<&'static str> {
    for piece in pieces {
        if stands_at(text, at, piece) {
            return Some(*piece);
        }
    }
    None
}

// The signs of two characters.
const LONG_SIGNS: [&str; 5] = ["->", "==", "!=", "<=", ">="];

// The character that stands there. Empty: it cannot be shown.
fn shown_byte(text: &str, at: usize) -> &str {
    match text.as_bytes().get(at) {
        Some(byte) if byte.is_ascii_graphic() => {
            text.get(at..at.saturating_add(1)).unwrap_or("")
        }
        _ => "",
    }
}

// The word, number or sign that begins there. Empty: none does.
fn piece_at(text: &str, at: usize) -> &str {
    let name = name_in(text, at);
    if !name.is_empty() {
        return name;
    }
    match one_at(text, at, &LONG_SIGNS) {
        Some(sign) => sign,
        None => shown_byte(text, at),
    }
}

/// What stands at a byte of a text: a piece of it between two backquotes, or what it is called.
#[derive(Clone, Copy)]
pub(crate) struct Piece<'a> {
    quote: &'static str,
    text: &'a str,
}

impl<'a> Piece<'a> {
    /// Writes these words, with what was found where `@` stands.
    pub(crate) fn put_into(self, page: &mut Page, words: &str) {
        page.put_quoted(words, self.quote, self.text);
    }
}

/// What stands at a byte of a text: the word, number or sign that begins there.
pub(crate) fn found(text: &str, at: usize) -> Piece<'_> {
    if at >= text.len() {
        return Piece {
            quote: "",
            text: "the end of the text",
        };
    }
    let piece = piece_at(text, at);
    if piece.is_empty() {
        Piece {
            quote: "",
            text: "a character that it does not use",
        }
    } else {
        Piece {
            quote: "`",
            text: piece,
        }
    }
}
