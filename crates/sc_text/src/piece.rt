//! The pieces that a text is cut into: the longest that fits, one behind the other.

ghost use Rattle.std.specs.Prelude.{◌≡◌, ◌<◌, ◌↔◌, IsTrue, length, MatchOption};
ghost use Rattle.std.specs.List.{prefix_len};
ghost use Rattle.sc_values.specs.Name.{is_letter, is_digit};
ghost use Rattle.sc_text.specs.Pieces.{is_blank, BeginsNone};
ghost use Rattle.sc_text.specs.Inside.{is_of, IsPieceAt, BeginsComment, BeginsSign, BeginsNoSign};

use crate::sign::Sign;

/// What a piece is.
#[derive(Clone, Copy)]
pub enum Piece {
    /// A letter or `_`, then letters, digits and `_`.
    Word,
    Digits,
    Sign(Sign),
    /// One byte of white space.
    Blank,
    Comment,
}

/// The bytes that a row is made of.
#[derive(Clone, Copy)]
pub enum Row {
    /// Letters, digits and `_`.
    Word,
    Digits,
    /// All but a line feed.
    Line,
}

impl Row {
    fn has(self, byte: u8) -> bool
        ensures { result ≡ is_of self byte }
    {
        match self {
            Row::Word => is_letter_byte(byte) || is_digit_byte(byte),
            Row::Digits => is_digit_byte(byte),
            Row::Line => byte != b'\n',
        }
    }

    // How many bytes are of the row, before the first that isn't.
    fn length(self, bytes: &[u8]) -> usize
        ensures { result ≡ prefix_len (is_of self) bytes.now }
    {
        for (i, byte) in bytes.iter().enumerate() {
            if !self.has(*byte) {
                return i;
            }
        }
        bytes.len()
    }
}

fn is_letter_byte(byte: u8) -> bool
    ensures { result ≡ is_letter byte }
{
    byte.is_ascii_alphabetic() || byte == b'_'
}

fn is_digit_byte(byte: u8) -> bool
    ensures { result ≡ is_digit byte }
{
    byte.is_ascii_digit()
}

fn is_blank_byte(byte: u8) -> bool
    ensures { result ≡ is_blank byte }
{
    byte == b' ' || byte == b'\t' || byte == b'\r' || byte == b'\n'
}

/// The longest piece that begins the text, and its length in bytes. None: none begins it.
pub fn longest_piece(text: &[u8]) -> Option<(Piece, usize)>
    requires { 0 < length text.now }
    ensures { MatchOption result (BeginsNone text.now) (λ p. IsPieceAt text.now p.0 p.1) }
{
    let first = text[0];
    if is_letter_byte(first) {
        return Some((Piece::Word, Row::Word.length(text)));
    }
    if is_digit_byte(first) {
        return Some((Piece::Digits, Row::Digits.length(text)));
    }
    if is_blank_byte(first) {
        return Some((Piece::Blank, 1));
    }
    if starts_comment(text) {
        return Some((Piece::Comment, Row::Line.length(text)));
    }
    if let Some(sign) = front_sign(text, 2) {
        return Some((Piece::Sign(sign), 2));
    }
    match front_sign(text, 1) {
        Some(sign) => Some((Piece::Sign(sign), 1)),
        None => None,
    }
}

fn starts_comment(text: &[u8]) -> bool
    ensures { IsTrue result ↔ BeginsComment text.now }
{
    text.len() > 1 && text[0] == b'/' && text[1] == b'/'
}

// The sign that the first n bytes spell.
fn front_sign(text: &[u8], n: usize) -> Option<Sign>
    ensures { MatchOption result (BeginsNoSign text.now n) (λ s. BeginsSign text.now n s) }
{
    if text.len() < n {
        return None;
    }
    Sign::of(&text[..n])
}
