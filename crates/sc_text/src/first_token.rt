//! Whether the first token of a text is a word, and by that which language the text is in.

ghost use Rattle.std.specs.Prelude.{◌≡◌, ◌<◌, ◌↔◌, IsTrue, length, MatchOption};
ghost use Rattle.std.specs.List.{prefix_len};
ghost use Rattle.sc_text.specs.Inside.{BeginsComment};
ghost use Rattle.sc_text.specs.Pieces.{is_blank, is_word_byte, stays_in_line};
ghost use Rattle.sc_text.specs.FirstToken.{BeginsWith, IsIn, IsNext, Passes, PassesNone, is_word};

use crate::Language;

/// The language of a text: charts, where its first token is the word `chart`, and else SCL. What stands behind
/// that token is not looked at.
pub fn language_of(text: &str) -> Language
    ensures { IsIn text.now result }
{
    if begins_with(text.as_bytes(), b"chart") {
        Language::Chart
    } else {
        Language::Scl
    }
}

/// Whether the first token of these bytes is the word. What stands behind it is not looked at.
pub fn begins_with(text: &[u8], word: &[u8]) -> bool
    requires { IsTrue (is_word word.now) }
    ensures { IsTrue result ↔ BeginsWith word.now text.now }
{
    let mut at = 0;
    while at < text.len() {
        match passed_length(&text[at..]) {
            Some(length) => at += length,
            None => return is_next(&text[at..], word),
        }
    }
    false
}

/// How many bytes of white space, or of a comment, begin the text. None: neither does.
pub fn passed_length(text: &[u8]) -> Option<usize>
    requires { 0 < length text.now }
    ensures { MatchOption result (PassesNone text.now) (λ n. Passes text.now n) }
{
    if is_blank(text[0]) {
        return Some(1);
    }
    if starts_comment(text) {
        return Some(line_length(text));
    }
    None
}

fn is_blank(byte: u8) -> bool
    ensures { result ≡ is_blank byte }
{
    byte == b' ' || byte == b'\t' || byte == b'\r' || byte == b'\n'
}

fn starts_comment(text: &[u8]) -> bool
    ensures { IsTrue result ↔ BeginsComment text.now }
{
    text.len() > 1 && text[0] == b'/' && text[1] == b'/'
}

// How many bytes stand before the end of the line.
fn line_length(text: &[u8]) -> usize
    ensures { result ≡ prefix_len stays_in_line text.now }
{
    for (i, byte) in text.iter().enumerate() {
        if *byte == b'\n' {
            return i;
        }
    }
    text.len()
}

/// Whether the text begins with the word, and no name goes on.
pub fn is_next(text: &[u8], word: &[u8]) -> bool
    requires { IsTrue (is_word word.now) }
    ensures { IsTrue result ↔ IsNext word.now text.now }
{
    match text.strip_prefix(word) {
        Some([next, ..]) => !goes_on(*next),
        Some([]) => true,
        None => false,
    }
}

fn goes_on(byte: u8) -> bool
    ensures { result ≡ is_word_byte byte }
{
    byte.is_ascii_alphanumeric() || byte == b'_'
}
