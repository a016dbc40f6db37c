//! Whether a text is written as that of an extended chart: its first token tells.

ghost use Rattle.std.specs.Prelude.{◌<◌, ◌↔◌, IsTrue, length, MatchOption};
ghost use Rattle.chart_texts.specs.FirstWord.{BeginsExtended};
ghost use Rattle.chart_texts.specs.Inside.{PassesFront, PassesNoFront};

use extended_reader::comment_length;
use sc_text::{is_next, passed_length};

/// Whether the first token of these bytes is the word `extended`, where their block comments are left out. What stands
/// behind it is not looked at.
pub fn begins_extended(text: &[u8]) -> bool
    ensures { IsTrue result ↔ BeginsExtended text.now }
{
    let mut at = 0;
    while at < text.len() {
        match front_length(&text[at..]) {
            Some(length) => at += length,
            None => return is_next(&text[at..], b"extended"),
        }
    }
    false
}

// How many bytes of white space, or of a comment, begin the text. None: neither does.
fn front_length(text: &[u8]) -> Option<usize>
    requires { 0 < length text.now }
    ensures { MatchOption result (PassesNoFront text.now) (λ n. PassesFront text.now n) }
{
    match comment_length(text) {
        Some(length) => Some(length),
        None => passed_length(text),
    }
}
