//! Names that are made beside those of a text.

ghost use Rattle.std.specs.Prelude.{◌≡◌, ◌≤◌, IsTrue, length};
ghost use Rattle.sc_values.specs.Name.{is_name};
ghost use Rattle.sc_text.specs.MadeNames.{numbered};

use arrayvec::ArrayString;
use itoa::Buffer;
use sc_values::{NAME_LIMIT, Name};

/// This word, and a number behind it.
pub fn numbered(word: &str, number: u64) -> Name
    requires named { IsTrue (is_name word.now) }
    requires short { length word.now ≤ 44 }
    ensures { result ≡ numbered word.now number }
{
    let mut digits = Buffer::new();
    let mut text = ArrayString::<NAME_LIMIT>::new();
    text.push_str(word);
    text.push_str(digits.format(number));
    match Name::of(text.as_str()) {
        Some(name) => name,
        None => unreachable!(),
    }
}

/// This word.
pub fn plain(word: &str) -> Name
    requires { IsTrue (is_name word.now) }
    ensures { result ≡ word.now }
{
    match Name::of(word) {
        Some(name) => name,
        None => unreachable!(),
    }
}
