//! What other languages spell otherwise.

use crate::could_follow::Grammar;
use crate::found::stands_at;

/// What to write for a piece of another language that stands at a byte of a text.
pub(crate) fn for_sign(text: &str, at: usize) -> Option<&'static str> {
    let bytes = text.as_bytes();
    let second = match bytes.get(at.saturating_add(1)) {
        Some(byte) => *byte,
        None => b' ',
    };
    match *bytes.get(at)? {
        b'&' => Some("write `and`: both sides are computed"),
        b'|' => Some("write `or`: both sides are computed"),
        b'!' => Some("write `not`, and `!=` between two values"),
        b'=' if second == b'>' => Some("a transition leads to its state by `->`"),
        b':' if second == b'=' => Some("a value is given by `=`"),
        b'+' if second == b'+' => Some("write `x = x + 1`"),
        b'-' if second == b'-' => Some("write `x = x - 1`"),
        b'+' if second == b'=' => Some("write `x = x + ..`"),
        b'-' if second == b'=' => Some("write `x = x - ..`"),
        b'*' if second == b'=' => Some("write `x = x * ..`"),
        b'/' if second == b'*' => Some("a comment begins with `//` and ends with its line"),
        b'#' => Some("a comment begins with `//` and ends with its line"),
        b'"' | b'\'' => Some("there are no texts: a variable is a truth value or a number"),
        b'?' => Some(
            "there is no choice within an expression: take two transitions, or an `if` in SCL",
        ),
        b'[' => Some("there are no arrays: give each value a name"),
        b'.' => Some(
            "numbers are whole, and a state is named alone: count in tenths or hundredths",
        ),
        0xEF if stands_at(text, at, "\u{feff}") => Some(
            "the file begins with a byte order mark: save it as UTF-8 without one",
        ),
        b'\\' => Some("a line ends where it likes: nothing joins two lines"),
        _ => None,
    }
}

// What is written for a word of another language, in a text of any grammar.
fn in_any(word: &str) -> Option<&'static str> {
    match word {
        "else" => Some(
            "a transition has no `else`: write another one behind it, without `if`; they are tested in their order",
        ),
        "var" => Some(
            "a variable is declared by `input`, `output` or `local`, and `bool` or `int`",
        ),
        "boolean" => Some("write `bool`"),
        "integer" => Some("write `int`"),
        "float" => Some("there are whole numbers alone: count in tenths or hundredths"),
        "when" => Some("a condition stands behind `if`"),
        "goto" => Some("a transition begins with `go`, and leads to its state by `->`"),
        "connector" => Some("take a state whose transitions are all `go immediate`"),
        "while" => Some("go back by `goto` to a label, with a `pause;` on the way"),
        _ => None,
    }
}

// The same for words of extended charts, in a chart.
fn in_chart(word: &str) -> Option<&'static str> {
    match word {
        "const" => Some(
            "a chart has no constants: write the number, or begin the text with `extended chart`",
        ),
        "pre" => Some(
            "a chart does not know what a variable was: begin the text with `extended chart`",
        ),
        "signal" => Some(
            "take an `output bool` or a `local bool`, and set it to false again; or begin the text with `extended chart`",
        ),
        "emit" => Some(
            "set a truth value, and to false again; or begin the text with `extended chart`, which has signals",
        ),
        "entry" => Some(
            "do it in each transition that leads to the state; or begin the text with `extended chart`",
        ),
        "exit" => Some(
            "do it in each transition that leaves the state; or begin the text with `extended chart`",
        ),
        "during" => Some(
            "write a transition of the state that leads back to it; or begin the text with `extended chart`",
        ),
        "after" => Some("count the ticks in a variable; or begin the text with `extended chart`"),
        "history" => Some(
            "note in a variable which state was active; or begin the text with `extended chart`",
        ),
        _ => None,
    }
}

// The same in an extended chart, where they have no place.
fn in_extended_chart(word: &str) -> Option<&'static str> {
    match word {
        "const" => Some("constants stand among the variables, before all regions"),
        "pre" => Some("what variables were is named among the variables, before all regions"),
        "signal" => Some("signals stand among the variables, before all regions; none is an input"),
        "emit" => Some("a signal is emitted among effects, behind `do`"),
        "entry" | "exit" | "during" => Some(
            "actions stand in a state, before its regions and transitions",
        ),
        "after" => Some("a wait stands behind `go`, `strong` or `weak`, without `immediate`"),
        "of" => Some("what is counted stands behind the ticks of a wait: `after 3 of A`"),
        "shallow" | "history" => Some("history stands before a target: `-> shallow history S`"),
        _ => None,
    }
}

// The same in SCL.
fn in_scl(word: &str) -> Option<&'static str> {
    match word {
        "const" => Some("there are no constants: write the number, or take a local variable"),
        "signal" => Some("take an `output bool` or a `local bool`, and set it to false again"),
        _ => None,
    }
}

/// What to write for a word of another language, in a text of this grammar.
pub(crate) fn for_word(grammar: Grammar, word: &str) -> Option<&'static str> {
    match in_any(word) {
        Some(written) => Some(written),
        None => match grammar {
            Grammar::Chart => in_chart(word),
            Grammar::ExtendedChart => in_extended_chart(word),
            Grammar::Scl => in_scl(word),
        },
    }
}
