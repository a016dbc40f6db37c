//! The words that extended charts alone have, where they stand wrong.

use crate::could::Could;
use crate::found::stands_at;
use crate::fronts::front_of;
use crate::near_names::difference;
use crate::told::Told;
use node_sources::name_in;
use sc_text::{Sign, TokenKind};

const CONSTANT: Told = Told {
    cause: "no kind stands behind this `const`",
    cure: "write `const int N = 3;`",
};

const BEFORE: Told = Told {
    cause: "no kind stands behind this `pre`",
    cure: "write `pre int was = x;`",
};

const SIGNAL: Told = Told {
    cause: "a kind stands behind this `signal`",
    cure: "write `signal s;`: a signal is a truth value",
};

const ENTRY: Told = Told {
    cause: "this action has a trigger",
    cure: "`entry` and `exit` actions are always made: choose by transitions",
};

const IMMEDIATE: Told = Told {
    cause: "this action stands behind `immediate`",
    cure: "only `during` has `immediate`: `entry` and `exit` actions are made as the state is entered and left",
};

const NO_KIND: Told = Told {
    cause: "`bool`, `int` or `signal` is missing before the name",
    cure: "write `output bool x;`, or `output signal s;`",
};

const TARGETS: Told = Told {
    cause: "more than one name stands behind this arrow, and no `shallow history` before the last",
    cure: "write `-> S;`, or `-> shallow history S;`",
};

const APART: Told = Told {
    cause: "this `=` stands apart from the operator before it",
    cure: "write `+=`, `-=` or `*=`",
};

/// What is wrong at this byte of a text behind this token, where it is the use of a word of extended charts, or of an
/// operator before `=`.
pub(crate) fn misuse_at(text: &str, at: usize, before: &TokenKind, could: &Could) -> Option<Told> {
    if stands_at(text, at, "=") && !stands_at(text, at, "==") && could.has_sign(Sign::Becomes) {
        return Some(APART);
    }
    if is_other_name(before) && could.is_name_alone() {
        return Some(if is_behind_arrow(text, at) {
            TARGETS
        } else {
            NO_KIND
        });
    }
    let name = name_in(text, at);
    if could.has_own_word(name) {
        return misused_word(name);
    }
    if could.has_own_word("during") && (name == "entry" || name == "exit") {
        return Some(IMMEDIATE);
    }
    None
}

// Whether names alone stand between an arrow and this byte of a text.
fn is_behind_arrow(text: &str, at: usize) -> bool {
    let mut is_behind = false;
    for byte in front_of(text, at).as_bytes() {
        is_behind = match *byte {
            b'>' => true,
            b'_' | b' ' | b'\t' | b'\r' | b'\n' => is_behind,
            byte => is_behind && byte.is_ascii_alphanumeric(),
        };
    }
    is_behind
}

// Whether this is a name, and none that another one follows.
fn is_other_name(token: &TokenKind) -> bool {
    match token {
        TokenKind::Name(name) => name.as_str() != "signal" && name.as_str() != "emit",
        _ => false,
    }
}

// What is wrong where this word stands, although it could.
fn misused_word(word: &str) -> Option<Told> {
    match word {
        "const" => Some(CONSTANT),
        "pre" => Some(BEFORE),
        "signal" => Some(SIGNAL),
        "entry" | "exit" => Some(ENTRY),
        _ => None,
    }
}

/// The word of extended charts that could stand there and is spelled nearly so.
pub(crate) fn near_own_word(could: &Could, name: &str) -> Option<&'static str> {
    for word in could.own_words() {
        if difference(word.as_bytes(), name.as_bytes()) <= 2 {
            return Some(*word);
        }
    }
    None
}
