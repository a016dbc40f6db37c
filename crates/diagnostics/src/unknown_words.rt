//! A name that is not declared, in words.

use crate::could_follow::Grammar;
use crate::fronts::{front_of, last_token};
use crate::near_names::nearest;
use crate::told::Told;
use crate::words::Words;
use node_sources::name_in;
use sc_text::{Sign, TokenKind, Word};
use std::alloc::Global;

const VARIABLE: Told = Told {
    cause: "no variable is named `@`",
    cure: "declare it by `input`, `output` or `local`",
};

// Behind `emit`.
const SIGNAL: Told = Told {
    cause: "no signal is named `@`",
    cure: "declare it by `signal`",
};

const STATE: Told = Told {
    cause: "no state of its region is named `@`",
    cure: "a transition leads to a state beside its own: leave the superstate by one of its aborts or its `join`",
};

const LABEL: Told = Told {
    cause: "no label of its thread is named `@`",
    cure: "a goto stays in its thread: put the label into the same branch",
};

// The words for a name that is looked up behind this token, and is not there.
fn told_behind(before: &TokenKind) -> Told {
    match before {
        TokenKind::Sign(Sign::Arrow) => STATE,
        TokenKind::Word(Word::Goto) => LABEL,
        TokenKind::Name(word) if word.as_str() == "emit" => SIGNAL,
        TokenKind::Name(word) if word.as_str() == "history" => STATE,
        _ => VARIABLE,
    }
}

/// Says of the name at a byte of a text that it is not declared, and which name is meant, where one is near.
pub(crate) fn put_unknown(alloc: Global, words: &mut Words, text: &str, at: usize) {
    let language = Grammar::of(text).tokens();
    let name = name_in(text, at);
    let told = match last_token(alloc, language, front_of(text, at)) {
        Some(before) => told_behind(&before),
        None => VARIABLE,
    };
    if let Some(near) = nearest(alloc, language, text, name) {
        words
            .cure
            .put_filled("did you mean `@`? Else ", near.as_str());
    }
    words.tell(told, name);
}
