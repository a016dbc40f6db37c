//! The rules that extended charts alone have, where one is broken, in words.

use crate::told::Told;
use sc_text::{Language, ReadFault, Sign, Token, TokenKind, Word, tokens};
use std::alloc::{AllocError, Global};

// What a name is declared as among the variables of an extended chart.
#[derive(Clone, Copy)]
enum Declared {
    Input,
    Constant,
    Before,
    Signal,
}

// Whether a token is this name.
fn is_name(token: &TokenKind, name: &str) -> bool {
    match token {
        TokenKind::Name(found) => found.as_str() == name,
        _ => false,
    }
}

fn is_region(token: &TokenKind) -> bool {
    matches!(token, TokenKind::Word(Word::Region))
}

// What a name is declared as behind these two tokens. None: as a variable, or it is not declared there.
fn declared_behind(first: &TokenKind, second: &TokenKind) -> Option<Declared> {
    match second {
        TokenKind::Name(word) if word.as_str() == "signal" => Some(Declared::Signal),
        TokenKind::Word(Word::Bool | Word::Int) => match first {
            TokenKind::Name(word) if word.as_str() == "const" => Some(Declared::Constant),
            TokenKind::Name(word) if word.as_str() == "pre" => Some(Declared::Before),
            TokenKind::Word(Word::Input) => Some(Declared::Input),
            _ => None,
        },
        _ => None,
    }
}

// What a name behind these tokens is declared as.
fn declared_last(before: &[Token]) -> Option<Declared> {
    match before {
        [.., first, second] => declared_behind(&first.kind, &second.kind),
        _ => None,
    }
}

// What a name is declared as before all regions.
fn declared_as(tokens: &[Token], name: &str) -> Option<Declared> {
    for (place, token) in tokens.iter().enumerate() {
        if is_region(&token.kind) {
            return None;
        }
        if is_name(&token.kind, name) {
            if let Some(declared) = declared_last(tokens.get(..place)?) {
                return Some(declared);
            }
        }
    }
    None
}

// The same of a text. Err: memory was refused.
fn declared_in(alloc: Global, text: &str, name: &str) -> Result<Option<Declared>, AllocError> {
    match tokens(alloc, Language::Chart, text) {
        Ok(tokens) => Ok(declared_as(tokens.as_slice(), name)),
        Err(ReadFault::Text(_, _)) => Ok(None),
        Err(ReadFault::Memory) => Err(AllocError),
    }
}

const NO_VALUE: Told = Told {
    cause: "the constant `@` has no value",
    cure: "write `= 3` behind it, or `= true`",
};

const NO_VARIABLE: Told = Told {
    cause: "it is not said of which variable `@` is what it was",
    cure: "write `= x` behind it",
};

const INPUT_VALUE: Told = Told {
    cause: "the input `@` has a value",
    cure: "an input is what the line of a tick says: take the value away",
};

// What is wrong with a declaration that has a value, or lacks it.
fn told_of_declared(declared: Option<Declared>) -> Told {
    match declared {
        Some(Declared::Constant) => NO_VALUE,
        Some(Declared::Before) => NO_VARIABLE,
        _ => INPUT_VALUE,
    }
}

const CONSTANT_ASSIGNED: Told = Told {
    cause: "the constant `@` is assigned",
    cure: "assign an output or a local variable",
};

const BEFORE_ASSIGNED: Told = Told {
    cause: "`@` is what a variable was, and is assigned",
    cure: "assign an output or a local variable",
};

const SIGNAL_ASSIGNED: Told = Told {
    cause: "the signal `@` is assigned",
    cure: "a signal is emitted, by `emit` and its name, and is false in each tick until then",
};

/// An input that is given a value by an effect.
pub(crate) const INPUT_ASSIGNED: Told = Told {
    cause: "the input `@` is assigned",
    cure: "assign an output or a local variable",
};

// What is wrong with a name that is given a value by an effect.
fn told_of_assigned(declared: Option<Declared>) -> Told {
    match declared {
        Some(Declared::Constant) => CONSTANT_ASSIGNED,
        Some(Declared::Before) => BEFORE_ASSIGNED,
        Some(Declared::Signal) => SIGNAL_ASSIGNED,
        _ => INPUT_ASSIGNED,
    }
}

const EMITTED: Told = Told {
    cause: "`@` is no signal, and is emitted",
    cure: "declare it by `signal`, or assign it",
};

// A state without regions that is entered by its history.
const HISTORY: Told = Told {
    cause: "state `@` has no regions, and is entered by its history",
    cure: "a history is that of the regions of a superstate: take `shallow history` away",
};

// A during action of a final state.
const DURING: Told = Told {
    cause: "this state is final: it has no `during`",
    cure: "a final state ends its region: put the action into a state before it",
};

/// What is wrong with a name at which a rule is broken in an extended chart, behind this token, where it is no region
/// and no state. Err: memory was refused.
pub(crate) fn told_of_extended(
    alloc: Global,
    text: &str,
    name: &str,
    before: Option<TokenKind>,
) -> Result<Told, AllocError> {
    match &before {
        Some(TokenKind::Word(Word::Bool | Word::Int)) => {
            Ok(told_of_declared(declared_in(alloc, text, name)?))
        }
        Some(TokenKind::Word(Word::Do) | TokenKind::Sign(Sign::Comma)) => {
            Ok(told_of_assigned(declared_in(alloc, text, name)?))
        }
        Some(kind) if is_name(kind, "history") => Ok(HISTORY),
        Some(TokenKind::Name(_)) => Ok(EMITTED),
        _ => Ok(DURING),
    }
}

// Whether no region begins before.
fn are_items(before: &[Token]) -> bool {
    for token in before {
        if is_region(&token.kind) {
            return false;
        }
    }
    true
}

const NO_ONE_VARIABLE: Told = Told {
    cause: "this is not the name of one variable of the kind that is declared",
    cure: "write `pre int was = x;`: it names one variable, and no expression, constant or other `pre`",
};

const NO_LITERAL: Told = Told {
    cause: "this is no literal of the kind that is declared",
    cure: "write a number for an `int`, and `true` or `false` for a `bool`: constants and expressions have no place here",
};

// What is wrong with a value behind `=` before all regions.
fn told_of_value(before: &[Token]) -> Told {
    match before {
        [.., first, _, _, _] if is_name(&first.kind, "pre") => NO_ONE_VARIABLE,
        _ => NO_LITERAL,
    }
}

const NUMBER_EMITTED: Told = Told {
    cause: "`@` is a number, and is emitted",
    cure: "declare it by `signal`, or assign it",
};

const NO_NUMBER: Told = Told {
    cause: "this wait is no number, or an operator in it has an operand of the wrong kind",
    cure: "a wait is a number of ticks: `after 3`, or a constant",
};

// What is wrong with an expression of another kind behind these tokens. None: it is no other than in charts.
fn told_of_kind(before: &[Token]) -> Option<Told> {
    let last = before.last()?;
    if is_name(&last.kind, "emit") {
        Some(NUMBER_EMITTED)
    } else if is_name(&last.kind, "after") {
        Some(NO_NUMBER)
    } else if matches!(last.kind, TokenKind::Sign(Sign::Becomes)) && are_items(before) {
        Some(told_of_value(before))
    } else {
        None
    }
}

/// What is wrong with an expression of another kind behind the front of an extended chart. None: it is no other than
/// in charts. Err: memory was refused.
pub(crate) fn told_of_extended_kind(
    alloc: Global,
    front: &str,
) -> Result<Option<Told>, AllocError> {
    match tokens(alloc, Language::Chart, front) {
        Ok(tokens) => Ok(told_of_kind(tokens.as_slice())),
        Err(ReadFault::Text(_, _)) => Ok(None),
        Err(ReadFault::Memory) => Err(AllocError),
    }
}

/// Whether two underscores stand side by side in a name: only reductions make such names.
pub(crate) fn has_double_underscore(name: &str) -> bool {
    let mut is_behind_one = false;
    for byte in name.as_bytes() {
        if *byte == b'_' && is_behind_one {
            return true;
        }
        is_behind_one = *byte == b'_';
    }
    false
}
