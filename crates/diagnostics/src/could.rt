//! What could stand at a place of a text. In an extended chart some words are names to the grammar: there it is said
//! which of them could.

use crate::could_follow::{Continuations, Grammar, continuations_of};
use sc_text::{Sign, TokenKind, Word};
use std::alloc::{AllocError, Global};

/// What could stand at a place of a text.
#[derive(Drop)]
pub(crate) struct Could {
    by_grammar: Continuations,
    narrowing: Narrowing,
}

// Which names could stand where the grammar has one, and which words could not although it has them.
#[derive(Clone, Copy)]
enum Narrowing {
    Any,
    // Behind `signal`.
    NameAlone,
    NoName,
    // Behind `entry` and `exit`.
    NoTrigger,
    Item,
    Signal,
    Action,
    During,
    Wait,
    // Behind the ticks of a wait.
    Count,
    Effect,
    Target,
    // Behind `shallow`, where a target stands.
    History,
}

impl Narrowing {
    // The words of extended charts alone that are names to the grammar, and could stand.
    fn own(self) -> &'static [&'static str] {
        match self {
            Narrowing::Item => &["const", "pre", "signal"],
            Narrowing::Signal => &["signal"],
            Narrowing::Action => &["entry", "exit", "during"],
            Narrowing::During => &["during"],
            Narrowing::Wait => &["after"],
            Narrowing::Count => &["of"],
            Narrowing::Effect => &["emit"],
            Narrowing::Target => &["shallow"],
            Narrowing::History => &["history"],
            _ => &[],
        }
    }

    // Whether a name of the maker's own could.
    fn is_free(self) -> bool {
        matches!(
            self,
            Narrowing::Any
                | Narrowing::NameAlone
                | Narrowing::NoTrigger
                | Narrowing::Effect
                | Narrowing::Target
        )
    }

    // Whether a word that the grammar has could not.
    fn bars(self, word: Word) -> bool {
        match self {
            Narrowing::NameAlone => matches!(word, Word::Bool | Word::Int),
            Narrowing::NoTrigger => word == Word::If,
            _ => false,
        }
    }
}

// What a name leaves behind it.
fn behind_name(name: &str, found: &Continuations) -> Narrowing {
    if takes(found, Sign::Semicolon) {
        return if name == "shallow" {
            Narrowing::History
        } else {
            Narrowing::NoName
        };
    }
    if has(found, Word::Bool) {
        return if name == "signal" {
            Narrowing::NameAlone
        } else {
            Narrowing::NoName
        };
    }
    // a value can follow, which the name becomes
    if takes(found, Sign::Becomes) {
        return if name == "emit" {
            Narrowing::Any
        } else {
            Narrowing::NoName
        };
    }
    if name == "entry" || name == "exit" {
        Narrowing::NoTrigger
    } else {
        Narrowing::Any
    }
}

// Whether this sign is among what can follow.
fn takes(found: &Continuations, sign: Sign) -> bool {
    found.signs.as_slice().contains(&sign)
}

// Whether this word is.
fn has(found: &Continuations, word: Word) -> bool {
    found.words.as_slice().contains(&word)
}

// What stands behind this token of an extended chart.
fn behind(before: &TokenKind, found: &Continuations) -> Narrowing {
    if found.number {
        return Narrowing::Any;
    }
    // an expression stands before, behind which a name can follow
    if found.name && takes(found, Sign::Plus) && takes(found, Sign::Slash) {
        return Narrowing::Count;
    }
    match before {
        TokenKind::Name(name) => behind_name(name.as_str(), found),
        TokenKind::Word(Word::Input) => Narrowing::NoName,
        TokenKind::Word(Word::Output | Word::Local) => Narrowing::Signal,
        TokenKind::Word(Word::Immediate) => Narrowing::During,
        TokenKind::Word(Word::Go | Word::Strong | Word::Weak) => Narrowing::Wait,
        TokenKind::Word(Word::Do) | TokenKind::Sign(Sign::Comma) => Narrowing::Effect,
        TokenKind::Sign(Sign::Arrow) => Narrowing::Target,
        _ if has(found, Word::Input) => Narrowing::Item,
        _ if has(found, Word::Go) => Narrowing::Action,
        _ => Narrowing::Any,
    }
}

impl Could {
    /// What could stand behind the front of a text of this grammar, whose last token is given. Err: memory was refused.
    pub(crate) fn of(
        alloc: Global,
        grammar: Grammar,
        front: &str,
        before: &TokenKind,
    ) -> Result<Could, AllocError> {
        let by_grammar = continuations_of(alloc, grammar, front)?;
        let narrowing = match grammar {
            Grammar::ExtendedChart => behind(before, &by_grammar),
            Grammar::Chart | Grammar::Scl => Narrowing::Any,
        };
        Ok(Could {
            by_grammar,
            narrowing,
        })
    }

    /// Whether a name of the maker's own could.
    pub(crate) fn has_name(&self) -> bool {
        self.by_grammar.name && self.narrowing.is_free()
    }

    pub(crate) fn has_number(&self) -> bool {
        self.by_grammar.number
    }

    /// The words of extended charts alone that could.
    pub(crate) fn own_words(&self) -> &'static [&'static str] {
        if self.by_grammar.name {
            self.narrowing.own()
        } else {
            &[]
        }
    }

    /// The reserved words that the grammar has there. Some may be barred.
    pub(crate) fn words(&self) -> &[Word] {
        self.by_grammar.words.as_slice()
    }

    pub(crate) fn signs(&self) -> &[Sign] {
        self.by_grammar.signs.as_slice()
    }

    /// Whether a word that the grammar has there could not stand all the same.
    pub(crate) fn is_barred(&self, word: Word) -> bool {
        self.narrowing.bars(word)
    }

    /// Whether this reserved word could.
    pub(crate) fn has_word(&self, word: Word) -> bool {
        has(&self.by_grammar, word) && !self.is_barred(word)
    }

    /// Whether this word of extended charts could.
    pub(crate) fn has_own_word(&self, word: &str) -> bool {
        for other in self.own_words() {
            if *other == word {
                return true;
            }
        }
        false
    }

    /// Whether this sign could.
    pub(crate) fn has_sign(&self, sign: Sign) -> bool {
        takes(&self.by_grammar, sign)
    }

    /// Whether a name could, and nothing else.
    pub(crate) fn is_name_alone(&self) -> bool {
        self.has_name() && self.words().is_empty() && self.signs().is_empty()
    }

    /// Whether an expression could begin there.
    pub(crate) fn begins_expression(&self) -> bool {
        self.has_name() && self.has_number() && self.has_sign(Sign::OpenParenthesis)
    }

    /// Whether an expression could go on there.
    pub(crate) fn goes_on_expression(&self) -> bool {
        self.has_sign(Sign::Plus) && self.has_sign(Sign::Slash)
    }

    /// Whether an operator could stand there that combines a variable with a value.
    pub(crate) fn combines(&self) -> bool {
        self.has_sign(Sign::Becomes) && self.has_sign(Sign::Plus) && !self.has_sign(Sign::Slash)
    }
}
