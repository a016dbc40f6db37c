//! The names and words of charts, one token each.

ghost use Rattle.std.specs.Prelude.{◌≡◌, IsFalse, MatchOption, MatchResult};
ghost use Rattle.grammar.specs.Read.{read, starts};
ghost use Rattle.sc_text.specs.Classes.{AName, class_of, same_class};
ghost use Rattle.sc_text.specs.Expression.{text_tokens, after};
ghost use Rattle.sc_text.specs.Reading.{Stops};
ghost use Rattle.chart_reader.specs.Draft.{tested_by};
ghost use Rattle.chart_reader.specs.ChartText.{the_word, tested_words, name, last_name, declared_role};
ghost use Rattle.chart_reader.specs.ChartText.{declared_kind, moment, flag};
ghost use Rattle.chart_reader.specs.PartsRead.{IsNameOf};
ghost use Rattle.chart_reader.specs.Phrase.{Gives};

use crate::text_drafts::ahead::{Ahead, skip_sign, skip_word};
use core_charts::TransitionKind;
use sc_graph::Role;
use sc_text::ahead::{behind, word_follows, wrong};
use sc_text::{
    Named, ReadFault, Sign, Token, TokenKind, Word, kind_follows, kind_of, role_follows, role_of,
};
use sc_values::{Kind, Name};

/// A name with its place.
pub fn name(ahead: &mut Ahead, end: usize) -> Result<Named, ReadFault>
    ensures { MatchResult result
        (λ x. Gives (read name ahead.old.tokens.now) x ahead.new.tokens.now)
        (λ fault. Stops end (read name ahead.old.tokens.now) fault) }
{
    match ahead.tokens {
        [] => Err(wrong(ahead.tokens, end)),
        [next, rest @ ..] => match name_of(next.kind) {
            Some(name) => {
                let at = next.at;
                ahead.tokens = rest;
                Ok(Named { name, at })
            }
            None => Err(wrong(ahead.tokens, end)),
        },
    }
}

fn name_of(kind: TokenKind) -> Option<Name>
    ensures { MatchOption result (IsFalse (same_class AName (class_of kind))) (IsNameOf kind) }
{
    match kind {
        TokenKind::Name(name) => Some(name),
        TokenKind::Number(_) | TokenKind::Word(_) | TokenKind::Sign(_) => None,
    }
}

/// A name and the semicolon behind it.
#[tactic(auto, using(crate::proofs::Parts::before_stops_first, crate::proofs::Parts::before_stops_second, crate::proofs::Parts::before_gives), unfolding(crate::specs::ChartText::last_name))]
pub fn last_name(ahead: &mut Ahead, end: usize) -> Result<Named, ReadFault>
    ensures { MatchResult result
        (λ x. Gives (read last_name ahead.old.tokens.now) x ahead.new.tokens.now)
        (λ fault. Stops end (read last_name ahead.old.tokens.now) fault) }
{
    let named = name(ahead, end)?;
    skip_sign(ahead, end, Sign::Semicolon)?;
    Ok(named)
}

/// A word and the name behind it.
#[tactic(auto, using(crate::proofs::Parts::after_stops_first))]
pub fn title(ahead: &mut Ahead, end: usize, word: Word) -> Result<Named, ReadFault>
    ensures { MatchResult result
        (λ x. Gives (read (after (the_word word) name) ahead.old.tokens.now) x ahead.new.tokens.now)
        (λ fault. Stops end (read (after (the_word word) name) ahead.old.tokens.now) fault) }
{
    skip_word(ahead, end, word)?;
    name(ahead, end)
}

/// What a variable is declared as.
#[tactic(auto, using(crate::proofs::Parts::token_fails, crate::proofs::Parts::token_gives))]
pub fn declared_role(ahead: &mut Ahead, end: usize) -> Result<Role, ReadFault>
    ensures { MatchResult result
        (λ x. Gives (read declared_role ahead.old.tokens.now) x ahead.new.tokens.now)
        (λ fault. Stops end (read declared_role ahead.old.tokens.now) fault) }
{
    if !role_follows(ahead.tokens) {
        return Err(wrong(ahead.tokens, end));
    }
    match ahead.tokens {
        [] => Err(wrong(ahead.tokens, end)),
        [next, rest @ ..] => {
            let found = role_of(next.kind);
            ahead.tokens = rest;
            Ok(found)
        }
    }
}

/// The kind of which a variable is declared.
#[tactic(auto, using(crate::proofs::Parts::token_fails, crate::proofs::Parts::token_gives))]
pub fn declared_kind(ahead: &mut Ahead, end: usize) -> Result<Kind, ReadFault>
    ensures { MatchResult result
        (λ x. Gives (read declared_kind ahead.old.tokens.now) x ahead.new.tokens.now)
        (λ fault. Stops end (read declared_kind ahead.old.tokens.now) fault) }
{
    if !kind_follows(ahead.tokens) {
        return Err(wrong(ahead.tokens, end));
    }
    match ahead.tokens {
        [] => Err(wrong(ahead.tokens, end)),
        [next, rest @ ..] => {
            let found = kind_of(next.kind);
            ahead.tokens = rest;
            Ok(found)
        }
    }
}

/// The word of a termination, and its place.
#[tactic(auto, using(crate::proofs::Parts::token_fails, crate::proofs::Parts::token_gives))]
pub fn join_word(ahead: &mut Ahead, end: usize) -> Result<(TransitionKind, usize), ReadFault>
    ensures { MatchResult result
        (λ x. Gives (read (moment (the_word Word.Join)) ahead.old.tokens.now) x ahead.new.tokens.now)
        (λ fault. Stops end (read (moment (the_word Word.Join)) ahead.old.tokens.now) fault) }
{
    if !word_follows(ahead.tokens, Word::Join) {
        return Err(wrong(ahead.tokens, end));
    }
    match ahead.tokens {
        [] => Err(wrong(ahead.tokens, end)),
        [next, rest @ ..] => {
            let found = (tested_by(next.kind), next.at);
            ahead.tokens = rest;
            Ok(found)
        }
    }
}

/// The word of another transition, and its place.
#[tactic(auto, using(crate::proofs::Parts::token_fails, crate::proofs::Parts::token_gives))]
pub fn tested_word(ahead: &mut Ahead, end: usize) -> Result<(TransitionKind, usize), ReadFault>
    ensures { MatchResult result
        (λ x. Gives (read (moment tested_words) ahead.old.tokens.now) x ahead.new.tokens.now)
        (λ fault. Stops end (read (moment tested_words) ahead.old.tokens.now) fault) }
{
    if !tested_word_follows(ahead.tokens) {
        return Err(wrong(ahead.tokens, end));
    }
    match ahead.tokens {
        [] => Err(wrong(ahead.tokens, end)),
        [next, rest @ ..] => {
            let found = (tested_by(next.kind), next.at);
            ahead.tokens = rest;
            Ok(found)
        }
    }
}

/// Whether the word of a transition other than a termination is next.
pub fn tested_word_follows(tokens: &[Token]) -> bool
    ensures { result ≡ starts text_tokens tested_words tokens.now }
{
    word_follows(tokens, Word::Go)
        || word_follows(tokens, Word::Strong)
        || word_follows(tokens, Word::Weak)
}

fn tested_by(kind: TokenKind) -> TransitionKind
    ensures { result ≡ tested_by kind }
{
    match kind {
        TokenKind::Word(Word::Strong) => TransitionKind::Strong,
        TokenKind::Word(Word::Weak) => TransitionKind::Weak,
        TokenKind::Word(Word::Join) => TransitionKind::Join,
        _ => TransitionKind::Go,
    }
}

/// Whether this word is next. It is taken off the front.
#[tactic(auto, using(crate::proofs::Pieces::flag_there, crate::proofs::Pieces::flag_missing))]
pub fn flag(ahead: &mut Ahead, word: Word) -> bool
    ensures { Gives (read (flag word) ahead.old.tokens.now) result ahead.new.tokens.now }
{
    if !word_follows(ahead.tokens, word) {
        return false;
    }
    ahead.tokens = behind(ahead.tokens);
    true
}
