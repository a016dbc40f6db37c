//! Reading what a use is.

ghost use Rattle.std.specs.Prelude.{◌≡◌, MatchResult};
ghost use Rattle.grammar.specs.Grammar.{is_in};
ghost use Rattle.grammar.specs.Read.{read, starts};
ghost use Rattle.sc_text.specs.Classes.{class_of};
ghost use Rattle.sc_text.specs.Expression.{text_tokens};
ghost use Rattle.sc_text.specs.Reading.{Stops};
ghost use Rattle.chart_reader.specs.Phrase.{Gives};
ghost use Rattle.extended_reader.specs.Phrases.{argument_classes, argument, some_arguments, arguments};
ghost use Rattle.extended_reader.specs.Phrases.{last_arguments, all_arguments, using};

use crate::modules::parts::ModuleUse;
use chart_reader::text_parts::{Ahead, Part, last_name, listed, name, skip_sign};
use sc_text::ahead::wrong;
use sc_text::{Named, ReadFault, Sign, Token, TokenKind, Word};
use sqlite_items::Items;
use std::alloc::Global;

// Whether a token is a name or a literal.
fn is_argument(kind: TokenKind) -> bool
    ensures { result ≡ is_in text_tokens argument_classes (class_of kind) }
{
    match kind {
        TokenKind::Name(_) => true,
        TokenKind::Number(_) => true,
        TokenKind::Word(Word::True) => true,
        TokenKind::Word(Word::False) => true,
        TokenKind::Word(_) => false,
        TokenKind::Sign(_) => false,
    }
}

// Whether an argument is next.
fn argument_follows(tokens: &[Token]) -> bool
    ensures { result ≡ starts text_tokens argument_classes tokens.now }
{
    match tokens {
        [] => false,
        [next, ..] => is_argument(next.kind),
    }
}

// The arguments of a use.
struct ListedArguments;

impl Part for ListedArguments {
    type Read = Token;

    ghost phrase = { argument };

    fn take(alloc: Global, ahead: &mut Ahead, end: usize) -> Result<Token, ReadFault> {
        if !argument_follows(ahead.tokens) {
            return Err(wrong(ahead.tokens, end));
        }
        match ahead.tokens {
            [] => Err(wrong(ahead.tokens, end)),
            [next, rest @ ..] => {
                let found = *next;
                ahead.tokens = rest;
                Ok(found)
            }
        }
    }
}

#[tactic(auto, unfolding(crate::specs::Phrases::some_arguments, crate::specs::Phrases::next_argument))]
fn some_arguments(alloc: Global, ahead: &mut Ahead, end: usize) -> Result<Items<Token>, ReadFault>
    ensures { MatchResult result
        (λ x. Gives (read some_arguments ahead.old.tokens.now) x ahead.new.tokens.now)
        (λ fault. Stops end (read some_arguments ahead.old.tokens.now) fault) }
{
    listed::<ListedArguments>(alloc, ahead, end)
}

// The arguments, or none where none is next.
#[tactic(auto, using(crate::proofs::UseParts::arguments_missing))]
fn arguments(alloc: Global, ahead: &mut Ahead, end: usize) -> Result<Items<Token>, ReadFault>
    ensures { MatchResult result
        (λ x. Gives (read arguments ahead.old.tokens.now) x ahead.new.tokens.now)
        (λ fault. Stops end (read arguments ahead.old.tokens.now) fault) }
{
    if !argument_follows(ahead.tokens) {
        return Ok(Items::new(alloc));
    }
    some_arguments(alloc, ahead, end)
}

#[tactic(auto, using(chart_reader::proofs::Parts::before_stops_first, chart_reader::proofs::Parts::before_stops_second, chart_reader::proofs::Parts::before_gives), unfolding(crate::specs::Phrases::last_arguments))]
fn last_arguments(alloc: Global, ahead: &mut Ahead, end: usize) -> Result<Items<Token>, ReadFault>
    ensures { MatchResult result
        (λ x. Gives (read last_arguments ahead.old.tokens.now) x ahead.new.tokens.now)
        (λ fault. Stops end (read last_arguments ahead.old.tokens.now) fault) }
{
    let arguments = arguments(alloc, ahead, end)?;
    skip_sign(ahead, end, Sign::CloseParenthesis)?;
    Ok(arguments)
}

#[tactic(auto, using(chart_reader::proofs::Parts::after_stops_first), unfolding(crate::specs::Phrases::all_arguments))]
fn all_arguments(alloc: Global, ahead: &mut Ahead, end: usize) -> Result<Items<Token>, ReadFault>
    ensures { MatchResult result
        (λ x. Gives (read all_arguments ahead.old.tokens.now) x ahead.new.tokens.now)
        (λ fault. Stops end (read all_arguments ahead.old.tokens.now) fault) }
{
    skip_sign(ahead, end, Sign::OpenParenthesis)?;
    last_arguments(alloc, ahead, end)
}

/// A use behind its word, with the semicolon that ends it.
#[tactic(auto, using(crate::proofs::UseParts::using_gives, chart_reader::proofs::Parts::made_stops, chart_reader::proofs::Parts::seq_stops_first, chart_reader::proofs::Parts::seq_stops_second), unfolding(crate::specs::Phrases::using))]
pub(crate) fn using(alloc: Global, ahead: &mut Ahead, end: usize) -> Result<ModuleUse, ReadFault>
    ensures { MatchResult result
        (λ x. Gives (read using ahead.old.tokens.now) x ahead.new.tokens.now)
        (λ fault. Stops end (read using ahead.old.tokens.now) fault) }
{
    let called = name(ahead, end)?;
    let arguments = all_arguments(alloc, ahead, end)?;
    let word = name(ahead, end)?;
    let named = last_name(ahead, end)?;
    Ok(ModuleUse {
        called,
        arguments,
        word,
        named,
    })
}
