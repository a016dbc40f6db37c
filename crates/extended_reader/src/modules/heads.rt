//! Reading how a module begins.

ghost use Rattle.std.specs.Prelude.{◌≡◌, MatchResult};
ghost use Rattle.grammar.specs.Read.{read, starts};
ghost use Rattle.sc_text.specs.Expression.{text_tokens};
ghost use Rattle.sc_text.specs.Reading.{Stops};
ghost use Rattle.chart_reader.specs.Phrase.{Gives};
ghost use Rattle.extended_reader.specs.Phrases.{parameter_first, role_of, opening, parameter};
ghost use Rattle.extended_reader.specs.Phrases.{some_parameters, parameters, last_parameters, all_parameters};
ghost use Rattle.extended_reader.specs.Phrases.{head, opened};

use crate::modules::parts::{ModuleHead, Parameter, ParameterRole};
use crate::modules::words::is_word;
use chart_reader::text_parts::{Ahead, Part, declared_kind, listed, name, skip_sign};
use sc_text::ahead::{word_follows, wrong};
use sc_text::{ReadFault, Sign, Token, TokenKind, Word, name_follows};
use sqlite_items::Items;
use std::alloc::Global;

// Whether a parameter is next.
fn parameter_follows(tokens: &[Token]) -> bool
    ensures { result ≡ starts text_tokens parameter_first tokens.now }
{
    word_follows(tokens, Word::Input) || word_follows(tokens, Word::Output) || name_follows(tokens)
}

fn role_of(kind: TokenKind) -> ParameterRole
    ensures { result ≡ role_of kind }
{
    match kind {
        TokenKind::Word(Word::Input) => ParameterRole::Input,
        TokenKind::Word(Word::Output) => ParameterRole::Output,
        _ if is_word("const", kind) => ParameterRole::Constant,
        _ => ParameterRole::Other,
    }
}

// What a parameter is declared as, and the place of that.
#[tactic(auto, using(chart_reader::proofs::Parts::token_fails, chart_reader::proofs::Parts::token_gives))]
fn opening(ahead: &mut Ahead, end: usize) -> Result<(ParameterRole, usize), ReadFault>
    ensures { MatchResult result
        (λ x. Gives (read opening ahead.old.tokens.now) x ahead.new.tokens.now)
        (λ fault. Stops end (read opening ahead.old.tokens.now) fault) }
{
    if !parameter_follows(ahead.tokens) {
        return Err(wrong(ahead.tokens, end));
    }
    match ahead.tokens {
        [] => Err(wrong(ahead.tokens, end)),
        [next, rest @ ..] => {
            let found = (role_of(next.kind), next.at);
            ahead.tokens = rest;
            Ok(found)
        }
    }
}

// The parameters of a module.
struct ListedParameters;

impl Part for ListedParameters {
    type Read = Parameter;

    ghost phrase = { parameter };

    #[tactic(auto, using(crate::proofs::HeadParts::parameter_gives, chart_reader::proofs::Parts::made_stops, chart_reader::proofs::Parts::seq_stops_first, chart_reader::proofs::Parts::seq_stops_second), unfolding(crate::specs::Phrases::parameter))]
    fn take(alloc: Global, ahead: &mut Ahead, end: usize) -> Result<Parameter, ReadFault> {
        let (role, at) = opening(ahead, end)?;
        let kind = declared_kind(ahead, end)?;
        let named = name(ahead, end)?;
        Ok(Parameter {
            role,
            at,
            kind,
            named,
        })
    }
}

#[tactic(auto, unfolding(crate::specs::Phrases::some_parameters, crate::specs::Phrases::next_parameter))]
fn some_parameters(
    alloc: Global,
    ahead: &mut Ahead,
    end: usize,
) -> Result<Items<Parameter>, ReadFault>
    ensures { MatchResult result
        (λ x. Gives (read some_parameters ahead.old.tokens.now) x ahead.new.tokens.now)
        (λ fault. Stops end (read some_parameters ahead.old.tokens.now) fault) }
{
    listed::<ListedParameters>(alloc, ahead, end)
}

// The parameters, or none where none is next.
#[tactic(auto, using(crate::proofs::HeadParts::parameters_missing))]
fn parameters(alloc: Global, ahead: &mut Ahead, end: usize) -> Result<Items<Parameter>, ReadFault>
    ensures { MatchResult result
        (λ x. Gives (read parameters ahead.old.tokens.now) x ahead.new.tokens.now)
        (λ fault. Stops end (read parameters ahead.old.tokens.now) fault) }
{
    if !parameter_follows(ahead.tokens) {
        return Ok(Items::new(alloc));
    }
    some_parameters(alloc, ahead, end)
}

#[tactic(auto, using(chart_reader::proofs::Parts::before_stops_first, chart_reader::proofs::Parts::before_stops_second, chart_reader::proofs::Parts::before_gives), unfolding(crate::specs::Phrases::last_parameters))]
fn last_parameters(
    alloc: Global,
    ahead: &mut Ahead,
    end: usize,
) -> Result<Items<Parameter>, ReadFault>
    ensures { MatchResult result
        (λ x. Gives (read last_parameters ahead.old.tokens.now) x ahead.new.tokens.now)
        (λ fault. Stops end (read last_parameters ahead.old.tokens.now) fault) }
{
    let parameters = parameters(alloc, ahead, end)?;
    skip_sign(ahead, end, Sign::CloseParenthesis)?;
    Ok(parameters)
}

#[tactic(auto, using(chart_reader::proofs::Parts::after_stops_first), unfolding(crate::specs::Phrases::all_parameters))]
fn all_parameters(
    alloc: Global,
    ahead: &mut Ahead,
    end: usize,
) -> Result<Items<Parameter>, ReadFault>
    ensures { MatchResult result
        (λ x. Gives (read all_parameters ahead.old.tokens.now) x ahead.new.tokens.now)
        (λ fault. Stops end (read all_parameters ahead.old.tokens.now) fault) }
{
    skip_sign(ahead, end, Sign::OpenParenthesis)?;
    last_parameters(alloc, ahead, end)
}

#[tactic(auto, using(crate::proofs::HeadParts::head_gives, chart_reader::proofs::Parts::made_stops, chart_reader::proofs::Parts::seq_stops_first, chart_reader::proofs::Parts::seq_stops_second), unfolding(crate::specs::Phrases::head))]
fn head(alloc: Global, ahead: &mut Ahead, end: usize) -> Result<ModuleHead, ReadFault>
    ensures { MatchResult result
        (λ x. Gives (read head ahead.old.tokens.now) x ahead.new.tokens.now)
        (λ fault. Stops end (read head ahead.old.tokens.now) fault) }
{
    let named = name(ahead, end)?;
    let parameters = all_parameters(alloc, ahead, end)?;
    Ok(ModuleHead { named, parameters })
}

/// The head of a module behind its word, with the brace that opens its body.
#[tactic(auto, using(chart_reader::proofs::Parts::before_stops_first, chart_reader::proofs::Parts::before_stops_second, chart_reader::proofs::Parts::before_gives), unfolding(crate::specs::Phrases::opened))]
pub(crate) fn opened(alloc: Global, ahead: &mut Ahead, end: usize) -> Result<ModuleHead, ReadFault>
    ensures { MatchResult result
        (λ x. Gives (read opened ahead.old.tokens.now) x ahead.new.tokens.now)
        (λ fault. Stops end (read opened ahead.old.tokens.now) fault) }
{
    let head = head(alloc, ahead, end)?;
    skip_sign(ahead, end, Sign::OpenBrace)?;
    Ok(head)
}
