//! Reading what transitions and actions do: assignments, and emissions of signals.

ghost use Rattle.std.specs.Prelude.{◌≡◌, IfOk, MatchResult};
ghost use Rattle.grammar.specs.Read.{read, starts};
ghost use Rattle.sc_text.specs.Expression.{text_tokens, expression};
ghost use Rattle.sc_text.specs.Reading.{Stops};
ghost use Rattle.chart_reader.specs.Phrase.{Gives};
ghost use Rattle.extended_reader.specs.Draft.{emitted, combined_by, combined, effect_with};
ghost use Rattle.extended_reader.specs.ExtendedText.{combining_signs, combiner, equals, combining};
ghost use Rattle.extended_reader.specs.ExtendedText.{effect_end, effect, some_effects, effects, outcome};

use crate::text_drafts::draft::{CompoundSign, DraftLead, EffectEnd};
use crate::text_drafts::targets::leading;
use chart_reader::DraftEffect;
use chart_reader::text_parts::{Ahead, Part, listed, listed_behind, name, placed, value};
use sc_text::ahead::{sign_follows, wrong};
use sc_text::{Named, ReadFault, Sign, TextExpression, TextOperation, Token, TokenKind, Word};
use sc_values::{BinaryOperator, Value};
use sqlite_items::Items;
use std::alloc::{AllocError, Global};

// Whether an operator that may stand before `=` is next.
fn combiner_follows(tokens: &[Token]) -> bool
    ensures { result ≡ starts text_tokens combining_signs tokens.now }
{
    sign_follows(tokens, Sign::Plus)
        || sign_follows(tokens, Sign::Minus)
        || sign_follows(tokens, Sign::Star)
}

fn combined_by(kind: TokenKind) -> BinaryOperator
    ensures { result ≡ combined_by kind }
{
    match kind {
        TokenKind::Sign(Sign::Minus) => BinaryOperator::Subtract,
        TokenKind::Sign(Sign::Star) => BinaryOperator::Multiply,
        _ => BinaryOperator::Add,
    }
}

// The operator before `=`, and its place.
#[tactic(auto, using(chart_reader::proofs::Parts::token_fails, chart_reader::proofs::Parts::token_gives))]
fn combiner(ahead: &mut Ahead, end: usize) -> Result<(BinaryOperator, usize), ReadFault>
    ensures { MatchResult result
        (λ x. Gives (read combiner ahead.old.tokens.now) x ahead.new.tokens.now)
        (λ fault. Stops end (read combiner ahead.old.tokens.now) fault) }
{
    if !combiner_follows(ahead.tokens) {
        return Err(wrong(ahead.tokens, end));
    }
    match ahead.tokens {
        [] => Err(wrong(ahead.tokens, end)),
        [next, rest @ ..] => {
            let found = (combined_by(next.kind), next.at);
            ahead.tokens = rest;
            Ok(found)
        }
    }
}

// The place of `=`.
#[tactic(auto, using(chart_reader::proofs::Parts::token_fails, chart_reader::proofs::Parts::token_gives))]
fn equals(ahead: &mut Ahead, end: usize) -> Result<usize, ReadFault>
    ensures { MatchResult result
        (λ x. Gives (read equals ahead.old.tokens.now) x ahead.new.tokens.now)
        (λ fault. Stops end (read equals ahead.old.tokens.now) fault) }
{
    if !sign_follows(ahead.tokens, Sign::Becomes) {
        return Err(wrong(ahead.tokens, end));
    }
    match ahead.tokens {
        [] => Err(wrong(ahead.tokens, end)),
        [next, rest @ ..] => {
            let found = next.at;
            ahead.tokens = rest;
            Ok(found)
        }
    }
}

// An operator, `=`, and the right operand.
#[tactic(auto, using(crate::proofs::EffectParts::combining_gives, chart_reader::proofs::Parts::made_stops, chart_reader::proofs::Parts::seq_stops_first, chart_reader::proofs::Parts::seq_stops_second), unfolding(crate::specs::ExtendedText::combining))]
fn combining(alloc: Global, ahead: &mut Ahead, end: usize) -> Result<CompoundSign, ReadFault>
    ensures { MatchResult result
        (λ x. Gives (read (combining (expression 0)) ahead.old.tokens.now) x ahead.new.tokens.now)
        (λ fault. Stops end (read (combining (expression 0)) ahead.old.tokens.now) fault) }
{
    let (operator, at) = combiner(ahead, end)?;
    let equals = equals(ahead, end)?;
    let operand = placed(alloc, ahead, end)?;
    Ok(CompoundSign {
        operator,
        at,
        equals,
        operand,
    })
}

// What stands behind the first name of an effect.
fn effect_end(alloc: Global, ahead: &mut Ahead, end: usize) -> Result<EffectEnd, ReadFault>
    ensures { MatchResult result
        (λ x. Gives (read (effect_end (expression 0)) ahead.old.tokens.now) x ahead.new.tokens.now)
        (λ fault. Stops end (read (effect_end (expression 0)) ahead.old.tokens.now) fault) }
{
    if sign_follows(ahead.tokens, Sign::Becomes) {
        let value = value(alloc, ahead, end)?;
        return Ok(EffectEnd::Value(value));
    }
    if combiner_follows(ahead.tokens) {
        let combination = combining(alloc, ahead, end)?;
        return Ok(EffectEnd::Combined(combination));
    }
    let signal = name(ahead, end)?;
    Ok(EffectEnd::Name(signal))
}

// What a name becomes behind a word. Err: memory was refused.
fn emitted(alloc: Global, word: Named, signal: Named) -> Result<TextExpression, AllocError>
    ensures { IfOk result (λ e. e ≡ emitted word signal) }
{
    let start = if word.name.as_str() == "emit" {
        signal.at
    } else {
        word.at
    };
    let mut operations = Items::new(alloc);
    operations.push(TextOperation::Load(signal.name, signal.at))?;
    operations.push(TextOperation::Literal(Value::Bool(true)))?;
    operations.push(TextOperation::Binary(BinaryOperator::Or))?;
    Ok(TextExpression { start, operations })
}

// What a name becomes that is combined with an operand. Err: memory was refused.
fn combined(alloc: Global, variable: Named, by: CompoundSign) -> Result<TextExpression, AllocError>
    ensures { IfOk result (λ e. e ≡ combined variable by) }
{
    let mut operations = Items::new(alloc);
    operations.push(TextOperation::Load(variable.name, by.at))?;
    operations.append(by.operand.operations)?;
    operations.push(TextOperation::Binary(by.operator))?;
    Ok(TextExpression {
        start: by.equals,
        operations,
    })
}

fn effect_with(alloc: Global, first: Named, behind: EffectEnd) -> Result<DraftEffect, AllocError>
    ensures { IfOk result (λ effect. effect ≡ effect_with first behind) }
{
    match behind {
        EffectEnd::Value(value) => Ok(DraftEffect {
            variable: first,
            value,
        }),
        EffectEnd::Combined(by) => Ok(DraftEffect {
            variable: first,
            value: combined(alloc, first, by)?,
        }),
        EffectEnd::Name(signal) => Ok(DraftEffect {
            variable: signal,
            value: emitted(alloc, first, signal)?,
        }),
    }
}

// What a transition or an action does.
struct ListedEffects;

impl Part for ListedEffects {
    type Read = DraftEffect;

    ghost phrase = { effect (expression 0) };

    #[tactic(auto, using(crate::proofs::EffectParts::effect_gives, chart_reader::proofs::Parts::made_stops, chart_reader::proofs::Parts::seq_stops_first, chart_reader::proofs::Parts::seq_stops_second), unfolding(crate::specs::ExtendedText::effect))]
    fn take(alloc: Global, ahead: &mut Ahead, end: usize) -> Result<DraftEffect, ReadFault> {
        let first = name(ahead, end)?;
        let behind = effect_end(alloc, ahead, end)?;
        let effect = effect_with(alloc, first, behind)?;
        Ok(effect)
    }
}

/// The effects behind the word `do`.
#[tactic(auto, unfolding(crate::specs::ExtendedText::some_effects, crate::specs::ExtendedText::next_effect))]
pub(crate) fn some_effects(
    alloc: Global,
    ahead: &mut Ahead,
    end: usize,
) -> Result<Items<DraftEffect>, ReadFault>
    ensures { MatchResult result
        (λ x. Gives (read (some_effects (expression 0)) ahead.old.tokens.now) x ahead.new.tokens.now)
        (λ fault. Stops end (read (some_effects (expression 0)) ahead.old.tokens.now) fault) }
{
    listed::<ListedEffects>(alloc, ahead, end)
}

#[tactic(auto, unfolding(crate::specs::ExtendedText::effects, crate::specs::ExtendedText::some_effects, crate::specs::ExtendedText::next_effect))]
fn effects(alloc: Global, ahead: &mut Ahead, end: usize) -> Result<Items<DraftEffect>, ReadFault>
    ensures { MatchResult result
        (λ x. Gives (read (effects (expression 0)) ahead.old.tokens.now) x ahead.new.tokens.now)
        (λ fault. Stops end (read (effects (expression 0)) ahead.old.tokens.now) fault) }
{
    listed_behind::<ListedEffects>(alloc, ahead, end, Word::Do)
}

/// What is done, and where a transition leads.
#[tactic(auto, using(chart_reader::proofs::Parts::seq_stops_first, chart_reader::proofs::Parts::seq_stops_second, chart_reader::proofs::Parts::seq_gives), unfolding(crate::specs::ExtendedText::outcome))]
pub(crate) fn outcome(
    alloc: Global,
    ahead: &mut Ahead,
    end: usize,
) -> Result<(Items<DraftEffect>, DraftLead), ReadFault>
    ensures { MatchResult result
        (λ x. Gives (read (outcome (expression 0)) ahead.old.tokens.now) x ahead.new.tokens.now)
        (λ fault. Stops end (read (outcome (expression 0)) ahead.old.tokens.now) fault) }
{
    let effects = effects(alloc, ahead, end)?;
    match leading(ahead, end) {
        Ok(lead) => Ok((effects, lead)),
        Err(fault) => {
            drop(effects);
            Err(fault)
        }
    }
}
