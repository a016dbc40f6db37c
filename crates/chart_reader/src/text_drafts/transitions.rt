//! Reading declarations and transitions.

ghost use Rattle.std.specs.Prelude.{◌≡◌, MatchResult};
ghost use Rattle.grammar.specs.Read.{read, starts};
ghost use Rattle.sc_text.specs.Expression.{text_tokens, after, expression};
ghost use Rattle.sc_text.specs.Reading.{Stops};
ghost use Rattle.chart_reader.specs.ChartText.{the_sign, declaration, placed, effect};
ghost use Rattle.chart_reader.specs.ChartText.{effects, target, trigger, outcome};
ghost use Rattle.chart_reader.specs.ChartText.{termination, tested, transition_first};
ghost use Rattle.chart_reader.specs.ChartText.{transition, leaving};
ghost use Rattle.chart_reader.specs.PartsRead.{Fills};
ghost use Rattle.chart_reader.specs.Phrase.{Gives};

use crate::text_drafts::ahead::{Ahead, skip_sign};
use crate::text_drafts::draft::{DraftEffect, DraftTransition};
use crate::text_drafts::rows::{Part, RowPart, listed_behind, put_row};
use crate::text_drafts::words::{
    declared_kind, declared_role, flag, join_word, last_name, name, tested_word,
    tested_word_follows,
};
use sc_text::ahead::{behind, place, word_follows};
use sc_text::{
    Declaration, Named, ReadFault, Sign, TextExpression, Token, Word, expression, role_follows,
};
use sqlite_items::Items;
use std::alloc::Global;

/// The declarations of a chart.
pub(crate) struct Declarations;

impl Part for Declarations {
    type Read = Declaration;

    ghost phrase = { declaration };

    #[tactic(auto, using(crate::proofs::Pieces::declaration_gives, crate::proofs::Parts::made_stops, crate::proofs::Parts::seq_stops_first, crate::proofs::Parts::seq_stops_second), unfolding(crate::specs::ChartText::declaration))]
    fn take(alloc: Global, ahead: &mut Ahead, end: usize) -> Result<Declaration, ReadFault> {
        let role = declared_role(ahead, end)?;
        let kind = declared_kind(ahead, end)?;
        let named = last_name(ahead, end)?;
        Ok(Declaration { role, kind, named })
    }
}

impl RowPart for Declarations {
    #[tactic(auto, unfolding(crate::specs::ChartText::declaration))]
    fn follows(tokens: &[Token]) -> bool {
        role_follows(tokens)
    }
}

/// An expression with its place.
pub fn placed(alloc: Global, ahead: &mut Ahead, end: usize) -> Result<TextExpression, ReadFault>
    ensures { MatchResult result
        (λ x. Gives (read (placed (expression 0)) ahead.old.tokens.now) x ahead.new.tokens.now)
        (λ fault. Stops end (read (placed (expression 0)) ahead.old.tokens.now) fault) }
{
    let start = place(ahead.tokens, end);
    let (operations, rest) = expression(alloc, ahead.tokens, end)?;
    ahead.tokens = rest;
    Ok(TextExpression { start, operations })
}

/// What a variable becomes.
#[tactic(auto, using(crate::proofs::Parts::after_stops_first))]
pub fn value(alloc: Global, ahead: &mut Ahead, end: usize) -> Result<TextExpression, ReadFault>
    ensures { MatchResult result
        (λ x. Gives (read (after (the_sign Sign.Becomes) (placed
        (expression 0))) ahead.old.tokens.now) x ahead.new.tokens.now)
        (λ fault. Stops end (read (after (the_sign Sign.Becomes) (placed (expression 0))) ahead.old.tokens.now) fault) }
{
    skip_sign(ahead, end, Sign::Becomes)?;
    placed(alloc, ahead, end)
}

// What a transition does.
struct ListedEffects;

impl Part for ListedEffects {
    type Read = DraftEffect;

    ghost phrase = { effect (expression 0) };

    #[tactic(auto, using(crate::proofs::Pieces::effect_gives, crate::proofs::Parts::made_stops, crate::proofs::Parts::seq_stops_first, crate::proofs::Parts::seq_stops_second), unfolding(crate::specs::ChartText::effect))]
    fn take(alloc: Global, ahead: &mut Ahead, end: usize) -> Result<DraftEffect, ReadFault> {
        let variable = name(ahead, end)?;
        let value = value(alloc, ahead, end)?;
        Ok(DraftEffect { variable, value })
    }
}

#[tactic(auto, unfolding(crate::specs::ChartText::effects, crate::specs::ChartText::some_effects, crate::specs::ChartText::next_effect))]
fn effects(alloc: Global, ahead: &mut Ahead, end: usize) -> Result<Items<DraftEffect>, ReadFault>
    ensures { MatchResult result
        (λ x. Gives (read (effects (expression 0)) ahead.old.tokens.now) x ahead.new.tokens.now)
        (λ fault. Stops end (read (effects (expression 0)) ahead.old.tokens.now) fault) }
{
    listed_behind::<ListedEffects>(alloc, ahead, end, Word::Do)
}

#[tactic(auto, using(crate::proofs::Parts::after_stops_first), unfolding(crate::specs::ChartText::target))]
fn target(ahead: &mut Ahead, end: usize) -> Result<Named, ReadFault>
    ensures { MatchResult result
        (λ x. Gives (read target ahead.old.tokens.now) x ahead.new.tokens.now)
        (λ fault. Stops end (read target ahead.old.tokens.now) fault) }
{
    skip_sign(ahead, end, Sign::Arrow)?;
    last_name(ahead, end)
}

/// The condition of a transition, where it has one.
#[tactic(auto, using(crate::proofs::Pieces::trigger_stops))]
pub fn trigger(
    alloc: Global,
    ahead: &mut Ahead,
    end: usize,
) -> Result<Option<TextExpression>, ReadFault>
    ensures { MatchResult result
        (λ x. Gives (read (trigger (expression 0)) ahead.old.tokens.now) x ahead.new.tokens.now)
        (λ fault. Stops end (read (trigger (expression 0)) ahead.old.tokens.now) fault) }
{
    if !word_follows(ahead.tokens, Word::If) {
        return Ok(None);
    }
    ahead.tokens = behind(ahead.tokens);
    let condition = placed(alloc, ahead, end)?;
    Ok(Some(condition))
}

/// What is done, and where a transition leads.
#[tactic(auto, using(crate::proofs::Parts::seq_stops_first, crate::proofs::Parts::seq_stops_second, crate::proofs::Parts::seq_gives), unfolding(crate::specs::ChartText::outcome))]
pub fn outcome(
    alloc: Global,
    ahead: &mut Ahead,
    end: usize,
) -> Result<(Items<DraftEffect>, Named), ReadFault>
    ensures { MatchResult result
        (λ x. Gives (read (outcome (expression 0)) ahead.old.tokens.now) x ahead.new.tokens.now)
        (λ fault. Stops end (read (outcome (expression 0)) ahead.old.tokens.now) fault) }
{
    let effects = effects(alloc, ahead, end)?;
    let target = target(ahead, end)?;
    Ok((effects, target))
}

/// A transition that is taken when all regions have ended.
#[tactic(auto, using(crate::proofs::Pieces::termination_made, crate::proofs::Parts::made_stops, crate::proofs::Parts::seq_stops_first, crate::proofs::Parts::seq_stops_second), unfolding(crate::specs::ChartText::termination))]
pub fn termination(
    alloc: Global,
    ahead: &mut Ahead,
    end: usize,
) -> Result<DraftTransition, ReadFault>
    ensures { MatchResult result
        (λ x. Gives (read (termination (expression 0)) ahead.old.tokens.now) x ahead.new.tokens.now)
        (λ fault. Stops end (read (termination (expression 0)) ahead.old.tokens.now) fault) }
{
    let (kind, at) = join_word(ahead, end)?;
    let (effects, target) = outcome(alloc, ahead, end)?;
    Ok(DraftTransition {
        kind,
        at,
        immediate: false,
        trigger: None,
        effects,
        target,
    })
}

#[tactic(auto, using(crate::proofs::Pieces::tested_made, crate::proofs::Parts::made_stops, crate::proofs::Parts::seq_stops_first, crate::proofs::Parts::seq_stops_second), unfolding(crate::specs::ChartText::tested))]
fn tested(alloc: Global, ahead: &mut Ahead, end: usize) -> Result<DraftTransition, ReadFault>
    ensures { MatchResult result
        (λ x. Gives (read (tested (expression 0)) ahead.old.tokens.now) x ahead.new.tokens.now)
        (λ fault. Stops end (read (tested (expression 0)) ahead.old.tokens.now) fault) }
{
    let (kind, at) = tested_word(ahead, end)?;
    let immediate = flag(ahead, Word::Immediate);
    let trigger = trigger(alloc, ahead, end)?;
    let (effects, target) = outcome(alloc, ahead, end)?;
    Ok(DraftTransition {
        kind,
        at,
        immediate,
        trigger,
        effects,
        target,
    })
}

// The transitions of a state.
struct Transitions;

impl Part for Transitions {
    type Read = DraftTransition;

    ghost phrase = { transition (expression 0) };

    fn take(alloc: Global, ahead: &mut Ahead, end: usize) -> Result<DraftTransition, ReadFault> {
        if word_follows(ahead.tokens, Word::Join) {
            return termination(alloc, ahead, end);
        }
        tested(alloc, ahead, end)
    }
}

impl RowPart for Transitions {
    #[tactic(auto, unfolding(crate::specs::ChartText::transition, crate::specs::ChartText::termination, crate::specs::ChartText::tested))]
    fn follows(tokens: &[Token]) -> bool {
        transition_follows(tokens)
    }
}

/// Whether a transition is next.
pub fn transition_follows(tokens: &[Token]) -> bool
    ensures { result ≡ starts text_tokens transition_first tokens.now }
{
    word_follows(tokens, Word::Join) || tested_word_follows(tokens)
}

/// Puts the transitions of a state behind others, up to the brace that closes it.
#[tactic(auto, using(crate::proofs::Parts::before_stops_first), unfolding(crate::specs::ChartText::leaving))]
pub(crate) fn leaving(
    alloc: Global,
    ahead: &mut Ahead,
    end: usize,
    found: &mut Items<DraftTransition>,
) -> Result<(), ReadFault>
    ensures { MatchResult result
        (λ _. Fills (read (leaving (expression 0)) ahead.old.tokens.now) found.old found.new ahead.new.tokens.now)
        (λ fault. Stops end (read (leaving (expression 0)) ahead.old.tokens.now) fault) }
{
    put_row::<Transitions>(alloc, ahead, end, found)?;
    skip_sign(ahead, end, Sign::CloseBrace)
}
