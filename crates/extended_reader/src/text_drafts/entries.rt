//! Reading the actions of a state.

ghost use Rattle.std.specs.Prelude.{◌≡◌, MatchResult};
ghost use Rattle.grammar.specs.Read.{read, starts};
ghost use Rattle.sc_text.specs.Expression.{text_tokens, after, expression};
ghost use Rattle.sc_text.specs.Reading.{Stops};
ghost use Rattle.chart_reader.specs.ChartText.{the_word};
ghost use Rattle.chart_reader.specs.Phrase.{Gives};
ghost use Rattle.extended_reader.specs.ExtendedText.{last_effects, entry};

use crate::text_drafts::draft::DraftEntry;
use crate::text_drafts::effects::some_effects;
use chart_reader::DraftEffect;
use chart_reader::text_parts::{Ahead, Part, RowPart, flag, name, skip_sign, skip_word, trigger};
use sc_text::ahead::word_follows;
use sc_text::{ReadFault, Sign, Token, Word, name_follows};
use sqlite_items::Items;
use std::alloc::Global;

/// The actions of a state.
pub(crate) struct Entries;

impl Part for Entries {
    type Read = DraftEntry;

    ghost phrase = { entry (expression 0) };

    #[tactic(auto, using(crate::proofs::Pieces::entry_gives, chart_reader::proofs::Parts::made_stops, chart_reader::proofs::Parts::seq_stops_first, chart_reader::proofs::Parts::seq_stops_second), unfolding(crate::specs::ExtendedText::entry))]
    fn take(alloc: Global, ahead: &mut Ahead, end: usize) -> Result<DraftEntry, ReadFault> {
        let immediate = flag(ahead, Word::Immediate);
        let word = name(ahead, end)?;
        let trigger = trigger(alloc, ahead, end)?;
        match outcomes(alloc, ahead, end) {
            Ok(effects) => Ok(DraftEntry {
                immediate,
                word,
                trigger,
                effects,
            }),
            Err(fault) => {
                drop(trigger);
                Err(fault)
            }
        }
    }
}

impl RowPart for Entries {
    #[tactic(auto, unfolding(crate::specs::ExtendedText::entry, chart_reader::specs::ChartText::flag))]
    fn follows(tokens: &[Token]) -> bool {
        word_follows(tokens, Word::Immediate) || name_follows(tokens)
    }
}

// The word `do`, and what is done.
#[tactic(auto, using(chart_reader::proofs::Parts::after_stops_first))]
fn outcomes(alloc: Global, ahead: &mut Ahead, end: usize) -> Result<Items<DraftEffect>, ReadFault>
    ensures { MatchResult result
        (λ x. Gives (read (after (the_word Word.Do) (last_effects (expression 0))) ahead.old.tokens.now) x
        ahead.new.tokens.now)
        (λ fault. Stops end (read (after (the_word Word.Do) (last_effects
        (expression 0))) ahead.old.tokens.now) fault) }
{
    skip_word(ahead, end, Word::Do)?;
    last_effects(alloc, ahead, end)
}

// What is done, and the semicolon behind it.
#[tactic(auto, using(chart_reader::proofs::Parts::before_stops_first, chart_reader::proofs::Parts::before_stops_second, chart_reader::proofs::Parts::before_gives), unfolding(crate::specs::ExtendedText::last_effects))]
fn last_effects(
    alloc: Global,
    ahead: &mut Ahead,
    end: usize,
) -> Result<Items<DraftEffect>, ReadFault>
    ensures { MatchResult result
        (λ x. Gives (read (last_effects (expression 0)) ahead.old.tokens.now) x ahead.new.tokens.now)
        (λ fault. Stops end (read (last_effects (expression 0)) ahead.old.tokens.now) fault) }
{
    let effects = some_effects(alloc, ahead, end)?;
    skip_sign(ahead, end, Sign::Semicolon)?;
    Ok(effects)
}
