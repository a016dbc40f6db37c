//! Reading a whole extended chart.

ghost use Rattle.std.specs.Prelude.{◌≡◌, [], IfOk, IfErr, MatchResult};
ghost use Rattle.grammar.specs.Grammar.{seq};
ghost use Rattle.grammar.specs.Read.{read, read_all};
ghost use Rattle.extended_reader.specs.Comments.{without_comments};
ghost use Rattle.sc_text.specs.declared.language.Language.TheVariants as language;
ghost use Rattle.sc_text.specs.Tokens.{AreTokens, IsScanFault};
ghost use Rattle.sc_text.specs.Expression.{after, expression};
ghost use Rattle.sc_text.specs.Reading.{Stops};
ghost use Rattle.core_charts.specs.Rules.{inner_depth_limit};
ghost use Rattle.chart_reader.specs.ChartText.{the_word, name, braced};
ghost use Rattle.chart_reader.specs.Phrase.{Gives};
ghost use Rattle.extended_reader.specs.Draft.{draft_of};
ghost use Rattle.extended_reader.specs.ExtendedText.{parts, within, extended_text};
ghost use Rattle.extended_reader.specs.Reading.{IsExtendedDraft, IsDraftFault};

use crate::text_drafts::draft::{DraftItem, DraftRows, ExtendedDraft};
use crate::text_drafts::items::{ChartItems, put_declarations};
use crate::text_drafts::regions::regions;
use crate::{without_comments, without_modules};
use chart_reader::text_parts::{Ahead, name, put_row, skip_sign, title};
use chart_reader::{DraftChart, DraftRegion};
use sc_text::ahead::wrong;
use sc_text::{Language, Named, ReadFault, Sign, Token, Word, tokens};
use sqlite_items::{Boxed, Items};
use std::alloc::{AllocError, Global};

/// The levels of regions that may stand inside a region of the chart.
pub(crate) const INNER_LEVELS: u8 = 31;

/// The draft of a text of an extended chart: what its tokens spell by the grammar, its block comments left out, where
/// each use of a module stands for the regions of that. Err: the first place where no token of charts and no comment
/// stands; else the first place where something is wrong with a module, or a use of one; else the first token that
/// can't go on, or with which only extended charts go on that are nested too deep, or the end of the text, where none
/// may end; or memory was refused.
#[tactic(auto, using(crate::proofs::Drafting::scanned, crate::proofs::Drafting::modules_wrong))]
pub fn read_extended_draft(alloc: Global, text: &str) -> Result<ExtendedDraft, ReadFault>
    ensures ok { IfOk result (λ draft. IsExtendedDraft text.now draft) }
    ensures fault { IfErr result (λ fault. IsDraftFault text.now fault) }
{
    let tokens = tokens_of(alloc, text)?;
    let plain = without_modules(alloc, tokens, text.len())?;
    whole(alloc, plain.as_slice(), text.len())
}

// The tokens of a text without its block comments.
fn tokens_of(alloc: Global, text: &str) -> Result<Items<Token>, ReadFault>
    ensures ok { IfOk result (AreTokens language.Chart 0 (without_comments text.now)) }
    ensures fault { IfErr result (IsScanFault language.Chart (without_comments text.now)) }
{
    let plain = without_comments(alloc, text)?;
    tokens(alloc, Language::Chart, plain.as_str())
}

// An extended chart that ends where the tokens do.
#[tactic(auto, using(crate::proofs::Drafting::whole_gives, crate::proofs::Drafting::chart_stops, crate::proofs::Drafting::more_stops))]
fn whole(alloc: Global, tokens: &[Token], end: usize) -> Result<ExtendedDraft, ReadFault>
    ensures { MatchResult result
        (λ draft. Gives (read_all (extended_text 0) tokens.now) draft [])
        (λ fault. Stops end (read_all (extended_text 0) tokens.now) fault) }
{
    let mut ahead = Ahead { tokens };
    // A box, since a draft would be dropped part by part where more follows.
    let draft = Boxed::new(alloc, extended(alloc, &mut ahead, end)?)?;
    if !ahead.tokens.is_empty() {
        return Err(wrong(ahead.tokens, end));
    }
    Ok(draft.into_inner())
}

#[tactic(auto, using(crate::proofs::Nesting::extended_gives, crate::proofs::Nesting::word_stops, crate::proofs::Nesting::chart_stops))]
fn extended(alloc: Global, ahead: &mut Ahead, end: usize) -> Result<ExtendedDraft, ReadFault>
    ensures { MatchResult result
        (λ x. Gives (read (extended_text 0) ahead.old.tokens.now) x ahead.new.tokens.now)
        (λ fault. Stops end (read (extended_text 0) ahead.old.tokens.now) fault) }
{
    let word = name(ahead, end)?;
    let chart = chart(alloc, ahead, end)?;
    let draft = draft_of(alloc, word, chart)?;
    Ok(draft)
}

// The chart behind its first word: its name, and its parts in braces.
#[tactic(auto, using(chart_reader::proofs::Parts::seq_stops_first, chart_reader::proofs::Parts::seq_stops_second, chart_reader::proofs::Parts::seq_gives))]
fn chart(
    alloc: Global,
    ahead: &mut Ahead,
    end: usize,
) -> Result<(Named, (Items<DraftItem>, (Items<DraftRegion>, DraftRows))), ReadFault>
    ensures { MatchResult result
        (λ x. Gives (read (seq (after (the_word Word.Chart) name) (braced (parts (expression 0)
        (within (expression 0) inner_depth_limit)))) ahead.old.tokens.now) x ahead.new.tokens.now)
        (λ fault. Stops end (read (seq (after (the_word Word.Chart) name) (braced (parts (expression 0)
        (within (expression 0) inner_depth_limit)))) ahead.old.tokens.now) fault) }
{
    let named = title(ahead, end, Word::Chart)?;
    let parts = braced_parts(alloc, ahead, end)?;
    Ok((named, parts))
}

#[tactic(auto, using(chart_reader::proofs::Parts::after_stops_first, chart_reader::proofs::Nesting::braced_stops_inside, chart_reader::proofs::Nesting::braced_stops_last, chart_reader::proofs::Nesting::braced_gives))]
fn braced_parts(
    alloc: Global,
    ahead: &mut Ahead,
    end: usize,
) -> Result<(Items<DraftItem>, (Items<DraftRegion>, DraftRows)), ReadFault>
    ensures { MatchResult result
        (λ x. Gives (read (braced (parts (expression 0) (within (expression 0) inner_depth_limit)))
        ahead.old.tokens.now) x ahead.new.tokens.now)
        (λ fault. Stops end (read (braced (parts (expression 0) (within (expression 0) inner_depth_limit)))
        ahead.old.tokens.now) fault) }
{
    skip_sign(ahead, end, Sign::OpenBrace)?;
    let parts = Boxed::new(alloc, parts(alloc, ahead, end)?)?;
    skip_sign(ahead, end, Sign::CloseBrace)?;
    Ok(parts.into_inner())
}

fn parts(
    alloc: Global,
    ahead: &mut Ahead,
    end: usize,
) -> Result<(Items<DraftItem>, (Items<DraftRegion>, DraftRows)), ReadFault>
    ensures { MatchResult result
        (λ x. Gives (read (parts (expression 0) (within (expression 0) inner_depth_limit))
        ahead.old.tokens.now) x ahead.new.tokens.now)
        (λ fault. Stops end (read (parts (expression 0) (within (expression 0) inner_depth_limit)) ahead.old.tokens.now)
        fault) }
{
    let mut all = Items::new(alloc);
    put_row::<ChartItems>(alloc, ahead, end, &mut all)?;
    let mut found = Items::new(alloc);
    let mut rows = DraftRows::new(alloc);
    regions(alloc, INNER_LEVELS, ahead, end, &mut found, &mut rows)?;
    Ok((all, (found, rows)))
}

// The draft of a chart by its name and its parts. Err: memory was refused.
fn draft_of(
    alloc: Global,
    word: Named,
    chart: (Named, (Items<DraftItem>, (Items<DraftRegion>, DraftRows))),
) -> Result<ExtendedDraft, AllocError>
    ensures { IfOk result (λ draft. draft ≡ draft_of word chart.0 chart.1) }
{
    let (named, parts) = chart;
    let (items, behind) = parts;
    let (regions, rows) = behind;
    let mut variables = Items::new(alloc);
    match put_declarations(items.as_slice(), &mut variables) {
        Ok(()) => Ok(ExtendedDraft {
            word,
            core: DraftChart {
                named,
                variables,
                regions,
            },
            items,
            rows,
        }),
        Err(error) => {
            drop(variables);
            drop(items);
            drop(regions);
            drop(rows);
            Err(error)
        }
    }
}
