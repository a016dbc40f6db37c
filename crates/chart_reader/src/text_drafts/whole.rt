//! Reading a whole chart.

ghost use Rattle.std.specs.Prelude.{[], IfOk, IfErr, MatchResult};
ghost use Rattle.grammar.specs.Grammar.{seq, many};
ghost use Rattle.grammar.specs.Read.{read, read_all};
ghost use Rattle.sc_text.specs.Expression.{expression};
ghost use Rattle.sc_text.specs.Reading.{Stops};
ghost use Rattle.core_charts.specs.Rules.{inner_depth_limit};
ghost use Rattle.chart_reader.specs.ChartText.{listed, declaration, region, braced, within, chart_text};
ghost use Rattle.chart_reader.specs.Reading.{IsDraft, IsDraftFault};
ghost use Rattle.chart_reader.specs.Phrase.{Gives};
ghost use Rattle.chart_reader.specs.Inside.TextDrafts.{FillsBoth};

use crate::text_drafts::ahead::{Ahead, skip_sign};
use crate::text_drafts::draft::{DraftChart, DraftRegion};
use crate::text_drafts::regions::regions;
use crate::text_drafts::rows::put_row;
use crate::text_drafts::transitions::Declarations;
use crate::text_drafts::words::title;
use sc_text::ahead::wrong;
use sc_text::{Declaration, Language, ReadFault, Sign, Token, Word, tokens};
use sqlite_items::Items;
use std::alloc::Global;

/// The levels of regions that may stand inside a region of the chart.
pub(crate) const INNER_LEVELS: u8 = 31;

/// The draft of a text: what its tokens spell by the grammar. Err: the first place where no token stands; else
/// the first token that can't go on, or with which only charts go on that are nested too deep, or the end of the
/// text, where none may end; or memory was refused.
#[tactic(auto, using(crate::proofs::Drafting::scanned))]
pub fn read_draft(alloc: Global, text: &str) -> Result<DraftChart, ReadFault>
    ensures ok { IfOk result (λ draft. IsDraft text.now draft) }
    ensures fault { IfErr result (λ fault. IsDraftFault text.now fault) }
{
    let tokens = tokens(alloc, Language::Chart, text)?;
    whole(alloc, tokens.as_slice(), text.len())
}

// A chart that ends where the tokens do.
#[tactic(auto, using(crate::proofs::Drafting::whole_gives, crate::proofs::Drafting::chart_stops, crate::proofs::Drafting::more_stops))]
fn whole(alloc: Global, tokens: &[Token], end: usize) -> Result<DraftChart, ReadFault>
    ensures { MatchResult result
        (λ draft. Gives (read_all (chart_text 0) tokens.now) draft [])
        (λ fault. Stops end (read_all (chart_text 0) tokens.now) fault) }
{
    let mut ahead = Ahead { tokens };
    let draft = chart(alloc, &mut ahead, end)?;
    if !ahead.tokens.is_empty() {
        return Err(wrong(ahead.tokens, end));
    }
    Ok(draft)
}

fn chart(alloc: Global, ahead: &mut Ahead, end: usize) -> Result<DraftChart, ReadFault>
    ensures { MatchResult result
        (λ x. Gives (read (chart_text 0) ahead.old.tokens.now) x ahead.new.tokens.now)
        (λ fault. Stops end (read (chart_text 0) ahead.old.tokens.now) fault) }
{
    let named = title(ahead, end, Word::Chart)?;
    let mut variables = Items::new(alloc);
    let mut regions = Items::new(alloc);
    braced_parts(alloc, ahead, end, &mut variables, &mut regions)?;
    Ok(DraftChart {
        named,
        variables,
        regions,
    })
}

#[tactic(auto, using(crate::proofs::Parts::after_stops_first, crate::proofs::Nesting::braced_stops_inside))]
fn braced_parts(
    alloc: Global,
    ahead: &mut Ahead,
    end: usize,
    variables: &mut Items<Declaration>,
    regions: &mut Items<DraftRegion>,
) -> Result<(), ReadFault>
    ensures { MatchResult result
        (λ _. FillsBoth (read (braced (seq (many declaration)
        (listed (region (expression 0) (within (expression 0) inner_depth_limit))
        (region (expression 0) (within (expression 0) inner_depth_limit)))))
        ahead.old.tokens.now) variables.old variables.new regions.old regions.new ahead.new.tokens.now)
        (λ fault. Stops end (read (braced (seq (many declaration)
        (listed (region (expression 0) (within (expression 0) inner_depth_limit))
        (region (expression 0) (within (expression 0) inner_depth_limit))))) ahead.old.tokens.now) fault) }
{
    skip_sign(ahead, end, Sign::OpenBrace)?;
    parts(alloc, ahead, end, variables, regions)?;
    skip_sign(ahead, end, Sign::CloseBrace)
}

#[tactic(auto, using(crate::proofs::Parts::seq_stops_first))]
fn parts(
    alloc: Global,
    ahead: &mut Ahead,
    end: usize,
    variables: &mut Items<Declaration>,
    found: &mut Items<DraftRegion>,
) -> Result<(), ReadFault>
    ensures { MatchResult result
        (λ _. FillsBoth (read (seq (many declaration)
        (listed (region (expression 0) (within (expression 0) inner_depth_limit))
        (region (expression 0) (within (expression 0) inner_depth_limit))))
        ahead.old.tokens.now) variables.old variables.new found.old found.new ahead.new.tokens.now)
        (λ fault. Stops end (read (seq (many declaration)
        (listed (region (expression 0) (within (expression 0) inner_depth_limit))
        (region (expression 0) (within (expression 0) inner_depth_limit)))) ahead.old.tokens.now) fault) }
{
    put_row::<Declarations>(alloc, ahead, end, variables)?;
    regions(alloc, INNER_LEVELS, ahead, end, found)
}
