//! Reading a text of an extended chart, with the places of the elements of the chart to which it is reduced.

ghost use Rattle.std.specs.Prelude.{◌≡◌, IfOk, MatchOption, length};
ghost use Rattle.node_sources.specs.Places.{places_of};
ghost use Rattle.extended_reader.specs.Checked.{IsSound};
ghost use Rattle.extended_reader.specs.Resolved.{extended_of};
ghost use Rattle.node_sources.specs.Origins.{author_origins};
ghost use Rattle.node_sources.specs.ExtendedRead.{IsAuthorPlaced, LacksPlaces, author_of};

use crate::extended::text_places::author::Author;
use crate::extended::text_places::effect_rows::effect_rows;
use crate::extended::text_places::origins::AuthorOrigins;
use crate::extended::text_places::regions::author_origins;
use crate::{Places, places_of};
use chart_reduction::{AuthorRows, ReduceFault, reduce};
use core_charts::Chart;
use extended_charts::ExtendedChart;
use extended_reader::{ExtendedDraft, extended_of, read_checked_extended};
use sc_text::ReadFault;
use std::alloc::{AllocError, Global};

/// The chart to which an extended chart is reduced, from which elements of the author's its elements come, and where
/// those stand in his text.
#[derive(Drop)]
pub struct AuthorPlaced {
    pub chart: Chart,
    pub origins: AuthorOrigins,
    pub places: Places,
}

/// The chart to which the extended chart of a text is reduced, with the places of the author's elements. None: the text
/// has a fault, or what it spells is reduced to no chart. Err: memory was refused.
#[tactic(auto, using(crate::proofs::Reading::has_fault))]
pub fn read_author_placed(alloc: Global, text: &str) -> Result<Option<AuthorPlaced>, AllocError>
    ensures { IfOk result (λ found. MatchOption found (LacksPlaces text.now)
        (λ placed. IsAuthorPlaced text.now placed.chart placed.origins placed.places)) }
{
    match read_checked_extended(alloc, text) {
        Ok(draft) => placed_of(alloc, text, &draft),
        Err(ReadFault::Text(_, _)) => Ok(None),
        Err(ReadFault::Memory) => Err(AllocError),
    }
}

// What this draft of the text comes to.
fn placed_of(
    alloc: Global,
    text: &str,
    draft: &ExtendedDraft,
) -> Result<Option<AuthorPlaced>, AllocError>
    requires sound { IsSound text.now draft.now }
    ensures { IfOk result (λ found. MatchOption found (LacksPlaces text.now)
        (λ placed. IsAuthorPlaced text.now placed.chart placed.origins placed.places)) }
{
    let extended = extended_of(alloc, draft)?;
    let placed = placed_from(alloc, text, draft, &extended);
    drop(extended);
    placed
}

// The same, where this is the extended chart of the draft.
fn placed_from(
    alloc: Global,
    text: &str,
    draft: &ExtendedDraft,
    extended: &ExtendedChart,
) -> Result<Option<AuthorPlaced>, AllocError>
    requires sound { IsSound text.now draft.now }
    requires extended { extended.now ≡ extended_of draft.now }
    ensures { IfOk result (λ found. MatchOption found (LacksPlaces text.now)
        (λ placed. IsAuthorPlaced text.now placed.chart placed.origins placed.places)) }
{
    match reduce(alloc, extended) {
        Ok(made) => Ok(Some(with_places(alloc, draft, made, extended.variables.len())?)),
        Err(ReduceFault::Limit) => Ok(None),
        Err(ReduceFault::Memory) => Err(AllocError),
    }
}

// The chart to which this draft is reduced, where these are its author's rows, and so many of its variables.
fn with_places(
    alloc: Global,
    draft: &ExtendedDraft,
    made: (Chart, AuthorRows),
    variables: usize,
) -> Result<AuthorPlaced, AllocError>
    requires { variables ≡ length (extended_of draft.now).variables }
    ensures chart { IfOk result (λ placed. placed.chart ≡ made.0) }
    ensures origins { IfOk result (λ placed. placed.origins ≡ author_origins (author_of made.1 draft.now) made.0) }
    ensures places { IfOk result (λ placed. placed.places ≡ places_of draft.now.core) }
{
    let (chart, rows) = made;
    match origins_in(alloc, draft, &chart, rows, variables) {
        Ok(origins) => placed_by(alloc, draft, chart, origins),
        Err(error) => {
            drop(chart);
            Err(error)
        }
    }
}

// From which elements of the author's those of this chart come, to which the draft is reduced.
fn origins_in(
    alloc: Global,
    draft: &ExtendedDraft,
    chart: &Chart,
    rows: AuthorRows,
    variables: usize,
) -> Result<AuthorOrigins, AllocError>
    requires { variables ≡ length (extended_of draft.now).variables }
    ensures { IfOk result (λ origins. origins ≡ author_origins (author_of rows draft.now) chart.now) }
{
    match effect_rows(alloc, draft.core.regions.as_slice()) {
        Ok(effects) => origins_by(
            alloc,
            Author {
                rows,
                effects,
                variables,
            },
            chart,
        ),
        Err(error) => {
            drop(rows);
            Err(error)
        }
    }
}

// The same, where this is what is the author's.
fn origins_by(alloc: Global, author: Author, chart: &Chart) -> Result<AuthorOrigins, AllocError>
    ensures { IfOk result (λ origins. origins ≡ author_origins author chart.now) }
{
    let origins = author_origins(alloc, &author, chart);
    drop(author);
    origins
}

// This chart and these origins, with the places in the draft.
fn placed_by(
    alloc: Global,
    draft: &ExtendedDraft,
    chart: Chart,
    origins: AuthorOrigins,
) -> Result<AuthorPlaced, AllocError>
    ensures chart { IfOk result (λ placed. placed.chart ≡ chart) }
    ensures origins { IfOk result (λ placed. placed.origins ≡ origins) }
    ensures places { IfOk result (λ placed. placed.places ≡ places_of draft.now.core) }
{
    match places_of(alloc, &draft.core) {
        Ok(places) => Ok(AuthorPlaced {
            chart,
            origins,
            places,
        }),
        Err(error) => {
            drop(chart);
            drop(origins);
            Err(error)
        }
    }
}
