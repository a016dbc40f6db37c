//! Where the elements of an extended chart stand in its text of which warnings speak.

ghost use Rattle.std.specs.Prelude.{◌≡◌, IfOk, length};
ghost use Rattle.chart_warnings.specs.Places.{state_at};
ghost use Rattle.chart_warnings.specs.ExtendedPlaces.{author_places, is_bare, variable_places};

use crate::{ChartPlaces, places_of};
use extended_reader::{DraftItem, ExtendedDraft};
use sc_text::Named;
use sqlite_items::{Items, at};
use std::alloc::{AllocError, Global};

/// The places of the extended chart that a draft is. Err: memory was refused.
pub fn author_places(alloc: Global, draft: &ExtendedDraft) -> Result<ChartPlaces, AllocError>
    ensures { IfOk result (λ places. places ≡ author_places draft.now) }
{
    let mut places = places_of(alloc, &draft.core)?;
    places.variables = variable_places(alloc, draft.items.as_slice())?;
    Ok(places)
}

// Whether an item behind this word is a variable: no constant, and no name of what a variable was.
fn is_variable(word: Option<Named>) -> bool
    ensures { result ≡ is_bare word }
{
    word.is_none()
}

// Those of the variables among these items.
fn variable_places(alloc: Global, items: &[DraftItem]) -> Result<Items<usize>, AllocError>
    ensures { IfOk result (λ places. places ≡ variable_places items.now) }
{
    let mut places = Items::new(alloc);
    for item in items {
        if is_variable(item.word) {
            places.push(item.declared.named.at)?;
        }
    }
    Ok(places)
}

/// How many regions a state of the author's has; where there is none of this number, none.
pub(crate) fn region_count(places: &ChartPlaces, state: usize) -> usize
    ensures { result ≡ length (state_at places.now state).regions }
{
    match at(places.states.as_slice(), state) {
        Some(state) => state.regions.len(),
        None => 0,
    }
}
