//! What is wrong with targets that are entered by their history.

ghost use Rattle.std.specs.Prelude.{◌≡◌, OnOk};
ghost use Rattle.sc_text.specs.Told.{told_behind};
ghost use Rattle.extended_reader.specs.Flaws.{words_flaws, history_flaw, history_flaws};
ghost use Rattle.extended_reader.specs.Targets.{simple_targets};

use crate::text_drafts::draft::{DraftWay, HistoryWords};
use crate::text_drafts::item_flaws::word_flaws;
use crate::text_drafts::simple_targets::put_targets;
use chart_reader::DraftRegion;
use sc_text::{FaultKind, Flaw, note_told};
use sqlite_items::Items;
use std::alloc::{AllocError, Global};

/// Tells the flaws of the words before a target. Err: memory was refused.
#[tactic(auto, using(sc_text::proofs::ToldInOrder::told_both))]
pub(crate) fn words_flaws(
    alloc: Global,
    words: Option<HistoryWords>,
    found: &mut Items<Flaw>,
) -> Result<(), AllocError>
    ensures { OnOk result (found.new ≡ told_behind found.old (words_flaws words)) }
{
    match words {
        Some(words) => {
            word_flaws(alloc, "shallow", words.shallow, found)?;
            word_flaws(alloc, "history", words.history, found)
        }
        None => Ok(()),
    }
}

/// Tells which transitions in these regions enter a state without regions by its history. Err: memory was refused.
pub(crate) fn history_flaws(
    alloc: Global,
    regions: &[DraftRegion],
    ways: &[DraftWay],
    found: &mut Items<Flaw>,
) -> Result<(), AllocError>
    ensures { OnOk result (found.new ≡ told_behind found.old (history_flaws ways.now (simple_targets regions.now))) }
{
    let mut places = Items::new(alloc);
    put_targets(alloc, regions, &mut places)?;
    all_history_flaws(alloc, ways, places.as_slice(), found)
}

fn all_history_flaws(
    alloc: Global,
    ways: &[DraftWay],
    places: &[Option<usize>],
    found: &mut Items<Flaw>,
) -> Result<(), AllocError>
    ensures { OnOk result (found.new ≡ told_behind found.old (history_flaws ways.now places.now)) }
{
    let mut left = places;
    for way in ways {
        match left {
            [place, behind @ ..] => {
                history_flaw(alloc, way.history, *place, found)?;
                left = behind;
            }
            [] => return Ok(()),
        }
    }
    Ok(())
}

fn history_flaw(
    alloc: Global,
    words: Option<HistoryWords>,
    place: Option<usize>,
    found: &mut Items<Flaw>,
) -> Result<(), AllocError>
    ensures { OnOk result (found.new ≡ told_behind found.old (history_flaw words place)) }
{
    match place {
        Some(at) => note_told(alloc, found, words.is_some(), FaultKind::Rule, at),
        None => Ok(()),
    }
}
