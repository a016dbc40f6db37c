//! Reading an extended chart, and telling the flaws of its draft.

ghost use Rattle.std.specs.Prelude.{◌≡◌, None, map, IfOk, IfErr, OnOk};
ghost use Rattle.sc_text.specs.Told.{told_behind, told_of};
ghost use Rattle.sc_text.specs.First.{first_behind};
ghost use Rattle.extended_reader.specs.Flaws.{joined, plain_variables, item_flaws, signals, new_flaws, extended_flaws};
ghost use Rattle.extended_reader.specs.Inside.TextDrafts.{scoped_flaws};
ghost use Rattle.extended_reader.specs.Checked.{IsSound, IsTextFault};

use crate::text_drafts::draft::{DraftItem, ExtendedDraft};
use crate::text_drafts::emission_flaws::signals;
use crate::text_drafts::inside_flaws::regions_inside_flaws;
use crate::text_drafts::item_flaws::{items_flaws, plain_variables, word_flaws};
use crate::text_drafts::name_flaws::variable_name_flaws;
use crate::text_drafts::row_flaws::{all_entries_flaws, all_way_flaws};
use crate::text_drafts::whole::read_extended_draft;
use chart_reader::told_flaws;
use sc_text::{Flaw, ReadFault, Scope, first_told};
use sqlite_items::{Boxed, Items};
use std::alloc::{AllocError, Global};

/// The draft of a text that spells an extended chart without flaws. Err: the fault of a text that has no draft, as
/// `read_extended_draft` tells it; else the first flaw of its draft; or memory was refused.
#[tactic(auto, using(crate::proofs::Checking::undrafted))]
pub fn read_checked_extended(alloc: Global, text: &str) -> Result<ExtendedDraft, ReadFault>
    ensures ok { IfOk result (λ draft. IsSound text.now draft) }
    ensures fault { IfErr result (λ fault. IsTextFault text.now fault) }
{
    // A box, since a draft would be dropped part by part at each way out.
    let draft = Boxed::new(alloc, read_extended_draft(alloc, text)?)?;
    match first_flaw(alloc, draft.get())? {
        Some(flaw) => Err(ReadFault::Text(flaw.broken, flaw.at)),
        None => Ok(draft.into_inner()),
    }
}

fn first_flaw(alloc: Global, draft: &ExtendedDraft) -> Result<Option<Flaw>, AllocError>
    ensures { IfOk result (λ first. first ≡ first_behind None (extended_flaws draft.now)) }
{
    let told = extended_told_flaws(alloc, draft)?;
    Ok(first_told(told.as_slice()))
}

/// The flaws of a draft of an extended chart that are told: the first twenty, in the order of the text. Err: memory was
/// refused.
#[tactic(auto, using(crate::proofs::Checking::both_told))]
pub fn extended_told_flaws(alloc: Global, draft: &ExtendedDraft) -> Result<Items<Flaw>, AllocError>
    ensures { IfOk result (λ told. told ≡ told_of (extended_flaws draft.now)) }
{
    let mut found = told_flaws(alloc, &draft.core)?;
    match new_flaws(alloc, draft, &mut found) {
        Ok(()) => Ok(found),
        Err(error) => {
            drop(found);
            Err(error)
        }
    }
}

// The flaws of what is new.
#[tactic(auto, using(sc_text::proofs::ToldInOrder::told_both))]
fn new_flaws(
    alloc: Global,
    draft: &ExtendedDraft,
    found: &mut Items<Flaw>,
) -> Result<(), AllocError>
    ensures { OnOk result (found.new ≡ told_behind found.old (new_flaws draft.now)) }
{
    word_flaws(alloc, "extended", draft.word, found)?;
    all_item_flaws(alloc, draft.items.as_slice(), found)?;
    behind_items_flaws(alloc, draft, found)
}

// The flaws of items, over the variables among them.
fn all_item_flaws(
    alloc: Global,
    items: &[DraftItem],
    found: &mut Items<Flaw>,
) -> Result<(), AllocError>
    ensures { OnOk result (found.new ≡ told_behind found.old
        (joined (map (item_flaws (plain_variables items.now)) items.now))) }
{
    let plain = plain_variables(alloc, items)?;
    let variables = Scope::of(alloc, plain.as_slice())?;
    items_flaws(alloc, &variables, items, found)
}

// The flaws of all that is new but the items.
fn behind_items_flaws(
    alloc: Global,
    draft: &ExtendedDraft,
    found: &mut Items<Flaw>,
) -> Result<(), AllocError>
    ensures { OnOk result (found.new ≡ told_behind found.old
        (scoped_flaws draft.now.core.variables (signals draft.now.items) draft.now)) }
{
    let emitted = signals(alloc, draft.items.as_slice())?;
    let signals = Scope::of(alloc, emitted.as_slice())?;
    let scope = Scope::of(alloc, draft.core.variables.as_slice())?;
    scoped_flaws(alloc, &scope, &signals, draft, found)
}

// These, over the variables and the signals of the chart.
#[tactic(auto, using(sc_text::proofs::ToldInOrder::told_both))]
fn scoped_flaws(
    alloc: Global,
    scope: &Scope,
    signals: &Scope,
    draft: &ExtendedDraft,
    found: &mut Items<Flaw>,
) -> Result<(), AllocError>
    ensures { OnOk result (found.new ≡ told_behind found.old
        (scoped_flaws scope.now.variables.now signals.now.variables.now draft.now)) }
{
    let regions = draft.core.regions.as_slice();
    all_entries_flaws(alloc, scope, signals, draft.rows.entries.as_slice(), found)?;
    all_way_flaws(alloc, scope, regions, draft.rows.ways.as_slice(), found)?;
    variable_name_flaws(alloc, draft.core.variables.as_slice(), found)?;
    regions_inside_flaws(alloc, signals, regions, found)
}
