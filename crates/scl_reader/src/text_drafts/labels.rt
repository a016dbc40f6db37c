//! Labels that stand twice, and gotos to no label of their thread.

ghost use Rattle.std.specs.Prelude.{◌≡◌, IfOk, OnOk};
ghost use Rattle.sc_text.specs.Told.{told_behind};
ghost use Rattle.scl_reader.specs.Flaws.{names, lost, repeated};

use crate::text_drafts::apart::are_apart;
use crate::text_drafts::name_row::NameRow;
use sc_text::{FaultKind, Flaw, Index, note_told};
use sc_values::Name;
use sqlite_items::Items;
use std::alloc::{AllocError, Global};

/// Tells the gotos to none of these labels. Err: memory was refused.
#[tactic(auto, using(crate::proofs::Labelled::lost_step, crate::proofs::Labelled::lost_over))]
pub(crate) fn note_lost(
    alloc: Global,
    labels: &NameRow,
    gotos: &NameRow,
    told: &mut Items<Flaw>,
) -> Result<(), AllocError>
    ensures { OnOk result (told.new ≡ told_behind told.old (lost (names labels.now) gotos.now)) }
{
    if gotos.len() == 0 {
        return Ok(());
    }
    let names = names(alloc, labels)?;
    let index = Index::of(alloc, names.as_slice())?;
    for at in 0..gotos.len() {
        let target = gotos.at(at);
        let is_known = index.has(target.name);
        note_told(alloc, told, !is_known, FaultKind::Unknown, target.at)?;
    }
    Ok(())
}

/// Tells each label whose name stands before it too. Err: memory was refused.
#[tactic(auto, using(crate::proofs::AllApart::none_repeated))]
pub(crate) fn note_repeated(
    alloc: Global,
    labels: &NameRow,
    told: &mut Items<Flaw>,
) -> Result<(), AllocError>
    ensures { OnOk result (told.new ≡ told_behind told.old (repeated (names labels.now) 0 labels.now)) }
{
    if are_apart(alloc, labels)? {
        return Ok(());
    }
    note_each_repeated(alloc, labels, told)
}

// The same, where some may stand twice: each is looked up.
#[tactic(auto, using(crate::proofs::Labelled::repeated_step, crate::proofs::Labelled::repeated_over))]
fn note_each_repeated(
    alloc: Global,
    labels: &NameRow,
    told: &mut Items<Flaw>,
) -> Result<(), AllocError>
    ensures { OnOk result (told.new ≡ told_behind told.old (repeated (names labels.now) 0 labels.now)) }
{
    let names = names(alloc, labels)?;
    let index = Index::of(alloc, names.as_slice())?;
    for at in 0..labels.len() {
        let label = labels.at(at);
        let is_repeated = index.is_repeated(at, label.name);
        note_told(alloc, told, is_repeated, FaultKind::Repeated, label.at)?;
    }
    Ok(())
}

fn names(alloc: Global, labels: &NameRow) -> Result<Vec<Name>, AllocError>
    ensures { IfOk result (λ found. found.items ≡ names labels.now) }
{
    let mut names = Vec::with_capacity(alloc, labels.len())?;
    for at in 0..labels.len() {
        names.push(labels.at(at).name)?;
    }
    Ok(names)
}
