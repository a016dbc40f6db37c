//! What is wrong with emissions, and with assignments to signals.

ghost use Rattle.std.specs.Prelude.{◌≡◌, OnOk, IfOk};
ghost use Rattle.sc_text.specs.Told.{told_behind};
ghost use Rattle.extended_reader.specs.Flaws.{signals, differ, is_parted, signalling_flaws, emission_flaws};
ghost use Rattle.extended_reader.specs.Flaws.{emissions_flaws, ways_flaws};

use crate::text_drafts::draft::DraftItem;
use chart_reader::{DraftEffect, DraftTransition};
use sc_text::{Declaration, FaultKind, Flaw, Scope, TextOperation, note_told};
use sqlite_items::Items;
use std::alloc::{AllocError, Global};

/// The signals among these items. Err: memory was refused.
pub(crate) fn signals(alloc: Global, items: &[DraftItem]) -> Result<Items<Declaration>, AllocError>
    ensures { IfOk result (λ all. all ≡ signals items.now) }
{
    let mut all = Items::new(alloc);
    for item in items {
        if item.signal.is_some() {
            all.push(item.declared)?;
        }
    }
    Ok(all)
}

/// Tells what transitions emit and assign to wrongly, where the scope is that of the signals. Err: memory was refused.
pub(crate) fn ways_flaws(
    alloc: Global,
    signals: &Scope,
    transitions: &[DraftTransition],
    found: &mut Items<Flaw>,
) -> Result<(), AllocError>
    ensures { OnOk result (found.new ≡ told_behind found.old (ways_flaws signals.now.variables.now transitions.now)) }
{
    for transition in transitions {
        emissions_flaws(alloc, signals, transition.effects.as_slice(), found)?;
    }
    Ok(())
}

/// Tells what effects emit and assign to wrongly, where the scope is that of the signals. Err: memory was refused.
pub(crate) fn emissions_flaws(
    alloc: Global,
    signals: &Scope,
    effects: &[DraftEffect],
    found: &mut Items<Flaw>,
) -> Result<(), AllocError>
    ensures { OnOk result (found.new ≡ told_behind found.old (emissions_flaws signals.now.variables.now effects.now)) }
{
    for effect in effects {
        emission_flaws(alloc, signals, effect, found)?;
    }
    Ok(())
}

fn emission_flaws(
    alloc: Global,
    signals: &Scope,
    effect: &DraftEffect,
    found: &mut Items<Flaw>,
) -> Result<(), AllocError>
    ensures { OnOk result (found.new ≡ told_behind found.old (emission_flaws signals.now.variables.now effect.now)) }
{
    let start = effect.value.start;
    let is_wrong = is_parted(start, effect.value.operations.as_slice());
    note_told(alloc, found, is_wrong, FaultKind::Grammar, start)?;
    signalling_flaws(alloc, signals, effect, found)
}

// Whether the `=` of a combination stands apart from its operator.
fn is_parted(equals: usize, operations: &[TextOperation]) -> bool
    ensures { result ≡ is_parted equals operations.now }
{
    match operations {
        [TextOperation::Load(_, at), ..] => *at < equals && 1 < equals - *at,
        _ => false,
    }
}

fn signalling_flaws(
    alloc: Global,
    signals: &Scope,
    effect: &DraftEffect,
    found: &mut Items<Flaw>,
) -> Result<(), AllocError>
    ensures { OnOk result (found.new ≡ told_behind found.old (signalling_flaws signals.now.variables.now effect.now)) }
{
    let start = effect.value.start;
    let at = effect.variable.at;
    if start < at {
        return note_told(alloc, found, true, FaultKind::Grammar, start);
    }
    let is_signal = signals.variable(effect.variable.name).is_some();
    let is_wrong = differ(is_signal, start == at);
    note_told(alloc, found, is_wrong, FaultKind::Rule, at)
}

fn differ(one: bool, other: bool) -> bool
    ensures { result ≡ differ one other }
{
    if one { !other } else { other }
}
