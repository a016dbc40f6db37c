//! The ticks that were played.

ghost use Rattle.std.specs.Prelude.{◌≡◌, ◌++◌, ◌∷◌, [], IfOk, OnOk, OnErr};
ghost use Rattle.simulation.specs.History.{behind, lines_text};

use sc_graph::Control;
use sqlite_items::Items;
use std::alloc::{AllocError, Global};

/// A tick that was played: the line that gave its inputs, and the configuration in which it ended.
#[derive(Drop)]
pub struct Played {
    pub line: Items<u8>,
    pub control: Control,
}

/// The configuration behind ticks from this one on.
#[tactic(auto, using(crate::proofs::Histories::last_behind, crate::proofs::Histories::none_behind))]
pub(crate) fn behind<'a>(first: &'a Control, ticks: &'a [Played]) -> &'a Control
    ensures { result.now ≡ behind first.now ticks.now }
{
    match ticks.last() {
        Some(tick) => &tick.control,
        None => first,
    }
}

/// Puts a tick behind others. Err: memory was refused, and they are as before.
pub(crate) fn push(
    alloc: Global,
    ticks: &mut Vec<Played>,
    line: &[u8],
    control: Control,
) -> Result<(), AllocError>
    ensures ok { OnOk result (ticks.new.items ≡ ticks.old.items ++ record { line = line.now; control = control } ∷ []) }
    ensures err { OnErr result (ticks.new.items ≡ ticks.old.items) }
{
    match Items::from_slice(alloc, line) {
        Ok(line) => Ok(ticks.push(Played { line, control })?),
        Err(error) => {
            drop(control);
            Err(error)
        }
    }
}

/// The lines of ticks, as a run reads them.
pub(crate) fn lines_of(alloc: Global, ticks: &[Played]) -> Result<Vec<u8>, AllocError>
    ensures { IfOk result (λ text. text.items ≡ lines_text ticks.now) }
{
    let mut text = Vec::new(alloc);
    for tick in ticks {
        text.extend_from_slice(tick.line.as_slice())?;
        text.push(b'\n')?;
    }
    Ok(text)
}
