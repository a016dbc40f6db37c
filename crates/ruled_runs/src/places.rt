//! Where a run begins, and where its place is kept.

ghost use Rattle.std.specs.Prelude.{◌≡◌, ◌+◌, IfErr, IfOk, OnErr, OnOk, Some, option_map};
ghost use Rattle.command_files.specs.Counting as files_count;
ghost use Rattle.sc_graph.specs.Tick.{Rests};
ghost use Rattle.ruled_runs.specs.Failing.{files_failed};
ghost use Rattle.ruled_runs.specs.Places.{BeginsIn, IsKept, IsNotKept, LacksPlaceIn};

use crate::controls::{Saved, SavedFault, control_in, control_text};
use crate::fault::RuledFault;
use crate::traces::RunPlace;
use command_files::{Files, LoadFault, shown_name, store};
use sc_graph::Program;
use std::alloc::Global;

/// The place that these bytes of the file of this name hold, at which the program can go on.
pub(crate) fn held_place(
    alloc: Global,
    program: &Program,
    name: &str,
    bytes: &[u8],
) -> Result<RunPlace, RuledFault>
    ensures begins { IfOk result (BeginsIn bytes.now) }
    ensures rests { IfOk result (λ place. Rests program.now place.control) }
    ensures lacks { IfErr result (LacksPlaceIn bytes.now program.now name.now) }
    ensures missed { IfErr result (λ fault. files_failed fault ≡ 0) }
{
    match control_in(alloc, program, bytes) {
        Ok(saved) => {
            let Saved { ticks, control } = saved;
            Ok(RunPlace {
                lines: 0,
                ticks,
                control,
            })
        }
        Err(SavedFault::Memory) => Err(RuledFault::Files(LoadFault::Memory)),
        Err(SavedFault::Unfit) => Err(RuledFault::Place(shown_name(alloc, name)?)),
    }
}

// Makes a text of a place the file of this name.
fn store_place<F: Files>(
    alloc: Global,
    files: &mut F,
    name: &str,
    place: &RunPlace,
) -> Result<(), LoadFault>
    ensures kept { OnOk result (IsKept (F.contents files.old) (F.contents files.new) (Some name.now) place.now) }
    ensures fault { IfErr result (IsNotKept (Some name.now)) }
    ensures same { OnErr result (F.contents files.new ≡ F.contents files.old) }
    ensures none_missed { OnOk result (F.failures files.new ≡ F.failures files.old) }
    ensures missed { IfErr result (λ fault. F.failures files.new
        ≡ F.failures files.old + files_count.files_failed fault) }
{
    let text = control_text(alloc, place.ticks, &place.control)?;
    store(alloc, files, name, text.as_bytes())
}

/// Keeps a place in a file, where one is named. Err: the file could not be written, and then no file changed.
pub(crate) fn keep_place<F: Files>(
    alloc: Global,
    files: &mut F,
    save: Option<&str>,
    place: &RunPlace,
) -> Result<(), LoadFault>
    ensures kept { OnOk result (IsKept (F.contents files.old) (F.contents files.new)
        (option_map (λ name. name.now) save.entry) place.now) }
    ensures fault { IfErr result (IsNotKept (option_map (λ name. name.now) save.entry)) }
    ensures same { OnErr result (F.contents files.new ≡ F.contents files.old) }
    ensures none_missed { OnOk result (F.failures files.new ≡ F.failures files.old) }
    ensures missed { IfErr result (λ fault. F.failures files.new
        ≡ F.failures files.old + files_count.files_failed fault) }
{
    match save {
        Some(name) => store_place(alloc, files, name, place),
        None => Ok(()),
    }
}
