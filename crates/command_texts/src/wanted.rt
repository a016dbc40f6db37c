//! What a request for one text gives.

ghost use Rattle.command_files.specs.Counting.{files_failed};
ghost use Rattle.command_texts.specs.Wanted.{IsMadeFor, LacksWanted};
ghost use Rattle.command_words.specs.Request.{wanted_seen};
ghost use Rattle.std.specs.Prelude.{◌≡◌, ◌+◌, IfErr, IfOk, OnOk};

use crate::draw::drawing_in;
use crate::images::migrated_in;
use crate::json::{json_in, json_with_states};
use crate::list::listing_in;
use crate::list_places::places_in;
use crate::print_core::core_in;
use crate::print_reduced::reduced_in;
use crate::summary::summary_in;
use command_files::{Files, LoadFault};
use command_words::Wanted;
use std::alloc::Global;

/// What is wanted of files: a text, or the bytes of an image. Err: why there is none. No file changes.
pub fn made_for<F: Files>(
    alloc: Global,
    wanted: Wanted<'_>,
    files: &mut F,
) -> Result<Vec<u8>, LoadFault>
    ensures made { IfOk result (λ text. IsMadeFor (F.contents files.old) (wanted_seen wanted.entry) text.items) }
    ensures lacks { IfErr result (LacksWanted (F.contents files.old) (wanted_seen wanted.entry)) }
    ensures same { F.contents files.new ≡ F.contents files.old }
    ensures none_failed { OnOk result (F.failures files.new ≡ F.failures files.old) }
    ensures failed { IfErr result (λ fault. F.failures files.new ≡ F.failures files.old + files_failed fault) }
{
    match wanted {
        Wanted::Summary(name) => summary_in(alloc, name, files),
        Wanted::Core(name) => core_in(alloc, name, files),
        Wanted::Reduced(name) => reduced_in(alloc, name, files),
        Wanted::Nodes(name) => listing_in(alloc, name, files),
        Wanted::Places(name, source) => places_in(alloc, name, source, files),
        Wanted::Json(name) => json_in(alloc, name, files),
        Wanted::JsonWithStates(name, chart) => json_with_states(alloc, name, chart, files),
        Wanted::Drawing(name) => drawing_in(alloc, name, files),
        Wanted::Migrated(name) => migrated_in(alloc, name, files),
    }
}
