//! Images as lines of JSON.

ghost use Rattle.command_files.specs.Counting.{files_failed};
ghost use Rattle.command_files.specs.Images.{FileLacksImage};
ghost use Rattle.command_texts.specs.Json.{IsJsonIn, IsJsonWithStates};
ghost use Rattle.image_charts.specs.Files.{FilesLackStates};
ghost use Rattle.image_listing.specs.Json.{image_json};
ghost use Rattle.std.specs.Prelude.{◌≡◌, ◌+◌, Some, IfErr, IfOk, OnOk, string_bytes};

use command_files::{Files, LoadFault, load_verified};
use image_charts::{ChartStates, load_states};
use image_listing::image_json;
use simulation::States;
use std::alloc::{AllocError, Global};
use verifier::Verified;

/// The image in this file as a line of JSON. Err: there is no valid image in the file.
pub(crate) fn json_in<F: Files>(
    alloc: Global,
    name: &str,
    files: &mut F,
) -> Result<Vec<u8>, LoadFault>
    ensures made { IfOk result (λ text. IsJsonIn (F.contents files.old) name.now text.items) }
    ensures lacks { IfErr result (FileLacksImage (F.contents files.old) name.now) }
    ensures same { F.contents files.new ≡ F.contents files.old }
    ensures none_failed { OnOk result (F.failures files.new ≡ F.failures files.old) }
    ensures failed { IfErr result (λ fault. F.failures files.new ≡ F.failures files.old + files_failed fault) }
{
    let image = load_verified(alloc, files, name)?;
    let text = image_json(alloc, image.get().image(), None)?;
    Ok(text.into_bytes())
}

// An image as a line of JSON, with the paths of these states.
fn json_with(alloc: Global, image: &Verified, states: &ChartStates) -> Result<String, AllocError>
    ensures { IfOk result (λ text. string_bytes text ≡ image_json (Some states.now.paths) image.now) }
{
    image_json(alloc, image.image(), Some(states.paths()))
}

/// The image in one file as a line of JSON, with the states of its chart, which is in the other. Err: there is no valid
/// image in the first file, or the second has not its chart.
pub(crate) fn json_with_states<F: Files>(
    alloc: Global,
    name: &str,
    chart: &str,
    files: &mut F,
) -> Result<Vec<u8>, LoadFault>
    ensures made { IfOk result (λ text. IsJsonWithStates (F.contents files.old) name.now chart.now text.items) }
    ensures lacks { IfErr result (FilesLackStates (F.contents files.old) name.now chart.now) }
    ensures same { F.contents files.new ≡ F.contents files.old }
    ensures none_failed { OnOk result (F.failures files.new ≡ F.failures files.old) }
    ensures failed { IfErr result (λ fault. F.failures files.new ≡ F.failures files.old + files_failed fault) }
{
    let (image, states) = load_states(alloc, name, chart, files)?;
    let text = json_with(alloc, image.get(), states.get())?;
    Ok(text.into_bytes())
}
