//! Listings of images with places in their sources.

ghost use Rattle.std.specs.Prelude.{◌≡◌, ◌+◌, IfErr, IfOk, OnOk};
ghost use Rattle.std.specs.Str.{IsUtf8};
ghost use Rattle.command_files.specs.Counting as files_count;
ghost use Rattle.command_texts.specs.Inside.Making.{StandsMaking, StandsWithout};
ghost use Rattle.command_texts.specs.Listing.{BytesLackPlaces, FilesLackPlaces, HasPlaces};
ghost use Rattle.compiler.specs.Graphs.{Makes};

use command_files::{
    Files, LoadFault, bytes_of, load_verified, makes_program, reduced_source, shown_name, text_of,
};
use node_sources::{image_text_with, image_text_with_author};
use std::alloc::Global;
use std::str;
use verifier::Verified;

// The text that these bytes are, which makes the program of an image. Err: they are no text, or it does not make that.
fn making_text<'a>(
    alloc: Global,
    image: &Verified,
    source: &str,
    bytes: &'a [u8],
) -> Result<&'a str, LoadFault>
    ensures text { IfOk result (λ _. IsUtf8 bytes.now) }
    ensures makes { IfOk result (λ _. Makes bytes.now image.now.program) }
    ensures fault { IfErr result (BytesLackPlaces source.now bytes.now image.now.program) }
    ensures missed { IfErr result (λ fault. files_count.files_failed fault ≡ 0) }
{
    let text = text_of(bytes)?;
    if !makes_program(alloc, text, image.image().program())? {
        return Err(LoadFault::Source(shown_name(alloc, source)?));
    }
    Ok(text)
}

// The listing of an image with the places of its nodes in the text that these bytes are, which those of the file of
// this name are. Err: they are no text, or it does not make the image.
fn placed(alloc: Global, image: &Verified, source: &str, bytes: &[u8]) -> Result<String, LoadFault>
    ensures text { IfOk result (λ _. IsUtf8 bytes.now) }
    ensures makes { IfOk result (λ _. Makes bytes.now image.now.program) }
    ensures fault { IfErr result (BytesLackPlaces source.now bytes.now image.now.program) }
    ensures missed { IfErr result (λ fault. files_count.files_failed fault ≡ 0) }
{
    let text = making_text(alloc, image, source, bytes)?;
    Ok(image_text_with(alloc, image, text)?)
}

// These bytes as text; none where they are no text.
fn text_in(bytes: &[u8]) -> &str {
    match str::from_utf8(bytes) {
        Ok(text) => text,
        Err(_) => "",
    }
}

// The same where the text of an extended chart is written in the file, and this is that of the chart to which it is
// reduced: the places are those in the text that is written.
fn placed_in_author(
    alloc: Global,
    image: &Verified,
    source: &str,
    reduced: &str,
    written: &[u8],
) -> Result<String, LoadFault>
    ensures text { IfOk result (λ _. IsUtf8 reduced.now) }
    ensures makes { IfOk result (λ _. Makes reduced.now image.now.program) }
    ensures fault { IfErr result (BytesLackPlaces source.now reduced.now image.now.program) }
    ensures missed { IfErr result (λ fault. files_count.files_failed fault ≡ 0) }
{
    making_text(alloc, image, source, reduced.as_bytes())?;
    Ok(image_text_with_author(alloc, image, text_in(written))?)
}

// The listing of an image with the places of its nodes in the text that these bytes are, which those of the file of
// this name are. Err: they stand for no source, or for one that does not make the image.
#[tactic(auto, using(crate::proofs::Placed::written_makes, crate::proofs::Placed::written_lacks, crate::proofs::Placed::reduced_makes, crate::proofs::Placed::reduced_lacks))]
fn placed_in(
    alloc: Global,
    image: &Verified,
    source: &str,
    written: &[u8],
) -> Result<String, LoadFault>
    ensures made { IfOk result (λ _. StandsMaking written.now image.now.program) }
    ensures lacks { IfErr result (StandsWithout source.now written.now image.now.program) }
    ensures missed { IfErr result (λ fault. files_count.files_failed fault ≡ 0) }
{
    match reduced_source(alloc, written)? {
        Some(reduced) => placed_in_author(alloc, image, source, reduced.as_str(), written),
        None => placed(alloc, image, source, written),
    }
}

/// The listing of the image in one file, with the place of each node in the text of another; of an extended chart in
/// its own text, and not in that of the chart to which it is reduced. Err: there is no valid image in the first file,
/// or no text in the second, or that does not make the image.
#[tactic(auto, using(crate::proofs::Placed::no_source, crate::proofs::Placed::places_there, crate::proofs::Placed::no_places))]
pub(crate) fn places_in<F: Files>(
    alloc: Global,
    name: &str,
    source: &str,
    files: &mut F,
) -> Result<Vec<u8>, LoadFault>
    ensures made { IfOk result (λ _. HasPlaces (F.contents files.old) name.now source.now) }
    ensures lacks { IfErr result (FilesLackPlaces (F.contents files.old) name.now source.now) }
    ensures same { F.contents files.new ≡ F.contents files.old }
    ensures none_failed { OnOk result (F.failures files.new ≡ F.failures files.old) }
    ensures failed { IfErr result (λ fault. F.failures files.new
        ≡ F.failures files.old + files_count.files_failed fault) }
{
    let image = load_verified(alloc, files, name)?;
    let written = bytes_of(alloc, files, source)?;
    let text = placed_in(alloc, image.get(), source, &written)?;
    Ok(text.into_bytes())
}
