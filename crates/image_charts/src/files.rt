//! The text beside an image, and both in files.

ghost use Rattle.std.specs.Prelude.{◌≡◌, ◌+◌, ◌↔◌, IfErr, IfNone, IfOk, IfSome, IsTrue, OnOk, Some, string_bytes};
ghost use Rattle.command_files.specs.Counting.{files_failed};
ghost use Rattle.image_charts.specs.Charts.{IsNotChartOf};
ghost use Rattle.image_charts.specs.Files.{FilesLackStates, HasStates};
ghost use Rattle.image_charts.specs.Written.{HasNoChart, IsNoTextBeside, IsTextBeside, TellsOf};

use crate::finding::chart_of;
use crate::states::ChartStates;
use author_states::{AuthorStates, Authored, authored_source};
use chart_texts::begins_extended;
use command_files::{Files, LoadFault, bytes_of, load_verified};
use sc_text::{Language, language_of};
use sqlite_items::Boxed;
use std::alloc::Global;
use std::str;
use verifier::Verified;

// What is told of the chart that this source spells, in a box, where this is its image.
fn boxed_states(
    alloc: Global,
    name: &str,
    source: &[u8],
    image: &Verified,
    authors: Option<AuthorStates>,
) -> Result<Boxed<ChartStates>, LoadFault>
    ensures found { IfOk result (TellsOf source.now image.now authors) }
    ensures lacks { IfErr result (IsNotChartOf name.now source.now image.now) }
{
    let states = chart_of(alloc, name, source, image, authors)?;
    Ok(Boxed::new(alloc, states)?)
}

// What is told of the author of an extended chart, where this is the image of the chart to which that is reduced.
fn authored_states(
    alloc: Global,
    name: &str,
    authored: Authored,
    image: &Verified,
) -> Result<Boxed<ChartStates>, LoadFault>
    ensures found { IfOk result (TellsOf (string_bytes authored.source) image.now (Some authored.states)) }
    ensures lacks { IfErr result (IsNotChartOf name.now (string_bytes authored.source) image.now) }
{
    let Authored { source, states } = authored;
    boxed_states(alloc, name, source.as_bytes(), image, Some(states))
}

// The states that the author of this text of a chart, or of an extended chart, wrote, where this is its image.
#[tactic(auto, using(crate::proofs::Texts::own_text, crate::proofs::Texts::extended_text, crate::proofs::Texts::not_own, crate::proofs::Texts::not_extended, crate::proofs::Texts::quiet))]
fn text_states(
    alloc: Global,
    name: &str,
    written: &[u8],
    image: &Verified,
) -> Result<Boxed<ChartStates>, LoadFault>
    ensures found { IfOk result (IsTextBeside written.now image.now) }
    ensures lacks { IfErr result (IsNoTextBeside name.now written.now image.now) }
    ensures missed { IfErr result (λ fault. files_failed fault ≡ 0) }
{
    match authored_source(alloc, written)? {
        Some(authored) => authored_states(alloc, name, authored, image),
        None => boxed_states(alloc, name, written, image, None),
    }
}

// Whether these bytes are no text, or one of SCL, which has no states.
fn has_no_chart(written: &[u8]) -> bool
    ensures { IsTrue result ↔ HasNoChart written.now }
{
    if begins_extended(written) {
        return false;
    }
    match str::from_utf8(written) {
        Ok(text) => match language_of(text) {
            Language::Scl => true,
            Language::Chart => false,
        },
        Err(_) => true,
    }
}

/// The states that its author wrote in what is written in the file of this name, of which this is the image: those of
/// a chart, and of an extended chart not those of the chart to which it is reduced. None exactly where it is no text,
/// or one of SCL, which has no states. Err: it is not the text of the image; or memory was refused.
pub fn states_in(
    alloc: Global,
    name: &str,
    written: &[u8],
    image: &Verified,
) -> Result<Option<Boxed<ChartStates>>, LoadFault>
    ensures found { IfOk result (λ states. IfSome states (IsTextBeside written.now image.now)) }
    ensures none { IfOk result (λ states. IfNone states (HasNoChart written.now)) }
    ensures only { IfOk result (λ states. IfSome states (λ _. ¬ HasNoChart written.now)) }
    ensures lacks { IfErr result (IsNoTextBeside name.now written.now image.now) }
    ensures refused { IfErr result (λ _. ¬ HasNoChart written.now) }
    ensures missed { IfErr result (λ fault. files_failed fault ≡ 0) }
{
    if has_no_chart(written) {
        return Ok(None);
    }
    Ok(Some(text_states(alloc, name, written, image)?))
}

/// The image in one file, and the states that its author wrote in the text in the other, from which it was compiled,
/// each in a box. Err: there is no valid image in the first file, or the second has not its text.
#[tactic(auto, using(crate::proofs::Loading::no_image, crate::proofs::Loading::unread, crate::proofs::Loading::another_behind, crate::proofs::Loading::has_states))]
pub fn load_states<F: Files>(
    alloc: Global,
    name: &str,
    chart: &str,
    files: &mut F,
) -> Result<(Boxed<Verified>, Boxed<ChartStates>), LoadFault>
    ensures loaded { IfOk result (λ r. HasStates (F.contents files.old) name.now chart.now r.0 r.1) }
    ensures lacks { IfErr result (FilesLackStates (F.contents files.old) name.now chart.now) }
    ensures same { F.contents files.new ≡ F.contents files.old }
    ensures none_failed { OnOk result (F.failures files.new ≡ F.failures files.old) }
    ensures failed { IfErr result (λ fault. F.failures files.new
        ≡ F.failures files.old + files_failed fault) }
{
    let image = load_verified(alloc, files, name)?;
    let written = bytes_of(alloc, files, chart)?;
    let states = text_states(alloc, chart, &written, image.get())?;
    Ok((image, states))
}
