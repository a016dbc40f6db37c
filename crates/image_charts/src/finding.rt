//! Whether a source is the one that an image was compiled from.

ghost use Rattle.std.specs.Prelude.{◌≡◌, ◌↔◌, IfErr, IfOk, IsTrue};
ghost use Rattle.std.specs.Str.{IsUtf8};
ghost use Rattle.chart_reader.specs.Read.{IsRead};
ghost use Rattle.image_charts.specs.Charts.{IsNotChartOf, SpellsNoChart};
ghost use Rattle.image_charts.specs.Inside.Beside.{Differ, LacksIt, TellsOfChart};
ghost use Rattle.image_charts.specs.Written.{TellsOf};

use crate::states::ChartStates;
use author_states::AuthorStates;
use bytecode::{Image, encode};
use chart_reader::read_chart;
use command_files::{LoadFault, shown_name};
use compiled_charts::compile_chart;
use core_charts::Chart;
use sc_text::{FaultKind, ReadFault};
use std::alloc::{AllocError, Global};
use std::str;
use verifier::Verified;

/// The chart that these bytes spell as text. Err: they are no text (E01 at its first place), or the text spells no
/// chart.
pub fn chart_in(alloc: Global, bytes: &[u8]) -> Result<Chart, ReadFault>
    ensures text { IfOk result (λ _. IsUtf8 bytes.now) }
    ensures read { IfOk result (IsRead bytes.now) }
    ensures fault { IfErr result (SpellsNoChart bytes.now) }
{
    match str::from_utf8(bytes) {
        Ok(text) => read_chart(alloc, text),
        Err(_) => Err(ReadFault::Text(FaultKind::Token, 0)),
    }
}

// Whether two images are the same: whether the same bytes spell them.
fn are_same(alloc: Global, image: &Image, other: &Image) -> Result<bool, AllocError>
    ensures { IfOk result (λ same. IsTrue same ↔ (image.now ≡ other.now)) }
{
    let bytes = encode(alloc, image)?;
    let others = encode(alloc, other)?;
    Ok(bytes.as_slice() == others.as_slice())
}

// Compares two images. Err: they are not the same, which is told of the file of this name.
fn compare(alloc: Global, name: &str, image: &Image, other: &Image) -> Result<(), LoadFault>
    ensures same { IfOk result (λ _. image.now ≡ other.now) }
    ensures fault { IfErr result (Differ name.now image.now other.now) }
{
    if !are_same(alloc, image, other)? {
        return Err(LoadFault::Source(shown_name(alloc, name)?));
    }
    Ok(())
}

// What is told of a chart where this is its image: its states, or those of the author of an extended chart which is
// reduced to it. Err: it has no image, or another one.
#[tactic(auto, using(crate::proofs::Found::tells_of_chart, crate::proofs::Found::differ))]
fn beside(
    alloc: Global,
    name: &str,
    chart: &Chart,
    image: &Verified,
    authors: Option<AuthorStates>,
) -> Result<ChartStates, LoadFault>
    ensures found { IfOk result (TellsOfChart chart.now image.now authors) }
    ensures fault { IfErr result (LacksIt name.now chart.now image.now) }
{
    let compiled = match compile_chart(alloc, chart) {
        Ok(compiled) => compiled,
        Err(fault) => {
            drop(authors);
            return Err(LoadFault::Program(fault));
        }
    };
    match compare(alloc, name, compiled.image().image(), image.image()) {
        Ok(()) => Ok(ChartStates::of(alloc, chart, compiled, authors)?),
        Err(fault) => {
            drop(compiled);
            drop(authors);
            Err(fault)
        }
    }
}

/// What is told of the chart that this source spells, which is of the file of this name, where this is its image: its
/// states, or those of the author of an extended chart which is reduced to it. Err: the bytes are no text (E01 at its
/// first place); the text spells no chart, or one that has no image; or the chart has another image.
#[tactic(auto, using(crate::proofs::Found::tells_of, crate::proofs::Found::lacks))]
pub(crate) fn chart_of(
    alloc: Global,
    name: &str,
    source: &[u8],
    image: &Verified,
    authors: Option<AuthorStates>,
) -> Result<ChartStates, LoadFault>
    ensures found { IfOk result (TellsOf source.now image.now authors) }
    ensures fault { IfErr result (IsNotChartOf name.now source.now image.now) }
{
    let chart = match chart_in(alloc, source) {
        Ok(chart) => chart,
        Err(fault) => {
            drop(authors);
            return Err(LoadFault::Text(fault));
        }
    };
    beside(alloc, name, &chart, image, authors)
}
