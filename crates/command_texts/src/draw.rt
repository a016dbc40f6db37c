//! Drawings of charts and of graphs.

ghost use Rattle.std.specs.Prelude.{◌≡◌, ◌+◌, IfErr, IfOk, OnOk};
ghost use Rattle.command_files.specs.Counting as files_count;
ghost use Rattle.sc_text.specs.declared.language.Language.TheVariants as language;
ghost use Rattle.sc_text.specs.FirstToken.{IsIn};
ghost use Rattle.command_texts.specs.Drawing.{BytesLackDrawing, FileLacksDrawing, HasDrawing, HasDrawingIn};
ghost use Rattle.command_texts.specs.Drawing.{HasDrawnSource, LacksDrawnSource, TextLacksDrawing};
ghost use Rattle.std.specs.Str.{IsUtf8};

use chart_reader::read_chart;
use command_files::{Files, LoadFault, bytes_of, reduced_source, text_of};
use compiler::{CompileFault, scl_of_chart};
use core_charts::Chart;
use drawing::{chart_drawing, extended_drawing, graph_drawing};
use extended_reader::read_extended;
use sc_text::{Language, language_of};
use scl_graph::graph_of;
use scl_reader::read_scl;
use std::alloc::Global;
use std::str;

// The chart that a text spells, where it has an SCL program.
#[tactic(auto, using(crate::proofs::Drawn::no_scl))]
fn chart_to_draw(alloc: Global, text: &str) -> Result<Chart, LoadFault>
    requires { IsIn text.now language.Chart }
    ensures drawn { IfOk result (λ _. HasDrawing text.now) }
    ensures fault { IfErr result (TextLacksDrawing text.now) }
{
    let chart = match read_chart(alloc, text) {
        Ok(chart) => chart,
        Err(fault) => return Err(LoadFault::Text(fault)),
    };
    match scl_of_chart(alloc, &chart) {
        Ok(_) => Ok(chart),
        Err(fault) => Err(LoadFault::Program(fault)),
    }
}

// The drawing of the chart that a text spells.
fn draw_chart(alloc: Global, text: &str) -> Result<String, LoadFault>
    requires { IsIn text.now language.Chart }
    ensures drawn { IfOk result (λ _. HasDrawing text.now) }
    ensures fault { IfErr result (TextLacksDrawing text.now) }
{
    let chart = chart_to_draw(alloc, text)?;
    Ok(chart_drawing(alloc, &chart)?)
}

// The drawing of the graph of the program that a text spells.
#[tactic(auto, using(crate::proofs::Drawn::no_graph))]
fn draw_graph(alloc: Global, text: &str) -> Result<String, LoadFault>
    requires { IsIn text.now language.Scl }
    ensures drawn { IfOk result (λ _. HasDrawing text.now) }
    ensures fault { IfErr result (TextLacksDrawing text.now) }
{
    let scl = match read_scl(alloc, text) {
        Ok(scl) => scl,
        Err(fault) => return Err(LoadFault::Text(fault)),
    };
    match graph_of(alloc, &scl) {
        Ok(program) => Ok(graph_drawing(alloc, &scl.name, &program)?),
        Err(fault) => Err(LoadFault::Program(CompileFault::Graph(fault))),
    }
}

// The drawing of what a text spells, in the language that its first token tells.
fn draw_text(alloc: Global, text: &str) -> Result<String, LoadFault>
    ensures drawn { IfOk result (λ _. HasDrawing text.now) }
    ensures fault { IfErr result (TextLacksDrawing text.now) }
{
    match language_of(text) {
        Language::Chart => draw_chart(alloc, text),
        Language::Scl => draw_graph(alloc, text),
    }
}

// The drawing of what these bytes spell.
fn draw_bytes(alloc: Global, bytes: &[u8]) -> Result<String, LoadFault>
    ensures text { IfOk result (λ _. IsUtf8 bytes.now) }
    ensures drawn { IfOk result (λ _. HasDrawing bytes.now) }
    ensures fault { IfErr result (BytesLackDrawing bytes.now) }
    ensures missed { IfErr result (λ fault. files_count.files_failed fault ≡ 0) }
{
    let text = text_of(bytes)?;
    draw_text(alloc, text)
}

// The drawing of the extended chart that a text spells, where that of its reduced chart has one.
fn draw_author(alloc: Global, written: &str, reduced: &str) -> Result<String, LoadFault>
    requires { IsIn reduced.now language.Chart }
    ensures drawn { IfOk result (λ _. HasDrawing reduced.now) }
    ensures fault { IfErr result (TextLacksDrawing reduced.now) }
{
    drop(chart_to_draw(alloc, reduced)?);
    match read_extended(alloc, written) {
        Ok(chart) => Ok(extended_drawing(alloc, &chart)?),
        // it was read before, to be reduced, and so has no other fault
        Err(_) => Err(LoadFault::Memory),
    }
}

// The drawing of the extended chart that a text spells, which is reduced to this one.
fn draw_extended(alloc: Global, written: &str, reduced: &str) -> Result<String, LoadFault>
    ensures drawn { IfOk result (λ _. HasDrawing reduced.now) }
    ensures fault { IfErr result (TextLacksDrawing reduced.now) }
{
    match language_of(reduced) {
        Language::Chart => draw_author(alloc, written, reduced),
        Language::Scl => draw_graph(alloc, reduced),
    }
}

// The drawing of the extended chart that these bytes spell, which is reduced to the text that those are.
fn draw_reduced(alloc: Global, written: &[u8], reduced: &[u8]) -> Result<String, LoadFault>
    requires { IsUtf8 written.now }
    ensures text { IfOk result (λ _. IsUtf8 reduced.now) }
    ensures drawn { IfOk result (λ _. HasDrawing reduced.now) }
    ensures fault { IfErr result (BytesLackDrawing reduced.now) }
    ensures missed { IfErr result (λ fault. files_count.files_failed fault ≡ 0) }
{
    let reduced = text_of(reduced)?;
    match str::from_utf8(written) {
        Ok(written) => draw_extended(alloc, written, reduced),
        Err(_) => unreachable!(),
    }
}

// The drawing of what is written, where the source for which it stands has one.
#[tactic(auto, using(crate::proofs::Sourced::is_text, crate::proofs::Sourced::written_drawn, crate::proofs::Sourced::reduced_drawn, crate::proofs::Sourced::written_undrawn, crate::proofs::Sourced::reduced_undrawn))]
fn draw_written(alloc: Global, written: &[u8]) -> Result<String, LoadFault>
    ensures drawn { IfOk result (λ _. HasDrawnSource written.now) }
    ensures fault { IfErr result (LacksDrawnSource written.now) }
    ensures missed { IfErr result (λ fault. files_count.files_failed fault ≡ 0) }
{
    match reduced_source(alloc, written)? {
        Some(reduced) => draw_reduced(alloc, written, reduced.as_bytes()),
        None => draw_bytes(alloc, written),
    }
}

/// The drawing of the chart in this file, an extended one as it is written, or of the graph of the SCL text in it, as
/// Graphviz text. Err: there is no program in the file, or its text is SCL and has no graph.
#[tactic(auto, using(crate::proofs::Sourced::drawn_in, crate::proofs::Sourced::none_drawn_in))]
pub(crate) fn drawing_in<F: Files>(
    alloc: Global,
    name: &str,
    files: &mut F,
) -> Result<Vec<u8>, LoadFault>
    ensures made { IfOk result (λ _. HasDrawingIn (F.contents files.old) name.now) }
    ensures lacks { IfErr result (FileLacksDrawing (F.contents files.old) name.now) }
    ensures same { F.contents files.new ≡ F.contents files.old }
    ensures none_failed { OnOk result (F.failures files.new ≡ F.failures files.old) }
    ensures failed { IfErr result (λ fault. F.failures files.new
        ≡ F.failures files.old + files_count.files_failed fault) }
{
    let bytes = bytes_of(alloc, files, name)?;
    let text = draw_written(alloc, &bytes)?;
    Ok(text.into_bytes())
}
