//! What a source text is read into on the way to its SCL program.

ghost use Rattle.std.specs.Prelude.{◌≡◌, IfErr, IfOk};
ghost use Rattle.abort_expansion.specs.Answers.{LacksCore};
ghost use Rattle.abort_expansion.specs.Expansion.{expanded};
ghost use Rattle.compiler.specs.Charts.{IsSclOf};
ghost use Rattle.sc_text.specs.declared.language.Language.TheVariants as language;
ghost use Rattle.sc_text.specs.FirstToken.{IsIn};
ghost use Rattle.compiler.specs.Kept.{Keeps, KeepsChart, KeepsDraft};
ghost use Rattle.compiler.specs.Programs.{LacksProgram};

use crate::sources::fault::SourceFault;
use abort_expansion::{ExpandFault, expand};
use chart_lowering::lower;
use chart_reader::{DraftChart, chart_of};
use core_charts::{Chart, CoreChart};
use sc_text::{Language, language_of};
use scl::Scl;
use scl_reader::{Draft, program_of};
use std::alloc::Global;

/// The draft of a chart's text, the chart that it spells, and the core chart of that.
#[derive(Drop)]
pub struct ReadChart {
    pub draft: DraftChart,
    pub chart: Chart,
    pub core: CoreChart,
}

/// What a source text is read into: a chart, or the draft of an SCL program.
#[derive(Drop)]
pub enum ReadText {
    Chart(ReadChart),
    Scl(Draft),
}

// The core chart of a chart, and its SCL program. Err: it has none; or memory was refused.
#[tactic(auto, using(crate::proofs::Charts::lowering_of))]
fn lowered(alloc: Global, chart: &Chart) -> Result<(CoreChart, Scl), ExpandFault>
    ensures made { IfOk result (λ made. (made.0 ≡ expanded chart.now) × IsSclOf chart.now made.1) }
    ensures none { IfErr result (LacksCore chart.now) }
{
    let (core, _states) = expand(alloc, chart)?;
    // It keeps the rules of core charts.
    let _regions = core.regions();
    let scl = lower(alloc, &core)?;
    Ok((core, scl))
}

// A text of a chart, and its SCL program. Err: its fault, or that its chart has no core chart; or memory was refused.
#[tactic(auto, using(chart_reader::proofs::Reading::unflawed, chart_reader::proofs::Reading::shaped, crate::proofs::Spelling::faulty_chart, crate::proofs::Spelling::no_core, crate::proofs::Spelling::no_memory))]
fn read_as_chart(alloc: Global, text: &str) -> Result<(ReadChart, Scl), SourceFault>
    requires { IsIn text.now language.Chart }
    ensures kept { IfOk result (λ made. KeepsChart text.now made.1 made.0) }
    ensures fault { IfErr result (LacksProgram text.now) }
{
    let draft = chart_reader::read_checked(alloc, text)?;
    let chart = chart_of(alloc, &draft)?;
    let (core, scl) = lowered(alloc, &chart)?;
    Ok((ReadChart { draft, chart, core }, scl))
}

// A text of SCL, and its program. Err: its fault; or memory was refused.
#[tactic(auto, using(scl_reader::proofs::Reading::unflawed, scl_reader::proofs::Reading::shaped, crate::proofs::Spelling::faulty_scl, crate::proofs::Spelling::no_memory))]
fn read_as_scl(alloc: Global, text: &str) -> Result<(Draft, Scl), SourceFault>
    requires { IsIn text.now language.Scl }
    ensures kept { IfOk result (λ made. KeepsDraft text.now made.1 made.0) }
    ensures fault { IfErr result (LacksProgram text.now) }
{
    let draft = scl_reader::read_checked(alloc, text)?;
    let scl = program_of(alloc, &draft)?;
    Ok((draft, scl))
}

/// A text as it is read in the language that its first token tells, and its SCL program. Err: it spells none; or memory
/// was refused.
pub(crate) fn read_in_language(alloc: Global, text: &str) -> Result<(ReadText, Scl), SourceFault>
    ensures kept { IfOk result (λ made. Keeps text.now made.1 made.0) }
    ensures fault { IfErr result (LacksProgram text.now) }
{
    match language_of(text) {
        Language::Chart => {
            let (chart, scl) = read_as_chart(alloc, text)?;
            Ok((ReadText::Chart(chart), scl))
        }
        Language::Scl => {
            let (draft, scl) = read_as_scl(alloc, text)?;
            Ok((ReadText::Scl(draft), scl))
        }
    }
}
