//! The text of the core chart of a chart.

ghost use Rattle.std.specs.Prelude.{◌≡◌, IfErr, IfOk, MatchBool, option_map, string_bytes};
ghost use Rattle.abort_expansion.specs.Answers.{LacksCore};
ghost use Rattle.chart_reader.specs.Read.{IsRead};
ghost use Rattle.chart_texts.specs.CoreText.{Answers, Spells};

use crate::printer::{are_same_charts, chart_of_core, chart_text};
use abort_expansion::{ExpandFault, expand};
use chart_reader::read_chart;
use core_charts::Chart;
use sc_text::ReadFault;
use std::alloc::{AllocError, Global};

// Whether a text spells this chart.
#[tactic(auto, using(crate::proofs::Spelling::is_spelled))]
fn spells(alloc: Global, text: &str, chart: &Chart) -> Result<bool, AllocError>
    ensures { IfOk result (λ yes. MatchBool yes (IsRead text.now chart.now) (¬ IsRead text.now chart.now)) }
{
    match read_chart(alloc, text) {
        Ok(read) => Ok(are_same_charts(&read, chart)),
        Err(ReadFault::Memory) => Err(AllocError),
        Err(ReadFault::Text(_, _)) => Ok(false),
    }
}

/// The text of a chart, laid out. It is read again before it is given, and spells that chart. None: it does not, so the
/// chart breaks a rule of charts. Err: memory was refused.
pub fn text_that_spells(alloc: Global, chart: &Chart) -> Result<Option<String>, AllocError>
    ensures { IfOk result (λ text. Spells chart.now (option_map string_bytes text)) }
{
    let text = chart_text(alloc, chart)?;
    if spells(alloc, text.as_str(), chart)? {
        Ok(Some(text))
    } else {
        Ok(None)
    }
}

/// The text of the core chart of a chart, in which names that begin with `_` have a word in front. It is read again
/// before it is given, and spells that chart. None: the core chart breaks a rule or a limit of chart text, which has
/// fewer regions in a superstate, and limits of states, transitions and effects; or its text laid out does not spell
/// it. Err: with the variables that expansion adds the chart has more than a program may; or memory was refused.
#[tactic(auto, using(crate::proofs::Spelling::core_spelled, crate::proofs::Spelling::core_unfit))]
pub fn core_text(alloc: Global, chart: &Chart) -> Result<Option<String>, ExpandFault>
    ensures text { IfOk result (λ text. Answers chart.now (option_map string_bytes text)) }
    ensures fault { IfErr result (LacksCore chart.now) }
{
    let (core, _) = expand(alloc, chart)?;
    match chart_of_core(alloc, &core)? {
        Some(shown) => Ok(text_that_spells(alloc, &shown)?),
        None => Ok(None),
    }
}
