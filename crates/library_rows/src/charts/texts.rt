//! What is told of a text: the places of its elements, the text laid out, and its core chart.

use crate::answers::Answers;
use crate::charts::reducing::{is_extended, tell_extended};
use abort_expansion::{ExpandFault, StateMap, expand};
use chart_texts::{chart_text, core_text};
use core_charts::Chart;
use node_sources::{Placed, Places, read_placed};
use sc_text::ReadFault;
use std::alloc::{AllocError, Global};

// A line of places, each behind a space.
fn tell_places(answers: &mut Answers, word: &str, places: &[usize]) {
    answers.tell(word);
    answers.numbers(places);
    answers.tell("\n");
}

// A line for the chart, and one for each sort of elements.
fn tell_all_places(answers: &mut Answers, places: &Places) {
    let rows = &places.rows;
    tell_places(answers, "chart", &[places.chart]);
    tell_places(answers, "regions", rows.regions.as_slice());
    tell_places(answers, "states", rows.states.as_slice());
    tell_places(answers, "transitions", rows.transitions.as_slice());
    tell_places(answers, "effects", rows.effects.as_slice());
}

// For which state of the chart each of its core chart stands, behind a space: its number, or `-`.
fn tell_map(answers: &mut Answers, map: &StateMap) {
    answers.tell("stand");
    for state in map.states.as_slice() {
        match state {
            Some(number) => answers.tell_with(" ", *number as usize),
            None => answers.tell(" -"),
        }
    }
    answers.tell("\n");
}

// A line of the states for which those of the core chart stand. Err: there is none, or memory was refused.
fn tell_states(alloc: Global, answers: &mut Answers, chart: &Chart) -> Result<(), ExpandFault> {
    let (_core, map) = expand(alloc, chart)?;
    tell_map(answers, &map);
    Ok(())
}

// The text of the core chart, or a line that there is none.
fn tell_core(alloc: Global, answers: &mut Answers, chart: &Chart) -> Result<(), AllocError> {
    match core_text(alloc, chart) {
        Ok(Some(text)) => {
            answers.tell("core\n");
            answers.tell(text.as_str());
        }
        Ok(None) => answers.tell("no core text\n"),
        Err(ExpandFault::Limit) => answers.tell("no core chart\n"),
        Err(ExpandFault::Memory) => return Err(AllocError),
    }
    Ok(())
}

// The text of a chart, laid out.
fn tell_laid_out(alloc: Global, answers: &mut Answers, chart: &Chart) -> Result<(), AllocError> {
    let text = chart_text(alloc, chart)?;
    answers.tell("text\n");
    answers.tell(text.as_str());
    Ok(())
}

fn tell_placed(alloc: Global, answers: &mut Answers, placed: &Placed) -> Result<(), AllocError> {
    tell_all_places(answers, &placed.places);
    tell_laid_out(alloc, answers, &placed.chart)?;
    match tell_states(alloc, answers, &placed.chart) {
        Err(ExpandFault::Memory) => Err(AllocError),
        Ok(()) | Err(ExpandFault::Limit) => tell_core(alloc, answers, &placed.chart),
    }
}

// What is told of one text.
fn tell(alloc: Global, answers: &mut Answers, text: &str) -> Result<(), AllocError> {
    if is_extended(text) {
        return tell_extended(alloc, answers, text);
    }
    match read_placed(alloc, text) {
        Ok(placed) => tell_placed(alloc, answers, &placed),
        Err(ReadFault::Memory) => Err(AllocError),
        Err(fault) => {
            answers.show(&fault);
            answers.tell("\n");
            Ok(())
        }
    }
}

/// Answers all texts, between which, and behind the last one, stands a line `---`. It stands behind each answer too.
/// Err: memory was refused.
pub(crate) fn answer(alloc: Global, texts: &str, answers: &mut Answers) -> Result<(), AllocError> {
    for text in texts.split("\n---\n") {
        if !text.is_empty() {
            tell(alloc, answers, text)?;
            answers.tell("---\n");
        }
    }
    Ok(())
}
