//! Rows about what the images of charts do.

use crate::answers::Answers;
use crate::charts::reading::{chart_of, ticks, workers};
use crate::words::{Unanswered, halves};
use compiled_charts::{Compiled, RunFault, compile_chart};
use core_charts::Chart;
use sc_graph::Control;
use std::alloc::{AllocError, Global};
use std::sync::Wait;
use std::thread::Threads;

/// A chart as it is asked about: compiled, and how many variables it declares.
#[derive(Drop)]
struct Asked {
    compiled: Compiled,
    declared: usize,
}

// The active states in a configuration, each behind a space.
fn tell_active(
    alloc: Global,
    asked: &Asked,
    control: &Control,
    answers: &mut Answers,
) -> Result<(), AllocError> {
    let active = asked.compiled.active(alloc, control)?;
    for state in active.as_slice() {
        answers.tell_with(" ", *state as usize);
    }
    Ok(())
}

// The declared variables and the active states of each configuration, with `|` between them.
fn tell_controls(
    alloc: Global,
    asked: &Asked,
    controls: &[Control],
    answers: &mut Answers,
) -> Result<(), AllocError> {
    for (at, control) in controls.iter().enumerate() {
        if at > 0 {
            answers.tell(" | ");
        }
        answers.tell("values");
        answers.first_values(control.variables.as_slice(), asked.declared);
        answers.tell("; active");
        tell_active(alloc, asked, control, answers)?;
    }
    Ok(())
}

// Answers a row `run WORKERS: INPUTS; INPUTS; ..`.
fn answer_run<R: Threads + Wait + Sync>(
    rt: &R,
    alloc: Global,
    asked: &Asked,
    row: &str,
    answers: &mut Answers,
) -> Result<(), Unanswered> {
    let (count, given) = halves(row, ':');
    let count = workers(count)?;
    let ticks = ticks(alloc, given)?;
    match asked.compiled.run(rt, alloc, &ticks, count) {
        Ok(controls) => tell_controls(alloc, asked, controls.as_slice(), answers)?,
        Err(RunFault::Input(tick)) => {
            answers.tell("refused in tick ");
            answers.show(&tick);
        }
        Err(RunFault::Memory) => return Err(Unanswered),
    }
    Ok(())
}

// Answers the rows about a chart.
fn answer_rows<R: Threads + Wait + Sync>(
    rt: &R,
    alloc: Global,
    asked: &Asked,
    rows: &str,
    answers: &mut Answers,
) -> Result<(), Unanswered> {
    for row in rows.lines() {
        let (word, rest) = halves(row, ' ');
        if word == "run" {
            answer_run(rt, alloc, asked, rest, answers)?;
            answers.tell("\n");
        }
    }
    Ok(())
}

// Answers a chart and the rows about it.
fn answer_chart<R: Threads + Wait + Sync>(
    rt: &R,
    alloc: Global,
    chart: &Chart,
    rows: &str,
    answers: &mut Answers,
) -> Result<(), Unanswered> {
    match compile_chart(alloc, chart) {
        Ok(compiled) => {
            answers.tell("chart\n");
            let declared = chart.variables().len();
            answer_rows(rt, alloc, &Asked { compiled, declared }, rows, answers)
        }
        Err(fault) => {
            answers.show(&fault);
            answers.tell("\n");
            Ok(())
        }
    }
}

/// Answers all rows: each chart by `chart`, or why it has no image, and then the rows behind it. Err: a row means
/// nothing, or memory was refused.
pub(crate) fn answer<R: Threads + Wait + Sync>(
    rt: &R,
    alloc: Global,
    text: &str,
    answers: &mut Answers,
) -> Result<(), Unanswered> {
    for part in text.split("\nchart ") {
        if !part.is_empty() {
            let (spelled, rows) = halves(part, '\n');
            let chart = chart_of(alloc, spelled)?;
            answer_chart(rt, alloc, &chart, rows, answers)?;
        }
    }
    Ok(())
}
