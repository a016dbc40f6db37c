//! Rows about what the machine of a chart's table does.

use crate::answers::Answers;
use crate::charts::playing::Played;
use crate::charts::reading::chart_of;
use crate::charts::tables::{tell_standings, tell_table};
use crate::words::{Unanswered, halves};
use chart_machine::Configuration;
use core_charts::Chart;
use std::alloc::Global;

// Answers a row about a chart as it is played. A tick leads to another configuration.
fn answer_one(
    alloc: Global,
    played: &mut Played,
    c: &mut Configuration,
    row: &str,
    answers: &mut Answers,
) -> Result<(), Unanswered> {
    let (word, rest) = halves(row, ' ');
    match word {
        "tick" => played.tick(alloc, c, rest, answers)?,
        "order" => played.first(alloc, rest)?,
        "play" => played.play(alloc, c, rest, answers)?,
        "run" => played.run(alloc, c, rest, answers)?,
        "judge" => played.judged(alloc, c, rest, answers)?,
        "table" => tell_table(played.table(), answers),
        "standings" => tell_standings(c, answers),
        "again" => *c = played.initial(alloc)?,
        _ => return Err(Unanswered),
    }
    Ok(())
}

fn answer_all(
    alloc: Global,
    played: &mut Played,
    c: &mut Configuration,
    rows: &str,
    answers: &mut Answers,
) -> Result<(), Unanswered> {
    for row in rows.lines() {
        if !row.is_empty() {
            answer_one(alloc, played, c, row, answers)?;
            answers.tell("\n");
        }
    }
    Ok(())
}

// Answers rows about a chart as it is played, from before its first tick on.
fn answer_played(
    alloc: Global,
    played: Played,
    rows: &str,
    answers: &mut Answers,
) -> Result<(), Unanswered> {
    let mut played = played;
    let mut c = played.initial(alloc)?;
    answer_all(alloc, &mut played, &mut c, rows, answers)
}

// Answers the rows about a chart: those before a row `core` are about itself, those behind it about its core chart.
fn answer_of_chart(
    alloc: Global,
    chart: &Chart,
    rows: &str,
    answers: &mut Answers,
) -> Result<(), Unanswered> {
    let mut parts = rows.splitn(2, "core\n");
    if let Some(own) = parts.next() {
        answer_played(alloc, Played::of_chart(alloc, chart)?, own, answers)?;
    }
    if let Some(of_core) = parts.next() {
        answers.tell("core\n");
        answer_played(
            alloc,
            Played::of_core_chart(alloc, chart)?,
            of_core,
            answers,
        )?;
    }
    Ok(())
}

/// Answers all rows: each chart by its own text, and then the rows behind it. Err: a row means nothing, or memory was
/// refused.
pub(crate) fn answer(alloc: Global, text: &str, answers: &mut Answers) -> Result<(), Unanswered> {
    for part in text.split("\nchart ") {
        if !part.is_empty() {
            let (spelled, rows) = halves(part, '\n');
            let chart = chart_of(alloc, spelled)?;
            answers.tell("chart\n");
            answer_of_chart(alloc, &chart, rows, answers)?;
        }
    }
    Ok(())
}
