//! Rows, each answered by a line.

use crate::answers::Answers;
use crate::charts::answer_part;
use crate::codes::tell_code;
use crate::counts::tell_counts;
use crate::images::{decoded, verified};
use crate::names::tell_name;
use crate::operators::tell_operator;
use crate::programs::{control, tell_program};
use crate::queues::tell_queue;
use crate::telling::tell_control;
use crate::ticks::{tell_judgement, tick};
use crate::words::{Unanswered, halves};
use bytecode::Image;
use sc_graph::Control;
use std::alloc::Global;
use std::sync::Wait;
use std::thread::Threads;
use verifier::Verified;

// Acts on a queue with as many places as this image has threads, given as `IMAGE: ACTS`.
fn in_queue<R: Wait>(
    rt: &R,
    alloc: Global,
    image: &Verified,
    words: &str,
    answers: &mut Answers,
) -> Result<(), Unanswered> {
    let (spelled, acts) = halves(words, ':');
    let narrow = verified(alloc, spelled)?;
    tell_queue(rt, alloc, image, narrow.get(), acts, answers)
}

// Answers a row about a valid image. A tick leads to another configuration.
fn answer_one<R: Wait>(
    rt: &R,
    alloc: Global,
    image: &Verified,
    present: &mut Control,
    row: &str,
    answers: &mut Answers,
) -> Result<(), Unanswered> {
    let (word, rest) = halves(row, ' ');
    match word {
        "tick" => tick(alloc, image, present, rest, answers)?,
        "stand" => *present = control(alloc, rest)?,
        "judge" => tell_judgement(alloc, image, present, rest, answers)?,
        "present" => tell_control(answers, present),
        "budget" => {
            answers.tell(" ");
            answers.show(&image.image().tables().budget);
        }
        "queue" => in_queue(rt, alloc, image, rest, answers)?,
        _ => tell_program(alloc, image.image().program(), row, answers)?,
    }
    Ok(())
}

// Answers rows about a valid image, from before its first tick on.
fn answer_of_image<R: Wait>(
    rt: &R,
    alloc: Global,
    image: &Verified,
    rows: &str,
    answers: &mut Answers,
) -> Result<(), Unanswered> {
    let mut present = Control::initial(alloc, image.image().program())?;
    for row in rows.lines() {
        if !row.is_empty() {
            answer_one(rt, alloc, image, &mut present, row, answers)?;
            answers.tell("\n");
        }
    }
    Ok(())
}

// Answers rows about the program of an image, whatever rule that breaks.
fn answer_of_program(
    alloc: Global,
    image: &Image,
    rows: &str,
    answers: &mut Answers,
) -> Result<(), Unanswered> {
    for row in rows.lines() {
        if !row.is_empty() {
            tell_program(alloc, image.program(), row, answers)?;
            answers.tell("\n");
        }
    }
    Ok(())
}

// Answers rows about names, operators, codes and counts.
fn answer_of_values(alloc: Global, rows: &str, answers: &mut Answers) -> Result<(), Unanswered> {
    for row in rows.lines() {
        if !row.is_empty() {
            tell_of_values(alloc, row, answers)?;
            answers.tell("\n");
        }
    }
    Ok(())
}

fn tell_of_values(alloc: Global, row: &str, answers: &mut Answers) -> Result<(), Unanswered> {
    if tell_operator(row, answers)?
        || tell_name(alloc, row, answers)?
        || tell_code(alloc, row, answers)?
        || tell_counts(alloc, row, answers)?
    {
        Ok(())
    } else {
        Err(Unanswered)
    }
}

// Answers rows behind an image: `IMAGE`, which is valid, or `of any IMAGE`; or rows of `none`.
fn answer_behind<R: Wait>(
    rt: &R,
    alloc: Global,
    part: &str,
    answers: &mut Answers,
) -> Result<(), Unanswered> {
    let (spelled, rows) = halves(part, '\n');
    if spelled == "none" {
        return answer_of_values(alloc, rows, answers);
    }
    match spelled.strip_prefix("of any ") {
        Some(spelled) => {
            let image = decoded(alloc, spelled)?;
            answer_of_program(alloc, image.get(), rows, answers)
        }
        None => {
            let image = verified(alloc, spelled)?;
            answer_of_image(rt, alloc, image.get(), rows, answers)
        }
    }
}

// Answers the rows behind each row `image`.
fn answer_of_images<R: Wait>(
    rt: &R,
    alloc: Global,
    text: &str,
    answers: &mut Answers,
) -> Result<(), Unanswered> {
    for part in text.split("image ") {
        if !part.is_empty() {
            answer_behind(rt, alloc, part, answers)?;
        }
    }
    Ok(())
}

/// Answers all rows: those behind each row `image`, and then those about charts, behind each line `=== SORT`. Err: a
/// row means nothing, or memory was refused.
pub(crate) fn answer<R: Threads + Wait + Sync>(
    rt: &R,
    alloc: Global,
    text: &str,
    answers: &mut Answers,
) -> Result<(), Unanswered> {
    let mut parts = text.split("\n=== ");
    if let Some(first) = parts.next() {
        answer_of_images(rt, alloc, first, answers)?;
    }
    for part in parts {
        answer_part(rt, alloc, part, answers)?;
    }
    Ok(())
}
