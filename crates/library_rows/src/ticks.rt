//! Ticks by acts of workers, and judged runs.

ghost use Rattle.sc_graph.specs.Tick.{Rests};

use crate::acts::act_all;
use crate::answers::Answers;
use crate::reading::{inputs, places};
use crate::telling::tell_control;
use crate::words::{Unanswered, halves};
use std::alloc::Global;
use tick_core::{BeginFault, Control, Inputs, Judged, Report, TickState, begin, judge};
use verifier::Verified;

// The steps of a tick: how many by each worker from 0 on, and in their order, each as THREAD/WORKER.
fn tell_report(report: &Report, answers: &mut Answers) {
    answers.tell("; by");
    for count in report.by {
        answers.tell(" ");
        answers.show(&count);
    }
    answers.tell("; order");
    for entry in report.history.as_slice() {
        answers.tell_with(" ", entry.thread as usize);
        answers.tell_with("/", entry.worker as usize);
    }
}

fn tell_end(end: &Control, report: &Report, answers: &mut Answers) {
    answers.tell_with(" ", report.history.len());
    answers.tell(" steps");
    tell_control(answers, end);
    tell_report(report, answers);
}

// A tick leads to its end: these acts, behind which it goes on alone.
fn play(
    alloc: Global,
    state: TickState<'_>,
    present: &mut Control,
    acts: &str,
    answers: &mut Answers,
) -> Result<(), Unanswered> {
    let mut state = state;
    let acted = act_all(alloc, &mut state, acts, answers);
    state.run_alone();
    let (end, report) = state.finish();
    tell_end(&end, &report, answers);
    *present = end;
    acted
}

fn tell_fault(fault: BeginFault, answers: &mut Answers) {
    answers.tell(" ");
    answers.show(&fault);
}

/// A tick, given as `INPUTS: ACTS`: what each act is answered, and then the steps and the end, from which the next tick
/// begins. Where it does not begin, what is told says why.
pub(crate) fn tick(
    alloc: Global,
    image: &Verified,
    present: &mut Control,
    row: &str,
    answers: &mut Answers,
) -> Result<(), Unanswered> {
    if !present.fits(image.image().program()) {
        answers.tell(" does not rest");
        return Ok(());
    }
    let (given, acts) = halves(row, ':');
    let inputs = inputs(alloc, given)?;
    match begin(alloc, image, present, &inputs) {
        Ok(state) => play(alloc, state, present, acts, answers),
        Err(fault) => {
            tell_fault(fault, answers);
            Ok(())
        }
    }
}

fn tell_judged(judged: &Judged, answers: &mut Answers) {
    match judged {
        Judged::NotRun(at) => {
            answers.tell(" no run at ");
            answers.show(at);
        }
        Judged::NotAdmissible(first, second) => {
            answers.tell(" not admissible ");
            answers.show(first);
            answers.tell(" ");
            answers.show(second);
        }
        Judged::Incomplete => answers.tell(" incomplete"),
        Judged::Ends(end) => {
            answers.tell(" ends");
            tell_control(answers, end);
        }
    }
}

fn tell_run(
    alloc: Global,
    image: &Verified,
    present: &Control,
    inputs: &Inputs,
    threads: &str,
    answers: &mut Answers,
) -> Result<(), Unanswered>
    requires { Rests image.now.program present.now }
{
    let run = places(alloc, threads)?;
    match judge(alloc, image, present, inputs, run.as_slice()) {
        Ok(judged) => tell_judged(&judged, answers),
        Err(fault) => tell_fault(fault, answers),
    }
    Ok(())
}

/// What is judged of the steps of these threads, given as `INPUTS: THREADS`.
pub(crate) fn tell_judgement(
    alloc: Global,
    image: &Verified,
    present: &Control,
    row: &str,
    answers: &mut Answers,
) -> Result<(), Unanswered> {
    if !present.fits(image.image().program()) {
        answers.tell(" does not rest");
        return Ok(());
    }
    let (given, threads) = halves(row, ':');
    let inputs = inputs(alloc, given)?;
    tell_run(alloc, image, present, &inputs, threads, answers)
}
