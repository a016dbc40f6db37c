//! Programs of nodes: the rules that they keep, which threads are concurrent, and which steps come first.

ghost use Rattle.sc_graph.specs.Valid.{IsFormed};

use crate::answers::Answers;
use crate::reading::{place, values};
use crate::telling::{tell_control, tell_place};
use crate::words::{Unanswered, halves, known};
use sc_graph::{ConcurrentThreads, Control, Program, Status, Step, concurrent, lca};
use sqlite_items::Items;
use std::alloc::Global;

// Whether a program is formed, and where it first breaks the rule of sizes and that of structure.
fn tell_rules(program: &Program, answers: &mut Answers) {
    answers.tell(if program.formed() {
        "formed; size"
    } else {
        "not formed; size"
    });
    tell_place(answers, program.size_fault());
    answers.tell("; structure");
    tell_place(answers, program.structure_fault());
}

// Whether two threads are concurrent, by the table, by asking for the two, and which thread forks them apart.
fn tell_pair(
    program: &Program,
    table: &ConcurrentThreads<'_>,
    first: u16,
    second: u16,
    answers: &mut Answers,
)
    requires { IsFormed program.now }
{
    let is_asked = concurrent(program, first, second);
    if table.are(first, second) != is_asked {
        answers.tell(" otherwise by the table:");
    }
    match lca(program, first, second) {
        Some(forking) => {
            answers.tell_with(" ", first as usize);
            answers.tell_with(",", second as usize);
            answers.tell_with(":", forking as usize);
        }
        None if is_asked => answers.tell(" concurrent without a fork"),
        None => {}
    }
}

// Each pair of concurrent threads with this first one, as FIRST,SECOND:FORKING.
fn tell_pairs_of(
    program: &Program,
    table: &ConcurrentThreads<'_>,
    first: u16,
    answers: &mut Answers,
)
    requires { IsFormed program.now }
{
    for second in 0..program.thread_count() {
        tell_pair(program, table, first, second, answers);
    }
}

fn tell_concurrent(
    alloc: Global,
    program: &Program,
    answers: &mut Answers,
) -> Result<(), Unanswered> {
    if !program.formed() {
        return Err(Unanswered);
    }
    answers.tell(" concurrent");
    let table = ConcurrentThreads::of(alloc, program)?;
    for first in 0..program.thread_count() {
        tell_pairs_of(program, &table, first, answers);
    }
    Ok(())
}

fn tell_yes(answers: &mut Answers, word: &str, is_so: bool) {
    if is_so {
        answers.tell(word);
    }
}

fn step_of<'p>(program: &'p Program, word: &str) -> Result<&'p Step, Unanswered> {
    known(program.step(place(word)?))
}

// Of two nodes' steps whether the first precedes the second, clashes with it, and may precede it.
fn tell_order(program: &Program, words: &str, answers: &mut Answers) -> Result<(), Unanswered> {
    let (first, second) = halves(words, ' ');
    let first = step_of(program, first)?;
    let second = step_of(program, second)?;
    answers.tell(" the first");
    tell_yes(answers, " precedes", first.precedes(second));
    tell_yes(answers, " clashes", first.clashes(second));
    tell_yes(answers, " may-precede", first.may_precede(second));
    Ok(())
}

// Whether a node's step initializes, updates and reads a variable.
fn tell_uses(program: &Program, words: &str, answers: &mut Answers) -> Result<(), Unanswered> {
    let (node, variable) = halves(words, ' ');
    let step = step_of(program, node)?;
    let variable = place(variable)?;
    answers.tell(" it");
    tell_yes(answers, " initializes", step.initializes(variable));
    tell_yes(answers, " updates", step.updates(variable));
    tell_yes(answers, " reads", step.reads(variable));
    Ok(())
}

fn status(word: &str) -> Result<Status, Unanswered> {
    let (word, node) = halves(word, ':');
    match word {
        "absent" => Ok(Status::Absent),
        "ended" => Ok(Status::Ended),
        "at" => Ok(Status::At(place(node)?)),
        "waits" => Ok(Status::Waiting(place(node)?)),
        "paused" => Ok(Status::Paused(place(node)?)),
        _ => Err(Unanswered),
    }
}

fn statuses(alloc: Global, words: &str) -> Result<Items<Status>, Unanswered> {
    let mut statuses = Items::new(alloc);
    for word in words.split_whitespace() {
        statuses.push(status(word)?)?;
    }
    Ok(statuses)
}

/// A configuration, given as `VALUES; STATUSES`.
pub(crate) fn control(alloc: Global, words: &str) -> Result<Control, Unanswered> {
    let (given, standing) = halves(words, ';');
    let variables = Items::from_vec(values(alloc, given)?);
    let statuses = statuses(alloc, standing)?;
    Ok(Control {
        variables,
        statuses,
    })
}

// Whether a configuration rests in a program.
fn tell_rest(
    alloc: Global,
    program: &Program,
    words: &str,
    answers: &mut Answers,
) -> Result<(), Unanswered> {
    let control = control(alloc, words)?;
    answers.tell(if control.fits(program) {
        " rests"
    } else {
        " does not rest"
    });
    Ok(())
}

// The configuration before the first tick, and whether it rests.
fn tell_initial(alloc: Global, program: &Program, answers: &mut Answers) -> Result<(), Unanswered> {
    let initial = Control::initial(alloc, program)?;
    tell_control(answers, &initial);
    answers.tell(if initial.fits(program) {
        "; rests"
    } else {
        "; does not rest"
    });
    Ok(())
}

/// What is told of a program.
pub(crate) fn tell_program(
    alloc: Global,
    program: &Program,
    row: &str,
    answers: &mut Answers,
) -> Result<(), Unanswered> {
    let (word, rest) = halves(row, ' ');
    match word {
        "rules" => tell_rules(program, answers),
        "concurrent" => tell_concurrent(alloc, program, answers)?,
        "order" => tell_order(program, rest, answers)?,
        "uses" => tell_uses(program, rest, answers)?,
        "initial" => tell_initial(alloc, program, answers)?,
        "rests" => tell_rest(alloc, program, rest, answers)?,
        _ => return Err(Unanswered),
    }
    Ok(())
}
