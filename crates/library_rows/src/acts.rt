//! What workers do in a tick, act by act, and what each is told.

ghost use Rattle.std.specs.Prelude.{◌≤◌, IfOk};

use crate::answers::Answers;
use crate::reading::{inputs, number, place};
use crate::telling::{tell_any, tell_control};
use crate::words::{Unanswered, halves, known};
use sc_graph::ThreadId;
use std::alloc::Global;
use tick_core::{Claim, Done, TickState, Turn, evaluate};

// What an act is answered.
#[derive(Clone, Copy)]
enum Told {
    // a claim of this thread
    Given(ThreadId),
    NoneNow,
    Over,
    // the place of the commit
    At(u32),
    GivenBack,
    Stale,
    NoSuchClaim,
}

fn tell(answers: &mut Answers, answer: Told) {
    match answer {
        Told::Given(thread) => answers.tell_with(" given ", thread as usize),
        Told::NoneNow => answers.tell(" none now"),
        Told::Over => answers.tell(" over"),
        Told::At(at) => answers.tell_with(" at ", at as usize),
        Told::GivenBack => answers.tell(" given back"),
        Told::Stale => answers.tell(" stale"),
        Told::NoSuchClaim => answers.tell(" no such claim"),
    }
}

// A worker: one of eight, or 0, who runs alone.
fn worker(word: &str) -> Result<u8, Unanswered>
    ensures { IfOk result (λ worker. worker ≤ 8) }
{
    match word.parse::<u8>().ok() {
        Some(worker) if worker <= 8 => Ok(worker),
        _ => Err(Unanswered),
    }
}

// A worker asks for a claim, which is evaluated and put behind those that were given.
fn claim<'a>(
    state: &mut TickState<'a>,
    given: &mut Vec<Done<'a>>,
    word: &str,
) -> Result<Told, Unanswered> {
    match state.claim(worker(word)?) {
        Turn::Claim(claim) => {
            let thread = claim.thread();
            given.push(evaluate(claim))?;
            Ok(Told::Given(thread))
        }
        Turn::NoneNow => Ok(Told::NoneNow),
        Turn::Over => Ok(Told::Over),
    }
}

// Gives the claim back that was given before the last one, and forgets it.
fn forget_other<'a>(
    state: &mut TickState<'a>,
    given: &mut Vec<Done<'a>>,
) -> Result<(), Unanswered> {
    if given.len() < 2 {
        return Err(Unanswered);
    }
    let other = given.swap_remove(given.len() - 2);
    known(state.give_back(other.claim()).ok())
}

// A worker asks for a claim of this thread: of two that are ready, the other one is given back.
fn claim_of<'a>(
    state: &mut TickState<'a>,
    given: &mut Vec<Done<'a>>,
    word: &str,
    thread: ThreadId,
) -> Result<Told, Unanswered> {
    match claim(state, given, word)? {
        Told::Given(other) if other != thread => {
            let answer = claim(state, given, word)?;
            forget_other(state, given)?;
            Ok(answer)
        }
        answer => Ok(answer),
    }
}

// `WORKER`, or `WORKER of THREAD`.
fn asked<'a>(
    state: &mut TickState<'a>,
    given: &mut Vec<Done<'a>>,
    words: &str,
) -> Result<Told, Unanswered> {
    let (word, rest) = halves(words, ' ');
    let (_of, thread) = halves(rest, ' ');
    if thread.is_empty() {
        claim(state, given, word)
    } else {
        claim_of(state, given, word, place(thread)?)
    }
}

fn commit(state: &mut TickState<'_>, done: &Done<'_>) -> Told {
    match state.commit(done) {
        Ok(receipt) => Told::At(receipt.at),
        Err(_) => Told::Stale,
    }
}

fn give_back(state: &mut TickState<'_>, done: &Done<'_>) -> Told {
    match state.give_back(done.claim()) {
        Ok(()) => Told::GivenBack,
        Err(_) => Told::Stale,
    }
}

// Commits the claim of this number, counted from 0 as they were given, or gives it back.
fn bring<'a>(
    state: &mut TickState<'a>,
    given: &[Done<'a>],
    word: &str,
    is_commit: bool,
) -> Result<Told, Unanswered> {
    match given.get(number(word)?) {
        Some(done) if is_commit => Ok(commit(state, done)),
        Some(done) => Ok(give_back(state, done)),
        None => Ok(Told::NoSuchClaim),
    }
}

// How many operations the code of a claim has.
fn operations_of(claim: &Claim<'_>) -> usize {
    claim
        .code()
        .map_or(0, |code| code.code().operations().len())
}

// What a claim bears beside its value: its worker, thread, node, commits before it, operations and operands.
fn tell_claim(answers: &mut Answers, claim: &Claim<'_>) {
    answers.tell_with(" worker ", claim.worker() as usize);
    answers.tell_with(" thread ", claim.thread() as usize);
    answers.tell_with(" node ", claim.node() as usize);
    answers.tell_with(" commits ", claim.commits() as usize);
    answers.tell_with(" operations ", operations_of(claim));
    answers.tell(" operands");
    answers.values(claim.operands().values());
}

fn tell_done(answers: &mut Answers, done: &Done<'_>) {
    tell_claim(answers, done.claim());
    answers.tell(" value");
    tell_any(answers, done.value());
}

// The threads that can be claimed at this priority.
fn tell_ready(answers: &mut Answers, state: &TickState<'_>, priority: u16) {
    answers.tell(" ready");
    for thread in state.ready(priority) {
        answers.tell_with(" ", *thread as usize);
    }
}

// The steps so far, the present configuration, and whether the tick is over.
fn tell_look(answers: &mut Answers, state: &TickState<'_>) {
    answers.tell_with(" ", state.history().len());
    answers.tell(if state.is_over() {
        " steps over"
    } else {
        " steps"
    });
    tell_control(answers, state.present());
}

// The open claims: of each its thread, its worker and the commits before it.
fn tell_open(answers: &mut Answers, state: &TickState<'_>) {
    answers.tell(" open");
    for claim in state.open_claims() {
        if let Some(claim) = claim {
            answers.tell_with(" ", claim.thread() as usize);
            answers.tell_with("/", claim.worker() as usize);
            answers.tell_with("/", claim.commits() as usize);
        }
    }
}

// What is looked at in a tick.
fn tell_state(
    answers: &mut Answers,
    state: &TickState<'_>,
    word: &str,
    rest: &str,
) -> Result<(), Unanswered> {
    match word {
        "look" => tell_look(answers, state),
        "begun" => tell_control(answers, state.begun()),
        "open" => tell_open(answers, state),
        "ready" => tell_ready(answers, state, place(rest)?),
        _ => return Err(Unanswered),
    }
    Ok(())
}

// Begins the next tick from where this one ended, where it is over.
fn go_on(
    alloc: Global,
    state: &mut TickState<'_>,
    given: &str,
    answers: &mut Answers,
) -> Result<(), Unanswered> {
    let inputs = inputs(alloc, given)?;
    if !state.is_over() {
        answers.tell(" not over");
        return Ok(());
    }
    match state.go_on(&inputs) {
        Ok(()) => answers.tell(" on"),
        Err(fault) => {
            answers.tell(" ");
            answers.show(&fault);
        }
    }
    Ok(())
}

// Does what is to be done, and tells what is answered.
fn act<'a>(
    alloc: Global,
    state: &mut TickState<'a>,
    given: &mut Vec<Done<'a>>,
    answers: &mut Answers,
    words: &str,
) -> Result<(), Unanswered> {
    let (word, rest) = halves(words, ' ');
    let answer = match word {
        "claim" => asked(state, given, rest)?,
        "commit" => bring(state, given.as_slice(), rest, true)?,
        "back" => bring(state, given.as_slice(), rest, false)?,
        "bears" => {
            tell_done(answers, known(given.get(number(rest)?))?);
            return Ok(());
        }
        "alone" => {
            state.run_alone();
            answers.tell(" alone");
            return Ok(());
        }
        "on" => return go_on(alloc, state, rest, answers),
        _ => return tell_state(answers, state, word, rest),
    };
    tell(answers, answer);
    Ok(())
}

/// Does what is to be done, act by act, and tells what each is answered.
pub(crate) fn act_all(
    alloc: Global,
    state: &mut TickState<'_>,
    acts: &str,
    answers: &mut Answers,
) -> Result<(), Unanswered> {
    let mut given = Vec::new(alloc);
    for words in acts.split(';') {
        let words = words.trim();
        if !words.is_empty() {
            act(alloc, state, &mut given, answers, words)?;
            answers.tell(";");
        }
    }
    Ok(())
}
