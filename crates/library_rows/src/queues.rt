//! Claims of a tick that go through a queue.

ghost use Rattle.std.specs.Prelude.{All};
ghost use Rattle.ready_queue.specs.Rule.{IsPassOf};

use crate::answers::Answers;
use crate::reading::number;
use crate::words::{Unanswered, halves, known};
use ready_queue::{Pass, ReadyQueue};
use sc_graph::ThreadId;
use sqlite_items::Items;
use std::alloc::{AllocError, Global};
use std::sync::Wait;
use tick_core::{Claim, Control, Inputs, TickState, Turn, begin, evaluate};
use verifier::Verified;

/// A pass beside its queue.
#[derive(Drop)]
struct Port<'q, 'x> {
    queue: &'q ReadyQueue<'x>,
    pass: Pass<'x>,
    ghost own: { IsPassOf queue.now pass },
}

// What a pass is answered, always with the thread of a claim.
#[derive(Clone, Copy)]
enum Handed {
    Put(ThreadId),
    Back(ThreadId),
    Taken(ThreadId),
    Nothing,
}

impl<'q, 'x> Port<'q, 'x> {
    fn put<R: Wait>(&mut self, rt: &R, claim: Claim<'x>) -> Handed {
        let thread = claim.thread();
        match self.queue.put(rt, &mut self.pass, claim) {
            Ok(()) => Handed::Put(thread),
            Err(back) => Handed::Back(back.thread()),
        }
    }

    fn take<R: Wait>(&mut self, rt: &R) -> Handed {
        match self.queue.take(rt, &mut self.pass) {
            Some(claim) => Handed::Taken(claim.thread()),
            None => Handed::Nothing,
        }
    }
}

// A port for each pass of a queue, nine at most, the last first.
fn ports_of<'q, 'x>(
    alloc: Global,
    queue: &'q ReadyQueue<'x>,
    passes: Vec<Pass<'x>>,
) -> Result<Vec<Port<'q, 'x>>, AllocError>
    requires { All (λ p. IsPassOf queue.now p) passes.items }
{
    let mut passes = passes;
    let mut ports = Vec::new(alloc);
    for _ in 0..9 {
        if let Some(pass) = passes.pop() {
            if ports.push(Port { queue, pass }).is_err() {
                return Err(AllocError);
            }
        }
    }
    Ok(ports)
}

// One more claim of a tick, by worker 1.
fn claimed<'x>(state: &mut TickState<'x>) -> Option<Claim<'x>> {
    match state.claim(1) {
        Turn::Claim(claim) => Some(claim),
        Turn::NoneNow | Turn::Over => None,
    }
}

// One step of a tick.
fn step(state: &mut TickState<'_>) {
    if let Some(claim) = claimed(state) {
        let done = evaluate(claim);
        let _ = state.commit(&done);
    }
}

// Puts or takes a claim by a port.
fn hand<'x, R: Wait>(
    rt: &R,
    port: &mut Port<'_, 'x>,
    state: &mut TickState<'x>,
    word: &str,
) -> Option<Handed> {
    match word {
        "put" => match claimed(state) {
            Some(claim) => Some(port.put(rt, claim)),
            None => None,
        },
        "take" => Some(port.take(rt)),
        _ => None,
    }
}

fn tell(answers: &mut Answers, handed: Handed) {
    match handed {
        Handed::Put(thread) => answers.tell_with(" put ", thread as usize),
        Handed::Back(thread) => answers.tell_with(" back ", thread as usize),
        Handed::Taken(thread) => answers.tell_with(" took ", thread as usize),
        Handed::Nothing => answers.tell(" nothing"),
    }
    answers.tell(";");
}

// One act: `put PASS` or `take PASS`, the passes counted from 0.
fn act<'x, R: Wait>(
    rt: &R,
    ports: &mut [Port<'_, 'x>],
    state: &mut TickState<'x>,
    words: &str,
) -> Result<Handed, Unanswered> {
    let (word, pass) = halves(words, ' ');
    let port = known(ports.get_mut(number(pass)?))?;
    known(hand(rt, port, state, word))
}

fn act_all<'x, R: Wait>(
    rt: &R,
    ports: &mut [Port<'_, 'x>],
    state: &mut TickState<'x>,
    acts: &str,
    answers: &mut Answers,
) -> Result<(), Unanswered> {
    for words in acts.split(';') {
        let words = words.trim();
        if !words.is_empty() {
            tell(answers, act(rt, ports, state, words)?);
        }
    }
    Ok(())
}

// Acts of the passes of a queue with as many places as the narrow image has threads, on claims of a tick.
fn in_queue<'x, R: Wait>(
    rt: &R,
    alloc: Global,
    narrow: &'x Verified,
    state: &mut TickState<'x>,
    acts: &str,
    answers: &mut Answers,
) -> Result<(), Unanswered> {
    let (queue, passes) = ReadyQueue::open(alloc, narrow)?;
    answers.tell_with(" ", passes.len());
    answers.tell(" passes;");
    let mut ports = ports_of(alloc, &queue, passes)?;
    act_all(rt, ports.as_mut_slice(), state, acts, answers)
}

// The first tick of an image.
fn begun<'x>(alloc: Global, image: &'x Verified) -> Result<TickState<'x>, Unanswered> {
    let opening = Control::initial(alloc, image.image().program())?;
    let inputs: Inputs = Items::new(alloc);
    known(begin(alloc, image, &opening, &inputs).ok())
}

/// Acts of the passes of a queue, on claims of the first tick of an image, behind its first step.
pub(crate) fn tell_queue<'x, R: Wait>(
    rt: &R,
    alloc: Global,
    image: &'x Verified,
    narrow: &'x Verified,
    acts: &str,
    answers: &mut Answers,
) -> Result<(), Unanswered> {
    let mut state = begun(alloc, image)?;
    step(&mut state);
    in_queue(rt, alloc, narrow, &mut state, acts, answers)
}
