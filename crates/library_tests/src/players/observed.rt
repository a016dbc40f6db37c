//! What is written of an input, and what observers see of its ticks.
ghost use Rattle.std.specs.Prelude.{◌≡◌, ◌<◌, ◌≤◌};

use crate::gates::Shares;
use crate::samples::{ABRO, valid};
use probe::{Observer, Output, Publisher};
use sc_values::{Failures, FromSlice, Plan, Progress, ToVec, Value};
use std::alloc::Global;
use std::marker::Brand;
use std::sync::Wait;
use std::sync::ledger::{Blank, Ledger};
use std::thread::Threads;
use trace_player::{PlayFault, play_to};
use verifier::Verified;

/// An input, when reads and writes fail, what is to be written, how it ends, and how many ticks observers are to see
/// and which value of O.
#[derive(Clone, Copy)]
pub(crate) struct Wanted<'a> {
    pub(crate) input: &'a str,
    pub(crate) reads: Plan,
    pub(crate) writes: Plan,
    pub(crate) trace: &'a [u8],
    pub(crate) end: Result<u64, PlayFault>,
    pub(crate) ticks: u64,
    pub(crate) value: bool,
}

// Whether playing writes what is wanted and ends so.
fn plays<R: Threads + Wait + Sync, L: Ledger>(
    rt: &R,
    alloc: Global,
    image: &Verified,
    publisher: &mut Publisher,
    wanted: Wanted<'_>,
    workers: u8,
    written: Blank,
) -> bool
    requires workers { (1 ≤ workers) × (workers ≤ 8) }
    requires written { (written.name ≡ L.name) × (written.parts ≡ L.parts) × (0 < L.parts) }
    ensures { publisher.new.publisher ≡ publisher.old.publisher }
{
    let mut source = FromSlice {
        rest: wanted.input.as_bytes(),
        each: 3,
        plan: wanted.reads,
        progress: Progress::Open,
    };
    let mut sink: ToVec<L> = ToVec::new(alloc, 10, wanted.writes, Failures::none(written));
    let end = play_to(
        rt,
        alloc,
        image,
        &mut source,
        &mut sink,
        workers,
        &Shares,
        publisher,
    );
    end == wanted.end
        && sink.bytes.as_slice() == wanted.trace
        && source.progress != Progress::Behind
}

// Whether these outputs are O alone, with this value.
fn is_o(outputs: &[Output], value: bool) -> bool {
    match outputs {
        [output] => output.name.as_bytes() == b"O".as_slice() && output.value == Value::Bool(value),
        _ => false,
    }
}

// Whether a look shows so many ticks, and this value of O.
fn shows(observer: &mut Observer, ticks: u64, value: bool) -> bool {
    let seen = observer.look();
    seen.ticks == ticks && is_o(seen.outputs.outputs(), value)
}

// Whether it writes what is wanted, and two observers see what is wanted, the second of which learnt the note.
fn watched<R: Threads + Wait + Sync, L: Ledger>(
    rt: &R,
    alloc: Global,
    image: &Verified,
    publisher: &mut Publisher,
    wanted: Wanted<'_>,
    workers: u8,
    written: Blank,
) -> bool
    requires workers { (1 ≤ workers) × (workers ≤ 8) }
    requires written { (written.name ≡ L.name) × (written.parts ≡ L.parts) × (0 < L.parts) }
{
    let Ok(mut observer) = publisher.observer() else {
        return false;
    };
    let Ok(mut told) = publisher.observer() else {
        return false;
    };
    let opening = shows(&mut observer, 0, false);
    let played = plays::<R, L>(rt, alloc, image, publisher, wanted, workers, written);
    told.learn(publisher.tell());
    let (ticks, value) = (wanted.ticks, wanted.value);
    opening && played && shows(&mut observer, ticks, value) && shows(&mut told, ticks, value)
}

// The same, with a publisher of its own, that is closed behind it.
fn tried<R: Threads + Wait + Sync, L: Ledger>(
    rt: &R,
    alloc: Global,
    image: &Verified,
    wanted: Wanted<'_>,
    workers: u8,
    written: Blank,
) -> bool
    requires workers { (1 ≤ workers) × (workers ≤ 8) }
    requires written { (written.name ≡ L.name) × (written.parts ≡ L.parts) × (0 < L.parts) }
{
    let Ok(mut publisher) = Publisher::open(rt, alloc, image) else {
        return false;
    };
    let seen = watched::<R, L>(rt, alloc, image, &mut publisher, wanted, workers, written);
    publisher.close(rt);
    seen
}

// Whether it is as wanted with each number of workers.
fn tries_over<R: Threads + Wait + Sync>(
    rt: &R,
    alloc: Global,
    image: &Verified,
    wanted: Wanted<'_>,
) -> bool {
    let mut so = true;
    for workers in 1..=8 {
        so = so && tried::<R, Brand>(rt, alloc, image, wanted, workers, Blank::new(1));
    }
    so
}

/// Whether it is as wanted of ABRO, with each number of workers.
pub(crate) fn tries<R: Threads + Wait + Sync>(rt: &R, alloc: Global, wanted: Wanted<'_>) -> bool {
    match valid(alloc, &ABRO) {
        Some(image) => tries_over(rt, alloc, image.get(), wanted),
        None => false,
    }
}

#[test]
fn an_observer_sees_the_end_of_a_whole_trace(rt: HostRuntime) {
    let wanted = Wanted {
        input: "{}\n{\"A\":true}\n{\"B\":true}\n{\"R\":true}\n{\"A\":true}\n{\"A\":true,\"B\":true,\"R\":true}\n{\"A\":true,\"B\":true}\n",
        reads: Plan::Never,
        writes: Plan::Never,
        trace: b"{\"out\":{\"O\":false},\"steps\":7,\"tick\":1}
{\"out\":{\"O\":false},\"steps\":11,\"tick\":2}
{\"out\":{\"O\":true},\"steps\":11,\"tick\":3}
{\"out\":{\"O\":false},\"steps\":16,\"tick\":4}
{\"out\":{\"O\":false},\"steps\":11,\"tick\":5}
{\"out\":{\"O\":false},\"steps\":19,\"tick\":6}
{\"out\":{\"O\":true},\"steps\":15,\"tick\":7}
",
        end: Ok(7),
        ticks: 7,
        value: true,
    };
    assert!(rt; tries(&rt, rt.alloc(), wanted));
}

// Whether there is the first tick of ABRO, and no second one, for this second line.
fn stops_at<R: Threads + Wait + Sync>(
    rt: &R,
    alloc: Global,
    input: &str,
    fault: PlayFault,
) -> bool {
    let wanted = Wanted {
        input,
        reads: Plan::Never,
        writes: Plan::Never,
        trace: b"{\"out\":{\"O\":false},\"steps\":7,\"tick\":1}\n",
        end: Err(fault),
        ticks: 1,
        value: false,
    };
    tries(rt, alloc, wanted)
}

#[test]
fn refused_inputs_make_no_tick(rt: HostRuntime) {
    assert!(rt; stops_at(&rt, rt.alloc(), "{}\n{\"A\":1}\n{}\n", PlayFault::Input(2)));
}

#[test]
fn a_line_that_is_no_object_makes_no_tick(rt: HostRuntime) {
    assert!(rt; stops_at(&rt, rt.alloc(), "{}\n[]\n{}\n", PlayFault::NotJson(2)));
}
