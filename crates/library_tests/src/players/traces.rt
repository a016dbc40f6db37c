//! Traces by `play`, and what it answers.
ghost use Rattle.std.specs.Prelude.{◌≡◌, ◌<◌, ◌≤◌};

use crate::samples::{ABRO, valid};
use sc_values::{Failures, FromSlice, Plan, Progress, ToVec};
use std::alloc::Global;
use std::marker::Brand;
use std::sync::Wait;
use std::sync::ledger::{Blank, Ledger};
use std::thread::Threads;
use trace_player::{PlayFault, play};
use verifier::Verified;
use worker_pool::{Gate, NoGate};

/// An input, what is to be written of it, and how it ends.
#[derive(Clone, Copy)]
pub(crate) struct Wanted<'a> {
    pub(crate) input: &'a [u8],
    pub(crate) trace: &'a str,
    pub(crate) end: Result<u64, PlayFault>,
}

/// Whether playing past this gate writes what is wanted and ends so.
pub(crate) fn plays<'x, R: Threads + Wait + Sync, G: Gate + Sync, L: Ledger>(
    rt: &R,
    alloc: Global,
    image: &'x Verified,
    wanted: Wanted<'_>,
    workers: u8,
    gate: &'x G,
    written: Blank,
) -> bool
    requires workers { (1 ≤ workers) × (workers ≤ 8) }
    requires written { (written.name ≡ L.name) × (written.parts ≡ L.parts) × (0 < L.parts) }
{
    let mut source = FromSlice {
        rest: wanted.input,
        each: 3,
        plan: Plan::Never,
        progress: Progress::Open,
    };
    let mut sink: ToVec<L> = ToVec::new(alloc, 10, Plan::Never, Failures::none(written));
    let end = play(rt, alloc, image, &mut source, &mut sink, workers, gate);
    end == wanted.end
        && sink.bytes.as_slice() == wanted.trace.as_bytes()
        && source.progress != Progress::Behind
}

// Whether this is written of an input, and it ends so, with each number of workers.
fn writes<R: Threads + Wait + Sync>(
    rt: &R,
    alloc: Global,
    image: &Verified,
    wanted: Wanted<'_>,
) -> bool {
    let mut so = true;
    for workers in 1..=8 {
        so = so
            && plays::<R, NoGate, Brand>(rt, alloc, image, wanted, workers, &NoGate, Blank::new(1));
    }
    so
}

// The same of an input to ABRO.
fn abro_writes<R: Threads + Wait + Sync>(rt: &R, alloc: Global, wanted: Wanted<'_>) -> bool {
    match valid(alloc, &ABRO) {
        Some(image) => writes(rt, alloc, image.get(), wanted),
        None => false,
    }
}

const FIRST: &str = "{\"out\":{\"O\":false},\"steps\":7,\"tick\":1}\n";

#[test]
fn lines_may_end_with_a_carriage_return_or_nothing(rt: HostRuntime) {
    let wanted = Wanted {
        input: b"{}\r\n{\"A\":true} ",
        trace: "{\"out\":{\"O\":false},\"steps\":7,\"tick\":1}
{\"out\":{\"O\":false},\"steps\":11,\"tick\":2}
",
        end: Ok(2),
    };
    assert!(rt; abro_writes(&rt, rt.alloc(), wanted));
}

#[test]
fn a_refused_line_ends_the_trace(rt: HostRuntime) {
    for (input, trace, fault) in [
        (b"{\"A\":[]}".as_slice(), "", PlayFault::Input(1)),
        (b"[]".as_slice(), "", PlayFault::NotJson(1)),
        (b"\xff".as_slice(), "", PlayFault::NotJson(1)),
        (
            b"{\"A\":true}\n{\"O\":true}\n".as_slice(),
            FIRST,
            PlayFault::Input(2),
        ),
        (
            b"{\"A\":true}\n{\"A\":1}\n".as_slice(),
            FIRST,
            PlayFault::Input(2),
        ),
        (b"{\"A\":true}\n\n".as_slice(), FIRST, PlayFault::NotJson(2)),
    ] {
        let wanted = Wanted {
            input,
            trace,
            end: Err(fault),
        };
        assert!(rt; abro_writes(&rt, rt.alloc(), wanted));
    }
}
