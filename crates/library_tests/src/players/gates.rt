//! A trace whose steps pass a gate that watches them.
use crate::gates::Meeting;
use crate::players::traces::{Wanted, plays};
use crate::samples::{TWO_PAUSES, WRAPPING_SUM, valid};
use std::alloc::Global;
use std::marker::Brand;
use std::sync::Wait;
use std::sync::ledger::Blank;
use std::thread::Threads;

const TWO_TICKS: &str =
    "{\"out\":{\"x\":0,\"y\":0},\"steps\":3,\"tick\":1}\n{\"out\":{\"x\":0,\"y\":0},\"steps\":8,\"tick\":2}\n";

// Whether so many steps of threads 1 and 2 meet as lines are played by two workers, and this comes of it.
fn meet<R: Threads + Wait + Sync>(
    rt: &R,
    alloc: Global,
    bytes: &[u8],
    held: u64,
    wanted: Wanted<'_>,
) -> bool {
    match valid(alloc, bytes) {
        Some(image) => {
            let gate = Meeting::of(held);
            plays::<R, Meeting, Brand>(rt, alloc, image.get(), wanted, 2, &gate, Blank::new(1))
                && gate.met()
        }
        None => false,
    }
}

#[test]
fn two_pieces_at_once(rt: HostRuntime) {
    let wanted = Wanted {
        input: b"{}",
        trace: "{\"out\":{\"x\":-2147483648,\"y\":0},\"steps\":7,\"tick\":1}\n",
        end: Ok(1),
    };
    assert!(rt; meet(&rt, rt.alloc(), &WRAPPING_SUM, 1, wanted));
}

#[test]
fn two_pieces_at_once_in_each_tick(rt: HostRuntime) {
    let wanted = Wanted {
        input: b"{}\n{}",
        trace: TWO_TICKS,
        end: Ok(2),
    };
    assert!(rt; meet(&rt, rt.alloc(), &TWO_PAUSES, 4, wanted));
}
