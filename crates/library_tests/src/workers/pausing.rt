//! Ticks whose branches pause and go on, and aborts in aborts: their rounds are shared in every tick.
use crate::gates::TURNS;
use crate::samples::{ABRO, valid};
use crate::workers::gates::Counting;
use crate::workers::ticks::{tick, ticks_so};
use sc_graph::ThreadId;
use sc_values::Value;
use std::alloc::Global;
use std::sync::Wait;
use std::sync::atomic::{AtomicU64, Ordering};
use std::thread;
use std::thread::Threads;
use tick_core::Control;
use verifier::Verified;
use worker_pool::Gate;

// Four branches, each a loop of two steps and a pause.
const PAUSING: [u8; 376] = [
    83, 67, 67, 66, 2, 4, 0, 1, 1, 1, 97, 1, 1, 1, 98, 1, 1, 1, 99, 1, 1, 1, 100, 5, 0, 255, 255,
    0, 0, 18, 0, 0, 0, 0, 0, 3, 0, 4, 0, 0, 0, 0, 0, 8, 0, 4, 0, 0, 0, 0, 0, 13, 0, 4, 0, 0, 0, 0,
    0, 18, 0, 4, 0, 0, 0, 23, 0, 0, 0, 0, 0, 13, 0, 0, 4, 1, 0, 4, 1, 0, 2, 0, 3, 0, 4, 0, 0, 0, 0,
    0, 2, 0, 1, 5, 2, 0, 0, 0, 0, 0, 1, 0, 1, 0, 1, 0, 0, 0, 3, 0, 0, 2, 0, 0, 0, 4, 0, 1, 1, 1, 0,
    0, 0, 1, 0, 0, 0, 2, 0, 0, 1, 0, 0, 5, 0, 3, 2, 0, 0, 2, 0, 0, 5, 1, 0, 0, 0, 1, 0, 0, 6, 6, 0,
    1, 0, 0, 0, 4, 0, 0, 7, 3, 0, 1, 0, 0, 0, 1, 0, 1, 0, 2, 0, 0, 0, 3, 0, 0, 2, 1, 0, 0, 9, 0, 1,
    1, 1, 0, 0, 0, 2, 0, 0, 0, 2, 0, 0, 1, 1, 0, 10, 0, 3, 2, 1, 0, 2, 1, 0, 5, 2, 0, 0, 0, 1, 0,
    0, 6, 11, 0, 2, 0, 0, 0, 4, 0, 0, 7, 8, 0, 2, 0, 0, 0, 1, 0, 1, 0, 3, 0, 0, 0, 3, 0, 0, 2, 2,
    0, 0, 14, 0, 1, 1, 1, 0, 0, 0, 3, 0, 0, 0, 2, 0, 0, 1, 2, 0, 15, 0, 3, 2, 2, 0, 2, 2, 0, 5, 3,
    0, 0, 0, 1, 0, 0, 6, 16, 0, 3, 0, 0, 0, 4, 0, 0, 7, 13, 0, 3, 0, 0, 0, 1, 0, 1, 0, 4, 0, 0, 0,
    3, 0, 0, 2, 3, 0, 0, 19, 0, 1, 1, 1, 0, 0, 0, 4, 0, 0, 0, 2, 0, 0, 1, 3, 0, 20, 0, 3, 2, 3, 0,
    2, 3, 0, 5, 4, 0, 0, 0, 1, 0, 0, 6, 21, 0, 4, 0, 0, 0, 4, 0, 0, 7, 18, 0, 4, 0, 0, 0, 1, 0, 1,
    0, 18, 0, 0, 0,
];

// Two regions with an abort each, in a region that an abort leaves.
const NESTED: [u8; 1093] = [
    83, 67, 67, 66, 2, 7, 0, 0, 0, 1, 75, 0, 0, 1, 82, 1, 1, 1, 110, 1, 1, 1, 109, 2, 1, 3, 95,
    115, 49, 2, 1, 3, 95, 115, 50, 2, 1, 3, 95, 119, 51, 9, 0, 255, 255, 0, 0, 46, 0, 0, 0, 0, 0,
    3, 0, 44, 0, 0, 0, 1, 0, 13, 0, 18, 0, 0, 0, 2, 0, 25, 0, 5, 0, 0, 0, 2, 0, 31, 0, 5, 0, 0, 0,
    1, 0, 37, 0, 19, 0, 0, 0, 5, 0, 49, 0, 5, 0, 0, 0, 5, 0, 55, 0, 5, 0, 0, 0, 1, 0, 61, 0, 4, 0,
    0, 0, 66, 0, 0, 0, 0, 0, 13, 0, 0, 4, 1, 0, 1, 1, 0, 0, 0, 0, 0, 2, 0, 1, 5, 2, 0, 0, 0, 0, 0,
    1, 0, 1, 0, 1, 0, 0, 0, 12, 0, 0, 1, 4, 0, 4, 0, 1, 1, 0, 0, 0, 0, 1, 0, 0, 0, 11, 0, 0, 4, 5,
    0, 3, 2, 0, 5, 0, 8, 0, 1, 0, 0, 0, 3, 0, 0, 5, 6, 0, 1, 0, 0, 0, 2, 0, 0, 3, 10, 0, 7, 0, 3,
    2, 4, 0, 1, 1, 0, 0, 0, 12, 1, 0, 0, 0, 1, 0, 0, 6, 8, 0, 1, 0, 0, 0, 3, 0, 0, 7, 9, 0, 1, 0,
    0, 0, 2, 0, 0, 3, 10, 0, 7, 0, 3, 2, 4, 0, 1, 1, 0, 0, 0, 12, 1, 0, 0, 0, 1, 0, 0, 6, 11, 0, 1,
    0, 0, 0, 2, 0, 0, 7, 10, 0, 1, 0, 0, 0, 1, 0, 1, 0, 2, 0, 0, 0, 4, 0, 0, 1, 5, 0, 14, 0, 1, 1,
    0, 0, 0, 0, 2, 0, 0, 0, 3, 0, 0, 4, 15, 0, 2, 3, 0, 4, 0, 2, 0, 0, 0, 8, 0, 1, 5, 16, 0, 2, 0,
    0, 0, 7, 0, 1, 3, 24, 0, 17, 0, 3, 2, 4, 0, 1, 0, 0, 0, 0, 13, 2, 0, 0, 0, 6, 0, 0, 3, 18, 0,
    19, 0, 3, 2, 5, 0, 1, 1, 0, 0, 0, 12, 2, 0, 0, 0, 5, 0, 0, 1, 2, 0, 13, 0, 1, 1, 10, 0, 0, 0,
    2, 0, 0, 0, 1, 0, 0, 6, 20, 0, 2, 0, 0, 0, 8, 0, 1, 7, 21, 0, 2, 0, 0, 0, 7, 0, 1, 3, 24, 0,
    22, 0, 3, 2, 4, 0, 1, 0, 0, 0, 0, 13, 2, 0, 0, 0, 6, 0, 0, 3, 23, 0, 19, 0, 3, 2, 5, 0, 1, 1,
    0, 0, 0, 12, 2, 0, 0, 0, 5, 0, 0, 1, 2, 0, 13, 0, 1, 1, 10, 0, 0, 0, 2, 0, 0, 0, 1, 0, 1, 0, 3,
    0, 0, 0, 1, 0, 0, 6, 26, 0, 3, 0, 0, 0, 5, 0, 1, 7, 27, 0, 3, 0, 0, 0, 4, 0, 1, 3, 30, 0, 28,
    0, 3, 2, 4, 0, 1, 0, 0, 0, 0, 13, 3, 0, 0, 0, 3, 0, 1, 3, 30, 0, 29, 0, 3, 2, 5, 0, 1, 0, 0, 0,
    0, 13, 3, 0, 0, 0, 2, 0, 0, 2, 2, 0, 0, 25, 0, 1, 1, 1, 0, 0, 0, 3, 0, 0, 0, 1, 0, 1, 0, 4, 0,
    0, 0, 1, 0, 0, 6, 32, 0, 4, 0, 1, 0, 5, 0, 1, 7, 33, 0, 4, 0, 1, 0, 4, 0, 1, 3, 36, 0, 34, 0,
    3, 2, 4, 0, 1, 0, 0, 0, 0, 13, 4, 0, 1, 0, 3, 0, 1, 3, 35, 0, 31, 0, 1, 2, 1, 0, 4, 0, 1, 0, 2,
    0, 1, 1, 5, 0, 36, 0, 1, 1, 1, 0, 0, 0, 4, 0, 0, 0, 1, 0, 1, 0, 5, 0, 0, 0, 5, 0, 0, 1, 6, 0,
    38, 0, 1, 1, 0, 0, 0, 0, 5, 0, 0, 0, 4, 0, 0, 4, 39, 0, 2, 6, 0, 7, 0, 5, 0, 0, 0, 9, 0, 1, 5,
    40, 0, 5, 0, 0, 0, 8, 0, 1, 3, 48, 0, 41, 0, 3, 2, 4, 0, 1, 0, 0, 0, 0, 13, 5, 0, 0, 0, 7, 0,
    0, 3, 42, 0, 43, 0, 3, 2, 6, 0, 1, 1, 0, 0, 0, 12, 5, 0, 0, 0, 6, 0, 0, 2, 3, 0, 0, 37, 0, 1,
    1, 100, 0, 0, 0, 5, 0, 0, 0, 1, 0, 0, 6, 44, 0, 5, 0, 0, 0, 9, 0, 1, 7, 45, 0, 5, 0, 0, 0, 8,
    0, 1, 3, 48, 0, 46, 0, 3, 2, 4, 0, 1, 0, 0, 0, 0, 13, 5, 0, 0, 0, 7, 0, 0, 3, 47, 0, 43, 0, 3,
    2, 6, 0, 1, 1, 0, 0, 0, 12, 5, 0, 0, 0, 6, 0, 0, 2, 3, 0, 0, 37, 0, 1, 1, 100, 0, 0, 0, 5, 0,
    0, 0, 1, 0, 1, 0, 6, 0, 0, 0, 2, 0, 1, 3, 54, 0, 50, 0, 3, 2, 6, 0, 1, 0, 0, 0, 0, 13, 6, 0, 0,
    0, 1, 0, 0, 6, 51, 0, 6, 0, 0, 0, 5, 0, 1, 7, 52, 0, 6, 0, 0, 0, 4, 0, 1, 3, 54, 0, 53, 0, 3,
    2, 4, 0, 1, 0, 0, 0, 0, 13, 6, 0, 0, 0, 3, 0, 1, 2, 3, 0, 0, 49, 0, 1, 1, 1, 0, 0, 0, 6, 0, 0,
    0, 1, 0, 1, 0, 7, 0, 0, 0, 1, 0, 0, 6, 56, 0, 7, 0, 1, 0, 5, 0, 1, 7, 57, 0, 7, 0, 1, 0, 4, 0,
    1, 3, 60, 0, 58, 0, 3, 2, 4, 0, 1, 0, 0, 0, 0, 13, 7, 0, 1, 0, 3, 0, 1, 3, 59, 0, 55, 0, 1, 2,
    1, 0, 7, 0, 1, 0, 2, 0, 1, 1, 6, 0, 60, 0, 1, 1, 1, 0, 0, 0, 7, 0, 0, 0, 1, 0, 1, 0, 8, 0, 0,
    0, 1, 0, 0, 6, 62, 0, 8, 0, 2, 0, 4, 0, 1, 7, 63, 0, 8, 0, 2, 0, 3, 0, 1, 3, 64, 0, 61, 0, 1,
    2, 0, 0, 8, 0, 2, 0, 2, 0, 1, 1, 4, 0, 65, 0, 1, 1, 1, 0, 0, 0, 8, 0, 0, 0, 1, 0, 1, 0, 46, 0,
    0, 0,
];

// Each step has much work here and waits for no other; but the first one of a branch stays until another worker comes
// with one, for so many turns at most.
#[derive(Drop)]
struct Accompanied {
    came: AtomicU64,
    // how often nobody came
    alone: AtomicU64,
}

impl Accompanied {
    fn new() -> Accompanied {
        Accompanied {
            came: AtomicU64::new(0),
            alone: AtomicU64::new(0),
        }
    }

    // Whether two workers were here at once.
    fn met(&self) -> bool {
        self.came.load(Ordering::SeqCst) > 1 && self.alone.load(Ordering::SeqCst) == 0
    }
}

impl Gate for Accompanied {
    fn passing(&self, _worker: u8, thread: ThreadId) {
        if thread == 0 || self.came.fetch_add(1, Ordering::SeqCst) > 0 {
            return;
        }
        for _ in 0..TURNS {
            if self.came.load(Ordering::SeqCst) > 1 {
                return;
            }
            thread::yield_now();
        }
        self.alone.fetch_add(1, Ordering::SeqCst);
    }

    fn waits(&self) -> bool {
        false
    }

    fn work(&self) -> u64 {
        1000
    }
}

// Whether two of so many workers evaluate at once in a tick, and worker 0 takes no step.
fn is_shared<R: Threads + Wait + Sync>(
    rt: &R,
    alloc: Global,
    image: &Verified,
    control: &mut Control,
    workers: u8,
) -> bool {
    let gate = Accompanied::new();
    match tick(rt, alloc, image, control, "", workers, &gate) {
        Some(report) => gate.met() && report.by[0] == 0,
        None => false,
    }
}

// Whether each of six ticks is shared by so many workers, and they end as they have to.
fn are_shared<R: Threads + Wait + Sync>(
    rt: &R,
    alloc: Global,
    image: &Verified,
    workers: u8,
) -> bool {
    let Ok(mut control) = Control::initial(alloc, image.image().program()) else {
        return false;
    };
    let mut shared = true;
    for _ in 0..6 {
        shared = shared && is_shared(rt, alloc, image, &mut control, workers);
    }
    shared && control.variables.as_slice() == [Value::Int(126); 4].as_slice()
}

// The same with two workers, and with eight.
fn pausing_is_shared<R: Threads + Wait + Sync>(rt: &R, alloc: Global) -> bool {
    match valid(alloc, &PAUSING) {
        Some(image) => {
            are_shared(rt, alloc, image.get(), 2) && are_shared(rt, alloc, image.get(), 8)
        }
        None => false,
    }
}

// Whether a tick counts as many passings, by worker, as the gate has met.
fn passings_agree<R: Threads + Wait + Sync>(
    rt: &R,
    alloc: Global,
    image: &Verified,
    control: &mut Control,
    letters: &str,
) -> bool {
    let gate = Counting::new();
    gate.agrees(tick(rt, alloc, image, control, letters, 2, &gate))
}

// Whether each of these ticks of ABRO does.
fn all_agree<R: Threads + Wait + Sync>(rt: &R, alloc: Global, ticks: &[&str]) -> bool {
    let Some(image) = valid(alloc, &ABRO) else {
        return false;
    };
    let Ok(mut control) = Control::initial(alloc, image.get().image().program()) else {
        return false;
    };
    let mut agree = true;
    for letters in ticks {
        agree = agree && passings_agree(rt, alloc, image.get(), &mut control, letters);
    }
    agree
}

#[test]
fn branches_that_pause_are_shared(rt: HostRuntime) {
    assert!(rt; pausing_is_shared(&rt, rt.alloc()));
}

#[test]
fn passings_of_abro_are_counted(rt: HostRuntime) {
    let ticks = ["", "A", "B", "R", "A", "ABR", "AB"];
    assert!(rt; all_agree(&rt, rt.alloc(), &ticks));
}

#[test]
fn aborts_in_aborts(rt: HostRuntime) {
    let ticks = [
        ("", 13, (3, Value::Int(0))),
        ("", 21, (3, Value::Int(1))),
        ("R", 39, (3, Value::Int(102))),
        ("", 21, (3, Value::Int(103))),
        ("R", 39, (3, Value::Int(204))),
        ("KR", 25, (3, Value::Int(204))),
        ("", 2, (3, Value::Int(204))),
    ];
    assert!(rt; ticks_so(&rt, rt.alloc(), &NESTED, &ticks));
}
