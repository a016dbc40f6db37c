//! Whole ticks, by 1 to 8 workers.
ghost use Rattle.std.specs.Prelude.{◌≤◌};

use crate::gates::Shares;
use crate::samples::{
    ABRO, EIGHT_BRANCHES, MANY_BRANCHES, NESTED_FORKS, TWO_PAUSES, WRAPPING_SUM, WRITE_AND_READ,
    valid,
};
use sc_graph::ThreadId;
use sc_values::{Name, Value};
use sqlite_items::Items;
use std::alloc::Global;
use std::sync::Wait;
use std::thread::Threads;
use tick_core::{Control, Entry, Inputs, Report};
use verifier::Verified;
use worker_pool::{Gate, NoGate, run_tick};

// A gate for which every round of two claims is shared, since each step has much work; workers take several in one
// turn.
struct Works;

impl Gate for Works {
    fn passing(&self, _worker: u8, _thread: ThreadId) {}

    fn waits(&self) -> bool {
        false
    }

    fn work(&self) -> u64 {
        1000
    }
}

/// The inputs of a tick, each a letter that is true; its steps; and the value of one variable after it.
pub(crate) type Wanted<'a> = (&'a str, usize, (usize, Value));

fn inputs_of(alloc: Global, letters: &str) -> Option<Inputs> {
    let mut inputs = Items::new(alloc);
    for letter in letters.as_bytes() {
        let name = Name::from_bytes(&[*letter])?;
        inputs.push((name, Value::Bool(true))).ok()?;
    }
    Some(inputs)
}

/// A tick by so many workers, which leads to its end. None: the configuration does not rest, or the tick did not begin.
pub(crate) fn tick<R: Threads + Wait + Sync, G: Gate + Sync>(
    rt: &R,
    alloc: Global,
    image: &Verified,
    control: &mut Control,
    letters: &str,
    workers: u8,
    gate: &G,
) -> Option<Report> {
    if workers < 1 || workers > 8 || !control.fits(image.image().program()) {
        return None;
    }
    let inputs = inputs_of(alloc, letters)?;
    let (end, report) = run_tick(rt, alloc, image, control, &inputs, workers, gate).ok()?;
    *control = end;
    Some(report)
}

// Whether none of these steps is by worker 0 or one beyond the last.
fn are_theirs(steps: &[Entry], workers: u8) -> bool {
    for entry in steps {
        if entry.worker < 1 || entry.worker > workers {
            return false;
        }
    }
    true
}

// Whether a tick leads to what is wanted.
fn tick_so<R: Threads + Wait + Sync, G: Gate + Sync>(
    rt: &R,
    alloc: Global,
    image: &Verified,
    control: &mut Control,
    workers: u8,
    wanted: &Wanted<'_>,
    gate: &G,
) -> bool {
    let (letters, steps, (place, value)) = *wanted;
    match tick(rt, alloc, image, control, letters, workers, gate) {
        Some(report) => {
            are_theirs(report.history.as_slice(), workers)
                && report.history.len() == steps
                && control.variables.as_slice().get(place) == Some(&value)
        }
        None => false,
    }
}

fn all_so<R: Threads + Wait + Sync, G: Gate + Sync>(
    rt: &R,
    alloc: Global,
    image: &Verified,
    workers: u8,
    ticks: &[Wanted<'_>],
    gate: &G,
) -> bool {
    let Ok(mut control) = Control::initial(alloc, image.image().program()) else {
        return false;
    };
    let mut so = true;
    for wanted in ticks {
        so = so && tick_so(rt, alloc, image, &mut control, workers, wanted, gate);
    }
    so
}

/// Whether the ticks of an image are as wanted with each number of workers.
pub(crate) fn ticks_so<R: Threads + Wait + Sync>(
    rt: &R,
    alloc: Global,
    bytes: &[u8],
    ticks: &[Wanted<'_>],
) -> bool {
    let Some(image) = valid(alloc, bytes) else {
        return false;
    };
    let mut so = true;
    for workers in 1..=8 {
        so = so
            && all_so(rt, alloc, image.get(), workers, ticks, &Shares)
            && all_so(rt, alloc, image.get(), workers, ticks, &Works);
    }
    so
}

#[test]
fn what_is_written_is_read(rt: HostRuntime) {
    let y = (1, Value::Int(1));
    assert!(rt; ticks_so(&rt, rt.alloc(), &WRITE_AND_READ, &[("", 7, y), ("", 0, y)]));
}

#[test]
fn sums_wrap(rt: HostRuntime) {
    let least = (0, Value::Int(-2147483648));
    assert!(rt;
        ticks_so(
            &rt,
            rt.alloc(),
            &WRAPPING_SUM,
            &[("", 7, least), ("", 0, least)]
        )
    );
}

#[test]
fn two_threads_pause(rt: HostRuntime) {
    let none = (0, Value::Int(0));
    let ticks = [("", 3, none), ("", 8, none), ("", 8, none)];
    assert!(rt; ticks_so(&rt, rt.alloc(), &TWO_PAUSES, &ticks));
}

#[test]
fn three_levels(rt: HostRuntime) {
    let three = (1, Value::Int(3));
    assert!(rt;
        ticks_so(
            &rt,
            rt.alloc(),
            &NESTED_FORKS,
            &[("", 12, three), ("", 0, three)]
        )
    );
}

#[test]
fn many_branches(rt: HostRuntime) {
    let all = (0, Value::Int(64));
    assert!(rt;
        ticks_so(
            &rt,
            rt.alloc(),
            &MANY_BRANCHES,
            &[("", 131, all), ("", 0, all)]
        )
    );
}

#[test]
fn abro(rt: HostRuntime) {
    let (set, unset) = ((3, Value::Bool(true)), (3, Value::Bool(false)));
    let ticks = [
        ("", 7, unset),
        ("A", 11, unset),
        ("B", 11, set),
        ("R", 16, unset),
        ("A", 11, unset),
        ("ABR", 19, unset),
        ("AB", 15, set),
    ];
    assert!(rt; ticks_so(&rt, rt.alloc(), &ABRO, &ticks));
}

/// The report of the first tick of an image by so many workers.
pub(crate) fn first_report<R: Threads + Wait + Sync, G: Gate + Sync>(
    rt: &R,
    alloc: Global,
    bytes: &[u8],
    workers: u8,
    gate: &G,
) -> Option<Report> {
    let image = valid(alloc, bytes)?;
    let mut control = Control::initial(alloc, image.get().image().program()).ok()?;
    tick(rt, alloc, image.get(), &mut control, "", workers, gate)
}

// Whether the first worker takes all 19 steps.
fn is_by_one(report: Option<Report>) -> bool {
    match report {
        Some(report) => report.by[1] == 19 && report.history.len() == 19,
        None => false,
    }
}

#[test]
fn little_work_is_not_shared(rt: HostRuntime) {
    assert!(rt; is_by_one(first_report(&rt, rt.alloc(), &EIGHT_BRANCHES, 8, &NoGate)));
}
