//! Ticks whose steps pass a gate that watches them.
use crate::gates::Meeting;
use crate::samples::{MANY_BRANCHES, WRAPPING_SUM, WRITE_AND_READ};
use crate::workers::ticks::first_report;
use sc_graph::ThreadId;
use std::sync::atomic::{AtomicU64, Ordering};
use tick_core::{Entry, Report};
use worker_pool::Gate;

/// It counts passings, by worker.
#[derive(Drop)]
pub(crate) struct Counting {
    first: AtomicU64,
    second: AtomicU64,
    others: AtomicU64,
}

impl Counting {
    pub(crate) fn new() -> Counting {
        Counting {
            first: AtomicU64::new(0),
            second: AtomicU64::new(0),
            others: AtomicU64::new(0),
        }
    }

    /// Whether the report counts the same.
    pub(crate) fn agrees(&self, report: Option<Report>) -> bool {
        let Some(report) = report else {
            return false;
        };
        let by = report.by;
        let first = u64::from(by[1]);
        let second = u64::from(by[2]);
        by[0] == 0
            && self.first.load(Ordering::SeqCst) == first
            && self.second.load(Ordering::SeqCst) == second
            && self.others.load(Ordering::SeqCst) == 0
            && first.wrapping_add(second) == report.history.len() as u64
    }
}

impl Gate for Counting {
    fn passing(&self, worker: u8, _thread: ThreadId) {
        match worker {
            1 => self.first.fetch_add(1, Ordering::SeqCst),
            2 => self.second.fetch_add(1, Ordering::SeqCst),
            _ => self.others.fetch_add(1, Ordering::SeqCst),
        };
    }
}

// The worker of the first step of a thread.
fn worker_of(history: &[Entry], thread: ThreadId) -> u8 {
    for entry in history {
        if entry.thread == thread {
            return entry.worker;
        }
    }
    0
}

// Whether the steps of a tick met at the gate, none of them worker 0's.
fn are_at_once(gate: &Meeting, report: Option<Report>) -> bool {
    match report {
        Some(report) => gate.met() && report.by[0] == 0,
        None => false,
    }
}

#[test]
fn two_pieces_at_once(rt: HostRuntime) {
    let gate = Meeting::of(1);
    assert!(rt;
        are_at_once(
            &gate,
            first_report(&rt, rt.alloc(), &WRAPPING_SUM, 2, &gate)
        )
    );
}

// Whether the steps of a tick met at the gate, and one worker had claimed the first ones of threads 1 and 2.
fn are_handed_over(gate: &Meeting, report: Option<Report>) -> bool {
    let Some(report) = report else {
        return false;
    };
    let worker = worker_of(report.history.as_slice(), 1);
    gate.met() && worker > 0 && worker_of(report.history.as_slice(), 2) == worker
}

#[test]
fn handed_over(rt: HostRuntime) {
    let gate = Meeting::of(1);
    assert!(rt;
        are_handed_over(
            &gate,
            first_report(&rt, rt.alloc(), &WRAPPING_SUM, 2, &gate)
        )
    );
}

#[test]
fn counted_passings(rt: HostRuntime) {
    let gate = Counting::new();
    assert!(rt; gate.agrees(first_report(&rt, rt.alloc(), &WRITE_AND_READ, 2, &gate)));
}

#[test]
fn many_passings_are_counted(rt: HostRuntime) {
    let gate = Counting::new();
    assert!(rt; gate.agrees(first_report(&rt, rt.alloc(), &MANY_BRANCHES, 2, &gate)));
}
