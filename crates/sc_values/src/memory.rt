//! A source and a sink over memory, which can fail at a given call and move a few bytes at a time.

ghost use Rattle.std.specs.Prelude.{◌≡◌, ◌<◌, ◌+◌, if◌then◌else◌, [], Some};
ghost use Rattle.sc_values.specs.Streams.{failures_of};

use crate::name::write_front;
use crate::of_std::Failures;
use crate::streams::{Failed, Progress, Sink, Source};
use std::alloc::Global;
use std::sync::ledger::Ledger;

/// When a source or a sink over memory fails: once at most.
#[derive(Clone, Copy, PartialEq, Eq)]
pub enum Plan {
    Never,
    /// At the call after so many calls.
    After(u64),
    /// It has failed, and doesn't again.
    Failed,
}

impl Plan {
    // Whether this call fails, and the plan for the calls after it.
    fn next(self) -> (bool, Plan)
        ensures { failures_of result.1 ≡ failures_of self + (if result.0 then 1 else 0) }
    {
        match self {
            Plan::After(0) => (true, Plan::Failed),
            Plan::After(calls) => (false, Plan::After(calls - 1)),
            plan => (false, plan),
        }
    }
}

/// A source over a slice, `rest`: at most `each` bytes a call, which is more than 0. It fails by
/// plan, and keeps how far it was read.
#[derive(Drop)]
pub struct FromSlice<'a> {
    pub rest: &'a [u8],
    pub each: usize,
    pub plan: Plan,
    pub progress: Progress,
    ghost some: { 0 < each },
}

impl Source for FromSlice<'_> {
    ghost to_come = { λ s. Some s.rest.now };

    ghost progress = { λ s. Some s.progress };

    ghost failures = { λ s. failures_of s.plan };

    fn read(&mut self, buf: &mut [u8]) -> Result<usize, Failed> {
        let (fails, plan) = self.plan.next();
        self.plan = plan;
        if fails {
            self.progress = self.progress.after(Err(Failed), buf.len());
            return Err(Failed);
        }
        let count = self.rest.len().min(buf.len()).min(self.each);
        let (front, rest) = self.rest.split_at(count);
        write_front(buf, front);
        self.rest = rest;
        self.progress = self.progress.after(Ok(count), buf.len());
        Ok(count)
    }
}

/// A sink that keeps what it takes in memory: at most `each` bytes a call, which is more than 0. It
/// fails by plan, and where memory is refused.
#[derive(Drop)]
pub struct ToVec<L: Ledger> {
    pub bytes: Vec<u8>,
    pub each: usize,
    pub plan: Plan,
    failed: Failures<L>,
    ghost some: { 0 < each },
}

impl<L: Ledger> ToVec<L> {
    /// It has taken nothing yet. `failed` counts its failures.
    pub fn new(alloc: Global, each: usize, plan: Plan, failed: Failures<L>) -> ToVec<L>
        requires { 0 < each }
        ensures bytes { result.bytes.items ≡ [] }
        ensures each { result.each ≡ each }
        ensures plan { result.plan ≡ plan }
        ensures failed { result.failed ≡ failed }
    {
        ToVec {
            bytes: Vec::new(alloc),
            each,
            plan,
            failed,
        }
    }
}

impl<L: Ledger> Sink for ToVec<L> {
    ghost taken = { λ s. Some s.bytes.items };

    ghost failures = { λ s. s.failed };

    fn write(&mut self, buf: &[u8]) -> Result<usize, Failed> {
        let (fails, plan) = self.plan.next();
        self.plan = plan;
        let count = buf.len().min(self.each);
        if fails || self.bytes.extend_from_slice(&buf[..count]).is_err() {
            self.failed.add();
            return Err(Failed);
        }
        Ok(count)
    }
}
