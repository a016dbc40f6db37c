//! The history of a tick, and its report.

ghost use Rattle.std.specs.Prelude.{◌≡◌, ◌<◌, ◌==◌, ◌^◌, ℕ, count_by, length, slice_index};

use sc_graph::ThreadId;
use sqlite_items::Items;

/// One step of a tick: the thread that took it, and the worker on whose claim.
#[derive(Clone, Copy, PartialEq, Eq)]
pub struct Entry {
    pub thread: ThreadId,
    pub worker: u8,
}

/// The steps of a finished tick: its history, and for each worker from 0 how many of them bear it.
#[derive(Drop)]
pub struct Report {
    pub history: Items<Entry>,
    pub by: [u32; 9],
}

impl Report {
    /// The report of a history.
    pub(crate) fn of(history: Items<Entry>) -> Report
        requires { length history < 2 ^ 32 }
        ensures history { result.history ≡ history }
        ensures by { (w : ℕ) → w < 9 → slice_index result.by w ≡ count_by (λ e. e.worker == w) history }
    {
        let by = counts_of(history.as_slice());
        Report { history, by }
    }
}

// For each worker from 0, how many entries bear it.
fn counts_of(history: &[Entry]) -> [u32; 9]
    requires { length history.now < 2 ^ 32 }
    ensures { (w : ℕ) → w < 9 → slice_index result w ≡ count_by (λ e. e.worker == w) history.now }
{
    let mut counts = [0; 9];
    for entry in history {
        let worker = entry.worker as usize;
        if worker < counts.len() {
            counts[worker] += 1;
        }
    }
    counts
}
