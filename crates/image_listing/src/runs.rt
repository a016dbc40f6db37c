//! Nodes as runs of numbers: ` 3 7-9`.

use sc_graph::NodeId;
use std::alloc::{AllocError, Global};

// How many runs a line shows.
const MOST_RUNS: u32 = 64;

// One node behind another one, and those between them.
#[derive(Clone, Copy)]
struct Run {
    first: NodeId,
    last: NodeId,
}

/// The numbers from one node to another: the first alone where they are one.
pub(crate) fn run_text(alloc: Global, first: NodeId, last: NodeId) -> Result<String, AllocError> {
    if first == last {
        format!(in alloc; "{first}")
    } else {
        format!(in alloc; "{first}-{last}")
    }
}

/// Nodes, one behind the other, as text: the first runs of their numbers, and how many nodes are in no run that is
/// shown.
#[derive(Drop)]
pub(crate) struct Runs {
    alloc: Global,
    text: String,
    open: Option<Run>,
    shown: u32,
    left_out: u32,
}

impl Runs {
    /// None.
    pub(crate) fn new(alloc: Global) -> Runs {
        Runs {
            alloc,
            text: String::new(alloc),
            open: None,
            shown: 0,
            left_out: 0,
        }
    }

    // Shows a run, or counts its nodes where enough are shown.
    fn write_run(&mut self, run: Run) -> Result<(), AllocError> {
        if self.shown >= MOST_RUNS {
            let more = u32::from(run.last.saturating_sub(run.first)).saturating_add(1);
            self.left_out = self.left_out.saturating_add(more);
            return Ok(());
        }
        self.shown = self.shown.saturating_add(1);
        let numbers = run_text(self.alloc, run.first, run.last)?;
        self.text.push_str(" ")?;
        self.text.push_str(numbers.as_str())
    }

    /// One more node.
    pub(crate) fn add(&mut self, node: NodeId) -> Result<(), AllocError> {
        let alone = Run {
            first: node,
            last: node,
        };
        match self.open {
            Some(run) if run.last.checked_add(1) == Some(node) => {
                self.open = Some(Run {
                    first: run.first,
                    last: node,
                });
            }
            Some(run) => {
                self.write_run(run)?;
                self.open = Some(alone);
            }
            None => self.open = Some(alone),
        }
        Ok(())
    }

    /// Their text. It is empty where there is none.
    pub(crate) fn into_text(mut self) -> Result<String, AllocError> {
        if let Some(run) = self.open {
            self.write_run(run)?;
        }
        let left_out = self.left_out;
        if left_out > 0 {
            let more = format!(in self.alloc; " and {left_out} more")?;
            self.text.push_str(more.as_str())?;
        }
        Ok(self.text)
    }
}
