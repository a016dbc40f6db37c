//! Where a trace stands.

ghost use Rattle.std.specs.Prelude.{◌≡◌, IfOk};
ghost use Rattle.sc_graph.specs.Tick.{Rests};
ghost use Rattle.ruled_runs.specs.Trace.{at_first};

use sc_graph::Program;
use std::alloc::{AllocError, Global};
use tick_core::Control;

/// Where a trace stands: between two lines of its input.
#[derive(Drop)]
pub struct RunPlace {
    /// How many lines were read.
    pub lines: u64,
    /// The number of the last tick.
    pub ticks: u64,
    /// The configuration.
    pub control: Control,
}

impl RunPlace {
    /// Before the first line and the first tick of a program. Err: memory was refused.
    pub fn at_first(alloc: Global, program: &Program) -> Result<RunPlace, AllocError>
        ensures value { IfOk result (λ place. place ≡ at_first program.now) }
        ensures rests { IfOk result (λ place. Rests program.now place.control) }
    {
        let control = Control::initial(alloc, program)?;
        Ok(RunPlace {
            lines: 0,
            ticks: 0,
            control,
        })
    }
}
