//! Words that tell nothing more of a tick than its outputs.

use sc_graph::Control;
use state_traces::Words;
use std::alloc::{AllocError, Global};

/// They tell nothing.
pub(crate) struct Silent;

impl Words for Silent {
    ghost use Rattle.state_traces.specs.Trace.{no_words};

    ghost words = { λ _. no_words };

    fn put(
        &self,
        _alloc: Global,
        line: &mut Vec<u8>,
        _control: &Control,
    ) -> Result<(), AllocError> {
        line.push(b'}')?;
        Ok(())
    }
}
