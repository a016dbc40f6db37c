//! Which states of a text are active.

ghost use Rattle.std.specs.Prelude.{◌≡◌, IfOk};
ghost use Rattle.image_charts.specs.Written.{told_by};
ghost use Rattle.core_charts.specs.Paths.{paths_of};

use crate::written::Written;
use author_states::AuthorStates;
use compiled_charts::Compiled;
use core_charts::Chart;
use sc_graph::Control;
use simulation::States;
use sqlite_items::Items;
use state_traces::{Words, put_states, quoted_all};
use std::alloc::{AllocError, Global};
use std::marker::Model;
use verifier::Verified;

/// A compiled chart, whose nodes stand for the states that the author of its text wrote, and the paths of these.
/// Contracts see both.
#[derive(Drop)]
pub struct ChartStates {
    written: Written,
    shown: Vec<String>,
}

impl Model for ChartStates {
    ghost use Rattle.std.specs.Prelude.{◌≡◌, map, string_bytes};
    ghost use Rattle.json.specs.Print.{quoted};
    ghost use Rattle.image_charts.specs.Charts.{NamedStates};

    ghost Value = { NamedStates };

    ghost view = { λ s. s.written };

    ghost invariant = { λ s. map string_bytes s.shown.items ≡ map quoted s.written.paths };
}

impl ChartStates {
    /// What is told of a chart that is compiled: its states, or those of the author of an extended chart which is
    /// reduced to it.
    pub fn of(
        alloc: Global,
        chart: &Chart,
        compiled: Compiled,
        authors: Option<AuthorStates>,
    ) -> Result<ChartStates, AllocError>
        ensures { IfOk result (λ states. states
            ≡ told_by authors (record { compiled = compiled; paths = paths_of chart.now })) }
    {
        let written = Written::of(alloc, chart, compiled, authors)?;
        match quoted_all(alloc, written.paths()) {
            Ok(shown) => Ok(ChartStates { written, shown }),
            Err(error) => {
                drop(written);
                Err(error)
            }
        }
    }

    /// The image of the chart.
    pub fn image(&self) -> &Verified
        ensures { result.now ≡ self.now.compiled.image }
    {
        self.written.compiled().image()
    }
}

impl Words for ChartStates {
    ghost use Rattle.image_charts.specs.Charts.{state_words};

    ghost words = { λ s. state_words s };

    fn put(&self, alloc: Global, line: &mut Vec<u8>, control: &Control) -> Result<(), AllocError> {
        let active = self.written.compiled().active(alloc, control)?;
        put_states(line, &self.shown, active.as_slice())
    }
}

impl States for ChartStates {
    ghost use Rattle.node_states.specs.Active.{active_states};

    ghost paths = { λ s. s.paths };

    ghost active = { λ s c. active_states s.compiled.nodes s.compiled.states c };

    fn paths(&self) -> &[String] {
        self.written.paths()
    }

    fn active(&self, alloc: Global, control: &Control) -> Result<Items<u32>, AllocError> {
        self.written.compiled().active(alloc, control)
    }
}
