//! A chart that is compiled.

ghost use Rattle.std.specs.Prelude.{◌≡◌, ◌≤◌, IfErr, IfOk};
ghost use Rattle.sc_graph.specs.Tick.{initial};
ghost use Rattle.node_states.specs.Active.{active_states};
ghost use Rattle.compiled_charts.specs.Kept.{ShowsItsReaction};
ghost use Rattle.compiled_charts.specs.Ticks.{AreTicks};
ghost use Rattle.compiled_charts.specs.Refused.{IsRunRefused};

use crate::marking::active_states;
use crate::running::{RunFault, run_all};
use sc_graph::Control;
use sqlite_items::Items;
use std::alloc::{AllocError, Global};
use std::marker::Model;
use std::sync::Wait;
use std::thread::Threads;
use tick_core::Inputs;
use verifier::Verified;

/// The image of a chart, and for which of the chart's states each of its nodes stands. States are numbered from
/// 0 in the order of the text.
#[derive(Drop)]
pub struct Compiled {
    verified: Verified,
    states: u32,
    nodes: Items<Option<u32>>,
}

impl Model for Compiled {
    ghost use Rattle.compiled_charts.specs.Compiled.{CompiledChart};

    ghost Value = { CompiledChart };

    ghost view = { λ c. record { image = c.verified; states = c.states; nodes = c.nodes } };
}

impl Compiled {
    /// What is known of a chart that is compiled.
    pub(crate) fn known(verified: Verified, states: u32, nodes: Items<Option<u32>>) -> Compiled
        ensures { result ≡ record { image = verified; states = states; nodes = nodes } }
    {
        Compiled {
            verified,
            states,
            nodes,
        }
    }

    /// Its image, which is valid.
    pub fn image(&self) -> &Verified
        ensures { result.now ≡ self.now.image }
    {
        &self.verified
    }

    /// For which of the chart's states each of its nodes stands.
    pub fn nodes(&self) -> &[Option<u32>]
        ensures { result.now ≡ self.now.nodes }
    {
        self.nodes.as_slice()
    }

    /// The same image, whose nodes stand for these of so many states.
    pub fn standing_for(self, states: u32, nodes: Items<Option<u32>>) -> Compiled
        ensures { result ≡ record { image = self.image; states = states; nodes = nodes } }
    {
        Compiled {
            verified: self.verified,
            states,
            nodes,
        }
    }

    /// Runs ticks from the configuration before the first one, with 1 to 8 workers, and gives the configuration
    /// after each: they show the reaction of the chart, which has exactly one, with its variables and its active
    /// states, and that of its core chart. `Input` names, counted from 1, the first tick whose inputs are not accepted.
    /// `Memory`: it was refused.
    #[tactic(auto, using(crate::proofs::Kept::run_shows))]
    pub fn run<R: Threads + Wait + Sync>(
        &self,
        rt: &R,
        alloc: Global,
        ticks: &[Inputs],
        workers: u8,
    ) -> Result<Items<Control>, RunFault>
        requires workers { (1 ≤ workers) × (workers ≤ 8) }
        ensures ticks { IfOk result (AreTicks self.now.image ticks.now (initial self.now.image.program)) }
        ensures reaction { IfOk result (ShowsItsReaction self.now ticks.now) }
        ensures refused { IfErr result (IsRunRefused self.now.image.program ticks.now) }
    {
        run_all(rt, alloc, &self.verified, ticks, workers)
    }

    /// The chart's states that are active in a configuration between two ticks, ascending. Err: memory was refused.
    pub fn active(&self, alloc: Global, control: &Control) -> Result<Items<u32>, AllocError>
        ensures { IfOk result (λ states. states ≡ active_states self.now.nodes self.now.states control.now) }
    {
        active_states(alloc, self.nodes.as_slice(), self.states, control)
    }
}
