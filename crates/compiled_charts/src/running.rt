//! Ticks in a row.

ghost use Rattle.std.specs.Prelude.{◌≡◌, ◌≤◌, IfErr, IfOk};
ghost use Rattle.sc_graph.specs.Tick.{initial};
ghost use Rattle.compiled_charts.specs.Refused.{IsRunRefused};
ghost use Rattle.compiled_charts.specs.Ticks.{AreTicks};

use sc_graph::Control;
use sqlite_items::Items;
use std::alloc::{AllocError, Global};
use std::sync::Wait;
use std::thread::Threads;
use tick_core::{BeginFault, Inputs, copied};
use verifier::Verified;
use worker_pool::{NoGate, run_tick};

/// Why ticks were not run.
#[derive(Clone, Copy, Debug, PartialEq, Eq)]
pub enum RunFault {
    /// In this tick, counted from 1, an input names no input variable, has another kind, or comes twice. All
    /// before it are accepted.
    Input(u64),
    /// Memory was refused.
    Memory,
}

impl From<AllocError> for RunFault {
    ghost use Rattle.compiled_charts.specs.declared.running.RunFault.TheVariants.{Memory};

    ghost from_gives = { λ _ e. e ≡ Memory };

    fn from(_error: AllocError) -> RunFault {
        RunFault::Memory
    }
}

/// Runs ticks from the configuration before the first one, and gives the configuration after each.
#[tactic(auto, using(crate::proofs::Row::none_ran, crate::proofs::Row::on_at, crate::proofs::Row::ran_all, crate::proofs::Row::refused_at))]
pub(crate) fn run_all<R: Threads + Wait + Sync>(
    rt: &R,
    alloc: Global,
    verified: &Verified,
    ticks: &[Inputs],
    workers: u8,
) -> Result<Items<Control>, RunFault>
    requires workers { (1 ≤ workers) × (workers ≤ 8) }
    ensures ticks { IfOk result (AreTicks verified.now ticks.now (initial verified.now.program)) }
    ensures refused { IfErr result (IsRunRefused verified.now.program ticks.now) }
{
    let gate = NoGate;
    let mut present = Control::initial(alloc, verified.image().program())?;
    let mut controls = Items::new(alloc);
    for (at, inputs) in ticks.iter().enumerate() {
        let (next, _) = match run_tick(rt, alloc, verified, &present, inputs, workers, &gate) {
            Ok(ran) => ran,
            Err(BeginFault::Input) => return Err(RunFault::Input(at as u64 + 1)),
            Err(BeginFault::Memory) => return Err(RunFault::Memory),
        };
        controls.push(copied(alloc, &next)?)?;
        present = next;
    }
    Ok(controls)
}
