//! The trace of the ticks that a text spells.

ghost use Rattle.std.specs.Prelude.{◌≡◌, ◌<◌, IfErr, IfOk};
ghost use Rattle.trace_player.specs.Trace.{Good};
ghost use Rattle.controller_tests.specs.Inside.Comparing.{in_memory};
ghost use Rattle.controller_tests.specs.Outcome.{LacksTrace, MakesTrace};

use crate::silent::Silent;
use sc_values::{Failures, FromSlice, Plan, Progress, ToVec};
use state_traces::{play_with, without_words};
use std::alloc::Global;
use std::marker::Brand;
use std::sync::ledger::{Blank, Ledger};
use trace_player::PlayFault;
use verifier::Verified;

// A fault as it is told of ticks in memory, which no read and no write can lose: where one fails, memory was refused.
fn in_memory(fault: PlayFault) -> PlayFault
    ensures { result ≡ in_memory fault }
{
    match fault {
        PlayFault::Read | PlayFault::Write => PlayFault::Memory,
        PlayFault::Input(_) | PlayFault::NotJson(_) | PlayFault::Memory => fault,
    }
}

// Plays ticks into memory. `written` is the ledger of the failures of that.
fn played<L: Ledger>(
    alloc: Global,
    image: &Verified,
    ticks: &[u8],
    written: Blank,
) -> Result<Vec<u8>, PlayFault>
    requires written { (written.name ≡ L.name) × (written.parts ≡ L.parts) × (0 < L.parts) }
    ensures whole { IfOk result (λ trace. MakesTrace image.now ticks.now trace.items Good) }
    ensures fault { IfErr result (LacksTrace image.now ticks.now) }
{
    without_words();
    let mut source = FromSlice {
        rest: ticks,
        each: usize::MAX,
        plan: Plan::Never,
        progress: Progress::Open,
    };
    let mut sink: ToVec<L> = ToVec::new(alloc, usize::MAX, Plan::Never, Failures::none(written));
    match play_with(alloc, image, &Silent, &mut source, &mut sink) {
        Ok(_) => Ok(sink.bytes),
        Err(fault) => Err(in_memory(fault)),
    }
}

/// The whole trace of the ticks that these bytes spell, a line for each, by an image: what `sct run` writes. Err: a
/// line ends it, which gives no inputs or is no object; or memory was refused.
pub fn trace_of(alloc: Global, image: &Verified, ticks: &[u8]) -> Result<Vec<u8>, PlayFault>
    ensures whole { IfOk result (λ trace. MakesTrace image.now ticks.now trace.items Good) }
    ensures fault { IfErr result (LacksTrace image.now ticks.now) }
{
    played::<Brand>(alloc, image, ticks, Blank::new(1))
}
