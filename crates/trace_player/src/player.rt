//! Playing an input.

ghost use Rattle.std.specs.Prelude.{◌≡◌, ◌≢◌, ◌+◌, ◌≤◌, min, ℕ, List, length};
ghost use Rattle.std.specs.Prelude.{Some, IfOk, IfErr, IsErrOf};
ghost use Rattle.sc_values.specs.Streams.{IsNotReadBehind};
ghost use Rattle.trace_player.specs.declared.player.PlayFault.TheVariants.{Memory};
ghost use Rattle.trace_player.specs.Trace.{Plays, Leaves, Good, greatest};
ghost use Rattle.trace_player.specs.Published.{PlaysAllTo, LeavesTo};

use crate::channels::{Streams, Watched};
use crate::hosting::host;
use probe::Publisher;
use sc_values::{Sink, Source};
use std::alloc::{AllocError, Global};
use std::marker::Brand;
use std::sync::Wait;
use std::thread::Threads;
use verifier::Verified;
use worker_pool::Gate;

/// Why an input was not played to its end. It prints as the number of the fault, and of the line.
#[derive(Clone, Copy, Debug, PartialEq, Eq)]
pub enum PlayFault {
    /// E51: on this line a member names no input, or has a value that the input's kind does not
    /// take.
    Input(u64),
    /// E52: memory was refused.
    Memory,
    /// E61: the source failed.
    Read,
    /// E62: this line is no JSON object, or is too long.
    NotJson(u64),
    /// E63: the sink failed, or took no byte.
    Write,
}

impl From<AllocError> for PlayFault {
    ghost from_gives = { λ _ e. e ≡ Memory };

    fn from(_error: AllocError) -> PlayFault {
        PlayFault::Memory
    }
}

/// Plays an input to an output, with 1 to 8 workers: for each line one tick and one output line. Output is held back
/// while the next line of the input is at hand, up to some 64 KB, and written before more is read, at the end, and
/// before a fault is told; behind the end of the input nothing is read. Gives the number of ticks.
/// `Input` and `NotJson` name the line at which the trace ends, and all before it was written; else
/// the lines of output of some first lines were, each whole, or at `Write` the last one perhaps in
/// part. Numbers stay at the greatest of 64 bits; after 2^128 lines it gives up as at `Memory`.
/// The caller's thread serves as worker 1; the others are started at the first round that is worth sharing, and live
/// until the trace ends. Each step passes the gate.
pub fn play<'x, R: Threads + Wait + Sync, S: Source, W: Sink, G: Gate + Sync>(
    rt: &R,
    alloc: Global,
    image: &'x Verified,
    source: &mut S,
    sink: &mut W,
    workers: u8,
    gate: &'x G,
) -> Result<u64, PlayFault>
    requires workers { (1 ≤ workers) × (workers ≤ 8) }
    ensures whole { IfOk result (λ ticks. (out : List (List ℕ)) × (ticks ≡ min (length out) greatest)
        × Plays image.now (S.to_come source.old) (W.taken sink.old) (W.taken sink.new) out Good) }
    ensures fault { IfErr result (Leaves image.now
        (S.to_come source.old) (W.taken sink.old) (W.taken sink.new)) }
    ensures read { IsErrOf result PlayFault.Read
        → S.failures source.new ≡ S.failures source.old + 1 }
    ensures not_read { result ≢ Err PlayFault.Read
        → S.failures source.new ≡ S.failures source.old }
    ensures end { IsNotReadBehind (S.progress source.old) (S.progress source.new) }
    ensures write { IsErrOf result PlayFault.Write
        → W.failures sink.new ≡ W.failures sink.old + 1 }
    ensures not_write { result ≢ Err PlayFault.Write
        → W.failures sink.new ≡ W.failures sink.old }
{
    let mut streams = Streams { source, sink };
    host::<Brand, R, G, Streams<'_, '_, S, W>>(rt, alloc, image, workers, gate, &mut streams)
}

/// Plays an input as `play` does, but holds nothing back: it publishes the end of each tick, and then writes its line
/// of output. So the ends of all ticks that have a line of output were published, and at `Write` that of the last one
/// too, whose line is perhaps there in part. `Memory` also where memory for publishing was refused.
pub fn play_to<'x, R: Threads + Wait + Sync, S: Source, W: Sink, G: Gate + Sync>(
    rt: &R,
    alloc: Global,
    image: &'x Verified,
    source: &mut S,
    sink: &mut W,
    workers: u8,
    gate: &'x G,
    publisher: &mut Publisher,
) -> Result<u64, PlayFault>
    requires workers { (1 ≤ workers) × (workers ≤ 8) }
    ensures whole { IfOk result (λ ticks. (out : List (List ℕ)) × (ticks ≡ min (length out) greatest)
        × Plays image.now (S.to_come source.old) (W.taken sink.old) (W.taken sink.new) out Good) }
    ensures fault { IfErr result (Leaves image.now
        (S.to_come source.old) (W.taken sink.old) (W.taken sink.new)) }
    ensures read { IsErrOf result PlayFault.Read
        → S.failures source.new ≡ S.failures source.old + 1 }
    ensures not_read { result ≢ Err PlayFault.Read
        → S.failures source.new ≡ S.failures source.old }
    ensures end { IsNotReadBehind (S.progress source.old) (S.progress source.new) }
    ensures write { IsErrOf result PlayFault.Write
        → W.failures sink.new ≡ W.failures sink.old + 1 }
    ensures not_write { result ≢ Err PlayFault.Write
        → W.failures sink.new ≡ W.failures sink.old }
    ensures published { IfOk result (PlaysAllTo image.now
        (S.to_come source.old) (W.taken sink.old) (W.taken sink.new)
        (Some publisher.old.rows) (Some publisher.new.rows)) }
    ensures published_before { IfErr result (LeavesTo image.now
        (S.to_come source.old) (W.taken sink.old) (W.taken sink.new)
        (Some publisher.old.rows) (Some publisher.new.rows)) }
    ensures publisher { publisher.new.publisher ≡ publisher.old.publisher }
{
    let mut watched = Watched {
        source,
        sink,
        publisher,
    };
    host::<Brand, R, G, Watched<'_, '_, '_, S, W>>(rt, alloc, image, workers, gate, &mut watched)
}
