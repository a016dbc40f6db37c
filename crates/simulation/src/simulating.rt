//! A session from line to line.

ghost use Rattle.std.specs.Prelude.{◌≡◌, ◌≢◌, ◌+◌, ◌↔◌, true, false, IsTrue, IfErr, IfOk, IsErrOf, OnOk};
ghost use Rattle.std.specs.Io.KnownBytes.{Appends};
ghost use Rattle.sc_values.specs.Streams.{StaysOpen, IsNotReadBehind};
ghost use Rattle.trace_lines.specs.Lines.{ahead};
ghost use Rattle.trace_player.specs.Trace.{next_number};
ghost use Rattle.simulation.specs.History.{begun};
ghost use Rattle.simulation.specs.Lines.{AnswersAll, Simulates, Stops};
ghost use Rattle.simulation.specs.Inside.Turns.{IsUnanswered, Leaves, TurnsTo};

use crate::answering::answer;
use crate::session::Session;
use crate::states::States;
use sc_values::{Sink, Source, write_all};
use std::alloc::Global;
use trace_lines::{LineEnd, Lines, LinesFault};
use trace_player::PlayFault;
use verifier::Verified;

// Whether more is to be read behind a line that ends so.
fn goes_on(end: LineEnd) -> bool
    ensures { IsTrue result ↔ (end ≡ LineEnd.Feed) }
{
    end == LineEnd::Feed
}

// Writes an answer. Whether the sink took it whole.
fn write<K: Sink>(sink: &mut K, text: &[u8]) -> bool
    ensures whole { result ≡ true → Appends (K.taken sink.old) (K.taken sink.new) text.now }
    ensures none_failed { result ≡ true → K.failures sink.new ≡ K.failures sink.old }
    ensures failed { result ≡ false → K.failures sink.new ≡ K.failures sink.old + 1 }
{
    match write_all(sink, text) {
        Ok(()) => true,
        Err(_) => false,
    }
}

const GREETING: &str = "type help to be told what can be said\n";

// The number of the line behind the one of this number, which counts up to the greatest.
fn next_number(number: u64) -> u64
    ensures { result ≡ next_number number }
{
    number.saturating_add(1)
}

/// Steps an image by hand: does what each line of the input says, and answers it before the next one is read, until
/// one says that this is the end, or behind the last. `NotJson`: the line of this number is too long.
#[tactic(auto, using(crate::proofs::Reading::not_read))]
pub fn simulate<S: Source, K: Sink, W: States>(
    alloc: Global,
    image: &Verified,
    states: Option<&W>,
    source: &mut S,
    sink: &mut K,
) -> Result<(), PlayFault>
    ensures done { OnOk result (Simulates image.now (S.to_come source.old) (K.taken sink.old) (K.taken sink.new)) }
    ensures left { IfErr result (Stops image.now (S.to_come source.old) (K.taken sink.old) (K.taken sink.new)) }
    ensures read { IsErrOf result PlayFault.Read
        → S.failures source.new ≡ S.failures source.old + 1 }
    ensures not_read { result ≢ Err PlayFault.Read
        → S.failures source.new ≡ S.failures source.old }
    ensures end { IsNotReadBehind (S.progress source.old) (S.progress source.new) }
    ensures write { IsErrOf result PlayFault.Write
        → K.failures sink.new ≡ K.failures sink.old + 1 }
    ensures not_write { result ≢ Err PlayFault.Write
        → K.failures sink.new ≡ K.failures sink.old }
{
    let mut session = Session::new(alloc, image)?;
    let told = greet(alloc, &mut session, states, source, sink);
    drop(session);
    told
}

// Greets, and answers the lines of an input from the first tick on.
fn greet<S: Source, K: Sink, W: States>(
    alloc: Global,
    session: &mut Session<'_>,
    states: Option<&W>,
    source: &mut S,
    sink: &mut K,
) -> Result<(), PlayFault>
    requires { session.old ≡ begun session.old.image }
    ensures done { OnOk result
        (Simulates session.old.image (S.to_come source.old) (K.taken sink.old) (K.taken sink.new)) }
    ensures left { IfErr result (Stops session.old.image (S.to_come source.old) (K.taken sink.old) (K.taken sink.new)) }
    ensures read { IsErrOf result PlayFault.Read
        → S.failures source.new ≡ S.failures source.old + 1 }
    ensures not_read { result ≢ Err PlayFault.Read
        → S.failures source.new ≡ S.failures source.old }
    ensures end { IsNotReadBehind (S.progress source.old) (S.progress source.new) }
    ensures write { IsErrOf result PlayFault.Write
        → K.failures sink.new ≡ K.failures sink.old + 1 }
    ensures not_write { result ≢ Err PlayFault.Write
        → K.failures sink.new ≡ K.failures sink.old }
{
    let mut lines = Lines::new(alloc)?;
    if !write(sink, GREETING.as_bytes()) {
        return Err(PlayFault::Write);
    }
    go_on(alloc, session, states, &mut lines, source, sink)
}

// Answers the lines of an input, none of which was read.
fn go_on<S: Source, K: Sink, W: States>(
    alloc: Global,
    session: &mut Session<'_>,
    states: Option<&W>,
    lines: &mut Lines,
    source: &mut S,
    sink: &mut K,
) -> Result<(), PlayFault>
    ensures done { OnOk result (AnswersAll session.old (ahead lines.old (S.to_come source.old))
        (K.taken sink.old) (K.taken sink.new)) }
    ensures left { IfErr result (Leaves session.old (ahead lines.old (S.to_come source.old))
        (K.taken sink.old) (K.taken sink.new)) }
    ensures read { IsErrOf result PlayFault.Read
        → S.failures source.new ≡ S.failures source.old + 1 }
    ensures not_read { result ≢ Err PlayFault.Read
        → S.failures source.new ≡ S.failures source.old }
    ensures end { IsNotReadBehind (S.progress source.old) (S.progress source.new) }
    ensures write { IsErrOf result PlayFault.Write
        → K.failures sink.new ≡ K.failures sink.old + 1 }
    ensures not_write { result ≢ Err PlayFault.Write
        → K.failures sink.new ≡ K.failures sink.old }
{
    let mut line = Vec::new(alloc);
    let mut number: u64 = 0;
    for _turn in 0..u128::MAX {
        number = next_number(number);
        match turn(
            alloc, session, states, lines, &mut line, number, source, sink,
        ) {
            Ok(true) => {}
            Ok(false) => return Ok(()),
            Err(fault) => return Err(fault),
        }
    }
    Err(PlayFault::Memory)
}

// Reads the line of this number, and answers it. Whether more is to be read.
fn turn<S: Source, K: Sink, W: States>(
    alloc: Global,
    session: &mut Session<'_>,
    states: Option<&W>,
    lines: &mut Lines,
    line: &mut Vec<u8>,
    number: u64,
    source: &mut S,
    sink: &mut K,
) -> Result<bool, PlayFault>
    ensures done { IfOk result (λ more. TurnsTo more session.old session.new
        (ahead lines.old (S.to_come source.old)) (ahead lines.new (S.to_come source.new))
        (K.taken sink.old) (K.taken sink.new)) }
    ensures left { IfErr result (IsUnanswered number (ahead lines.old (S.to_come source.old))
        (K.taken sink.old) (K.taken sink.new)) }
    ensures read { IsErrOf result PlayFault.Read
        → S.failures source.new ≡ S.failures source.old + 1 }
    ensures not_read { result ≢ Err PlayFault.Read
        → S.failures source.new ≡ S.failures source.old }
    ensures end { IsNotReadBehind (S.progress source.old) (S.progress source.new) }
    ensures going { IfOk result (λ more. IsTrue more → StaysOpen (S.progress source.old) (S.progress source.new)) }
    ensures write { IsErrOf result PlayFault.Write
        → K.failures sink.new ≡ K.failures sink.old + 1 }
    ensures not_write { result ≢ Err PlayFault.Write
        → K.failures sink.new ≡ K.failures sink.old }
{
    let end = match lines.next(line, source) {
        Ok(Some(end)) => end,
        Ok(None) => return Ok(false),
        Err(LinesFault::Memory) => return Err(PlayFault::Memory),
        Err(LinesFault::Read) => return Err(PlayFault::Read),
        Err(LinesFault::TooLong) => return Err(PlayFault::NotJson(number)),
    };
    let told = match answer(alloc, session, states, line) {
        Ok(Some(told)) => told,
        Ok(None) => return Ok(false),
        Err(_) => return Err(PlayFault::Memory),
    };
    if !write(sink, &told) {
        return Err(PlayFault::Write);
    }
    Ok(goes_on(end))
}
