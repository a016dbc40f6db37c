//! Sources and sinks of bytes.

ghost use Rattle.std.specs.Prelude.{ℕ, List, Option, None, ◌≡◌, ◌+◌, ◌≤◌, OnOk, OnErr, length, option_map};
ghost use Rattle.std.specs.Io.{ReadsAtMost, WritesAtMost};
ghost use Rattle.std.specs.Io.KnownBytes.{Appends, ReadConsumes, WriteAppends};
ghost use Rattle.sc_values.specs.Streams.{failed_reads, failed_writes, progress_after, GrowsInto};

/// A read or a write failed.
#[derive(Clone, Copy, Debug, PartialEq, Eq)]
pub struct Failed;

/// How far a source was read.
#[derive(Clone, Copy, PartialEq, Eq)]
pub enum Progress {
    /// It has not said its end: that no byte is to come.
    Open,
    /// It has said its end, and was not read since.
    Ended,
    /// It was read after it had said its end.
    Behind,
}

impl Progress {
    /// How far a source was read that was read once more, into so much room, with this result.
    pub fn after(self, read: Result<usize, Failed>, room: usize) -> Progress
        ensures { result ≡ progress_after self read room }
    {
        match self {
            Progress::Open if room > 0 && read == Ok(0) => Progress::Ended,
            Progress::Open => Progress::Open,
            Progress::Ended | Progress::Behind => Progress::Behind,
        }
    }
}

/// What bytes come from. Contracts may see the bytes that are to come and how far it was read, and see how often it
/// failed.
pub trait Source {
    ghost use Rattle.sc_values.specs.declared.streams.Progress.{Progress};

    ghost to_come: { Self → Option (List ℕ) } = { λ _. None };

    ghost progress: { Self → Option Progress } = { λ _. None };

    ghost failures: { Self → ℕ };

    /// Puts the next bytes to the front of `buf`, and says how many. `Ok(0)`: none are to come, or
    /// `buf` is empty. At an `Err` none were taken, and it counts as a failure.
    fn read(&mut self, buf: &mut [u8]) -> Result<usize, Failed>
        ensures bound { ReadsAtMost result buf.new }
        ensures bytes { ReadConsumes (to_come self.old) (to_come self.new) result buf.new }
        ensures progress { progress self.new
            ≡ option_map (λ p. progress_after p result (length buf.new)) (progress self.old) }
        ensures count { failures self.new ≡ failures self.old + failed_reads result };
}

/// What bytes go to. Contracts may see the bytes that it took, and see how often it failed.
pub trait Sink {
    ghost taken: { Self → Option (List ℕ) } = { λ _. None };

    ghost failures: { Self → ℕ };

    /// Takes the first bytes of `buf`, and says how many. At an `Err` it took none. An `Err` counts as
    /// a failure, and so does `Ok(0)` where `buf` isn't empty.
    fn write(&mut self, buf: &[u8]) -> Result<usize, Failed>
        ensures bound { WritesAtMost result buf.now }
        ensures bytes { WriteAppends (taken self.old) (taken self.new) result buf.now }
        ensures count { failures self.new ≡ failures self.old + failed_writes result buf.now };
}

/// Writes all bytes. Err: the sink failed, once, by an `Err` or by taking none; it took a beginning
/// of them.
pub fn write_all<S: Sink>(sink: &mut S, bytes: &[u8]) -> Result<(), Failed>
    ensures ok { OnOk result (Appends (S.taken sink.old) (S.taken sink.new) bytes.now) }
    ensures none_failed { OnOk result (S.failures sink.new ≡ S.failures sink.old) }
    ensures some { GrowsInto (S.taken sink.old) (S.taken sink.new) bytes.now }
    ensures failed { OnErr result (S.failures sink.new ≡ S.failures sink.old + 1) }
{
    let mut from = 0;
    while from < bytes.len() {
        match sink.write(&bytes[from..]) {
            Ok(0) => return Err(Failed),
            Ok(count) => from += count,
            Err(fault) => return Err(fault),
        }
    }
    Ok(())
}
