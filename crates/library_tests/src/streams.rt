//! Sources and sinks over std's readers and writers and over memory, with short calls and failing ones.

ghost use Rattle.std.specs.Prelude.{◌≡◌, ◌<◌, ◌≤◌, IfOk};

use sc_values::{
    Failed, Failures, FromSlice, OfRead, OfWrite, Plan, Progress, Sink, Source, ToVec, write_all,
};
use std::alloc::Global;
use std::io::{self, Read, Write};
use std::marker::Brand;
use std::sync::ledger::{Blank, Ledger};
use std::test::Fail;

// What std's readers and writers answer in these tests.
#[derive(Clone, Copy)]
enum Turn {
    // at most two bytes
    Two,
    Nothing,
    Fault,
}

impl Turn {
    // How many of so many bytes move.
    fn count(self, all: usize) -> io::Result<usize>
        ensures { IfOk result (λ n. n ≤ all) }
    {
        match self {
            Turn::Two => Ok(all.min(2)),
            Turn::Nothing => Ok(0),
            Turn::Fault => Err(io::Error::from(io::ErrorKind::BrokenPipe)),
        }
    }
}

// The turn of a call, of which the second answers otherwise than the rest.
#[derive(Drop)]
struct Turns {
    calls: usize,
    second: Turn,
}

impl Turns {
    fn next(&mut self) -> Turn {
        self.calls = self.calls.saturating_add(1);
        if self.calls == 2 {
            self.second
        } else {
            Turn::Two
        }
    }
}

#[derive(Drop)]
struct Reader<'a> {
    rest: &'a [u8],
    turns: Turns,
}

impl Read for Reader<'_> {
    fn read(&mut self, buf: &mut [u8]) -> io::Result<usize> {
        let count = self.turns.next().count(self.rest.len().min(buf.len()))?;
        self.rest.read(&mut buf[..count])
    }
}

#[derive(Drop)]
struct Writer<'a> {
    taken: &'a mut Vec<u8>,
    turns: Turns,
}

impl Write for Writer<'_> {
    fn write(&mut self, buf: &[u8]) -> io::Result<usize> {
        let count = self.turns.next().count(buf.len())?;
        self.taken.extend_from_slice(&buf[..count])?;
        Ok(count)
    }

    fn flush(&mut self) -> io::Result<()> {
        Ok(())
    }
}

// What four reads of a source over `abc` answer, and the byte that each puts first.
fn four_reads<L: Ledger>(second: Turn, blank: Blank) -> [(Result<usize, Failed>, u8); 4]
    requires { (blank.name ≡ L.name) × (blank.parts ≡ L.parts) × (0 < L.parts) }
{
    let reader = Reader {
        rest: b"abc",
        turns: Turns { calls: 0, second },
    };
    let mut source: OfRead<_, L> = OfRead::new(reader, Failures::none(blank));
    let mut answers = [(Ok(0), b'-'); 4];
    for answer in answers.iter_mut() {
        let mut buf = [b'-'; 8];
        let read = source.read(&mut buf);
        *answer = (read, buf[0]);
    }
    answers
}

fn reads_of(second: Turn) -> [(Result<usize, Failed>, u8); 4] {
    four_reads::<Brand>(second, Blank::new(1))
}

#[test]
fn a_source_goes_on_behind_a_failed_read(rt: HostRuntime) {
    let fault = [
        (Ok(2), b'a'),
        (Err(Failed), b'-'),
        (Ok(1), b'c'),
        (Ok(0), b'-'),
    ];
    assert!(rt; reads_of(Turn::Fault) == fault);
    let short = [(Ok(2), b'a'), (Ok(1), b'c'), (Ok(0), b'-'), (Ok(0), b'-')];
    assert!(rt; reads_of(Turn::Two) == short);
}

// Whether a sink over a writer takes `abcde` and then `f`. It writes them to `taken`.
fn two_writes<L: Ledger>(taken: &mut Vec<u8>, second: Turn, blank: Blank) -> (bool, bool)
    requires { (blank.name ≡ L.name) × (blank.parts ≡ L.parts) × (0 < L.parts) }
{
    let writer = Writer {
        taken,
        turns: Turns { calls: 0, second },
    };
    let mut sink: OfWrite<_, L> = OfWrite::new(writer, Failures::none(blank));
    let first = write_all(&mut sink, b"abcde").is_ok();
    (first, write_all(&mut sink, b"f").is_ok())
}

// Whether a sink over a writer takes `abcde` and then `f` so, and this is written.
fn writes_so(alloc: Global, second: Turn, took: (bool, bool), written: &[u8]) -> bool {
    let mut taken = Vec::new(alloc);
    two_writes::<Brand>(&mut taken, second, Blank::new(1)) == took && taken.as_slice() == written
}

#[test]
fn a_sink_takes_a_beginning_where_a_write_fails(rt: HostRuntime) {
    for (second, took, written) in [
        (Turn::Two, (true, true), b"abcdef".as_slice()),
        (Turn::Fault, (false, true), b"abf".as_slice()),
        (Turn::Nothing, (false, true), b"abf".as_slice()),
    ] {
        assert!(rt; writes_so(rt.alloc(), second, took, written));
    }
}

// Whether a sink over memory takes `abcde` and then `f` so, and keeps this.
fn keeps_so<L: Ledger>(
    alloc: Global,
    plan: Plan,
    took: (bool, bool),
    kept: &[u8],
    blank: Blank,
) -> bool
    requires { (blank.name ≡ L.name) × (blank.parts ≡ L.parts) × (0 < L.parts) }
{
    let mut sink: ToVec<L> = ToVec::new(alloc, 2, plan, Failures::none(blank));
    let first = write_all(&mut sink, b"abcde").is_ok();
    let second = write_all(&mut sink, b"f").is_ok();
    (first, second) == took && sink.bytes.as_slice() == kept
}

fn keeps(alloc: Global, plan: Plan, took: (bool, bool), kept: &[u8]) -> bool {
    keeps_so::<Brand>(alloc, plan, took, kept, Blank::new(1))
}

#[test]
fn memory_fails_as_planned(rt: HostRuntime) {
    for (plan, took, kept) in [
        (Plan::Never, (true, true), b"abcdef".as_slice()),
        (Plan::After(2), (false, true), b"abcdf".as_slice()),
        (Plan::After(3), (true, false), b"abcde".as_slice()),
    ] {
        assert!(rt; keeps(rt.alloc(), plan, took, kept));
    }
}

// What a read of a slice into so many bytes answers, the byte that it puts first, and how far the slice was read.
fn read_of(source: &mut FromSlice<'_>, room: usize) -> (Result<usize, Failed>, u8, Progress) {
    let mut buf = [b'-'; 8];
    let read = source.read(&mut buf[..room.min(8)]);
    (read, buf[0], source.progress)
}

#[test]
fn a_slice_fails_as_planned(rt: HostRuntime) {
    let mut source = FromSlice {
        rest: b"abc",
        each: 2,
        plan: Plan::After(1),
        progress: Progress::Open,
    };
    for (room, answer) in [
        (8, (Ok(2), b'a', Progress::Open)),
        (8, (Err(Failed), b'-', Progress::Open)),
        (8, (Ok(1), b'c', Progress::Open)),
        (0, (Ok(0), b'-', Progress::Open)),
        (8, (Ok(0), b'-', Progress::Ended)),
        (8, (Ok(0), b'-', Progress::Behind)),
    ] {
        assert!(rt; read_of(&mut source, room) == answer);
    }
}
