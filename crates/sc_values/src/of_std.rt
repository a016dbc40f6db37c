//! The sources and sinks that std's readers and writers are.

ghost use Rattle.std.specs.Prelude.{◌≡◌, ℕ, ◌+◌, ◌<◌, Some};

use crate::streams::{Failed, Progress, Sink, Source};
use std::io::{Read, Write};
use std::marker::Model;
use std::sync::ledger::{Blank, Book, Ledger, Share};

/// A count of failures, which takes no bytes: contracts alone see it.
#[derive(Drop)]
pub struct Failures<L: Ledger> {
    book: Book<L>,
    share: Share<L>,
}

impl<L: Ledger> Model for Failures<L> {
    ghost use Rattle.std.specs.Prelude.{ℕ, ◌<◌};

    ghost Value = { ℕ };

    ghost view = { λ f. f.book.total };

    ghost invariant = { λ f. 0 < f.share.parts };
}

impl<L: Ledger> Failures<L> {
    /// None so far. The blank is that of this ledger.
    pub fn none(blank: Blank) -> Failures<L>
        requires name { blank.name ≡ L.name }
        requires parts { blank.parts ≡ L.parts }
        requires some { 0 < L.parts }
        ensures { result ≡ 0 }
    {
        let (book, share) = blank.open();
        Failures { book, share }
    }

    /// One more.
    pub fn add(&mut self)
        ensures { self.new ≡ self.old + 1 }
    {
        self.book.add(&mut self.share, 1);
    }
}

/// A source over one of std's readers.
#[derive(Drop)]
pub struct OfRead<R: Read + Drop, L: Ledger> {
    reader: R,
    progress: Progress,
    failed: Failures<L>,
}

impl<R: Read + Drop, L: Ledger> OfRead<R, L> {
    /// The source over this reader, of which no end is known, with the count of its failures so far.
    pub fn new(reader: R, failed: Failures<L>) -> OfRead<R, L>
        ensures reader { result.reader ≡ reader }
        ensures progress { result.progress ≡ Progress.Open }
        ensures failed { result.failed ≡ failed }
    {
        OfRead {
            reader,
            progress: Progress::Open,
            failed,
        }
    }
}

impl<R: Read + Drop, L: Ledger> Source for OfRead<R, L> {
    ghost to_come = { λ s. R.remaining s.reader };

    ghost progress = { λ s. Some s.progress };

    ghost failures = { λ s. s.failed };

    fn read(&mut self, buf: &mut [u8]) -> Result<usize, Failed> {
        match self.reader.read(buf) {
            Ok(count) => {
                self.progress = self.progress.after(Ok(count), buf.len());
                Ok(count)
            }
            Err(_) => {
                self.progress = self.progress.after(Err(Failed), buf.len());
                self.failed.add();
                Err(Failed)
            }
        }
    }
}

/// A sink over one of std's writers.
#[derive(Drop)]
pub struct OfWrite<W: Write + Drop, L: Ledger> {
    writer: W,
    failed: Failures<L>,
}

impl<W: Write + Drop, L: Ledger> OfWrite<W, L> {
    /// The sink over this writer, with the count of its failures so far.
    pub fn new(writer: W, failed: Failures<L>) -> OfWrite<W, L>
        ensures writer { result.writer ≡ writer }
        ensures failed { result.failed ≡ failed }
    {
        OfWrite { writer, failed }
    }
}

impl<W: Write + Drop, L: Ledger> Sink for OfWrite<W, L> {
    ghost taken = { λ s. W.contents s.writer };

    ghost failures = { λ s. s.failed };

    fn write(&mut self, buf: &[u8]) -> Result<usize, Failed> {
        match self.writer.write(buf) {
            Ok(count) => {
                if count == 0 && !buf.is_empty() {
                    self.failed.add();
                }
                Ok(count)
            }
            Err(_) => {
                self.failed.add();
                Err(Failed)
            }
        }
    }
}
