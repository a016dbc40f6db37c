//! How an input is cut into lines.

ghost use Rattle.std.specs.Prelude.{◌≡◌, ◌≢◌, ◌+◌, ◌<◌, ◌≤◌, ◌↔◌, ◌++◌, [], false, true, Some, length, position};
ghost use Rattle.std.specs.Prelude.{IfOk, OnOk, OnErr, IfSome, IfNone, IsErrOf, IsTrue};
ghost use Rattle.std.specs.Bool.{OnFalse};
ghost use Rattle.trace_lines.specs.declared.lines.LinesFault.TheVariants.{Memory, Read};
ghost use Rattle.std.specs.Io.KnownBytes.{Consumes, IsAtEnd};
ghost use Rattle.sc_values.specs.Streams.{StaysOpen, IsNotReadBehind};
ghost use Rattle.trace_lines.specs.Lines.{line_limit, is_feed, has_feed, first_line, after_line, ahead};
ghost use Rattle.trace_lines.specs.Lines.{TakesLine, IsTooLong};

use memchr::memchr;
use sc_values::{Failed, Source};
use std::alloc::{AllocError, Global};
use std::marker::Model;

/// The most bytes that a line may have.
pub const LINE_LIMIT: usize = 65_536;

const PIECE: usize = 16_384;

/// Why there is no next line.
#[derive(Clone, Copy, Debug, PartialEq, Eq)]
pub enum LinesFault {
    /// Memory was refused.
    Memory,
    /// The source failed.
    Read,
    /// The line is too long.
    TooLong,
}

impl From<AllocError> for LinesFault {
    ghost from_gives = { λ _ e. e ≡ Memory };

    fn from(_error: AllocError) -> LinesFault {
        LinesFault::Memory
    }
}

impl From<Failed> for LinesFault {
    ghost from_gives = { λ _ e. e ≡ Read };

    fn from(_failed: Failed) -> LinesFault {
        LinesFault::Read
    }
}

/// How a line ends.
#[derive(Clone, Copy, PartialEq, Eq)]
pub enum LineEnd {
    /// At a line feed.
    Feed,
    /// At the end of the input.
    Input,
}

/// Cuts what a source gives into lines. Contracts see the bytes that were read and are in no line yet.
#[derive(Drop)]
pub struct Lines {
    piece: Vec<u8>,
    from: usize,
    to: usize,
    // where the first line feed stands among the bytes from `from` to `to`
    feed: Option<usize>,
}

impl Model for Lines {
    ghost use Rattle.std.specs.Prelude.{◌≡◌, ◌≤◌, ◌<◌, ℕ, List, length, position, slice_range};
    ghost use Rattle.trace_lines.specs.Lines.{is_feed};

    ghost Value = { List ℕ };

    ghost view = { λ l. slice_range l.piece.items l.from l.to };

    ghost invariant = { λ l. (l.from ≤ l.to) × (l.to ≤ length l.piece.items) × (0 < length l.piece.items)
        × (l.feed ≡ position is_feed (slice_range l.piece.items l.from l.to)) };
}

impl Lines {
    /// Cuts from the start of an input.
    pub fn new(alloc: Global) -> Result<Lines, AllocError>
        ensures { IfOk result (λ l. l ≡ []) }
    {
        Ok(Lines {
            piece: vec![in alloc; 0; PIECE]?,
            from: 0,
            to: 0,
            feed: None,
        })
    }

    // Moves the first line of the bytes that it holds, without its line feed, to the end of `line`.
    // Whether there was a line feed.
    fn move_line(&mut self, line: &mut Vec<u8>) -> Result<bool, AllocError>
        ensures feed { IfOk result (λ found. found ≡ has_feed self.old) }
        ensures line { OnOk result (line.new.items ≡ line.old.items ++ first_line self.old) }
        ensures rest { OnOk result (self.new ≡ after_line self.old) }
    {
        let held = &self.piece[self.from..self.to];
        match self.feed {
            Some(before) => {
                line.extend_from_slice(&held[..before])?;
                self.from += before + 1;
                self.feed = feed_in(&self.piece[self.from..self.to]);
                Ok(true)
            }
            None => {
                line.extend_from_slice(held)?;
                self.from = self.to;
                Ok(false)
            }
        }
    }

    // Reads the next bytes, when it holds none. Whether there are any.
    fn refill<R: Source>(&mut self, source: &mut R) -> Result<bool, Failed>
        requires empty { self.old ≡ [] }
        ensures bytes { OnOk result (Consumes (R.to_come source.old) (R.to_come source.new) self.new) }
        ensures more { IfOk result (λ more. IsTrue more ↔ (0 < length self.new)) }
        ensures none_failed { OnOk result (R.failures source.new ≡ R.failures source.old) }
        ensures failed { OnErr result (R.failures source.new ≡ R.failures source.old + 1) }
        ensures end { IfOk result (λ more. OnFalse more (IsAtEnd (R.to_come source.new))) }
        ensures going { IfOk result (λ more. IsTrue more
            → StaysOpen (R.progress source.old) (R.progress source.new)) }
        ensures not_behind { IsNotReadBehind (R.progress source.old) (R.progress source.new) }
    {
        self.from = 0;
        self.to = 0;
        self.feed = None;
        let read = source.read(&mut self.piece)?;
        self.to = read;
        self.feed = feed_in(&self.piece[self.from..self.to]);
        Ok(read > 0)
    }

    /// Whether the next line is at hand, with its line feed: `next` gives it and reads nothing.
    pub fn has_line(&self) -> bool
        ensures { result ≡ has_feed self.now }
    {
        self.feed.is_some()
    }

    /// Makes `line` the next line, without its line feed, and says how it ends; None at the end of the
    /// input. Where the line is at hand, nothing is read.
    /// A line that ends with the input is the last, and then nothing is to be read any more.
    /// `TooLong` where the line has more than 65,536 bytes, `Read` where the source failed. After an error
    /// the rest of the input is not to be read.
    pub fn next<R: Source>(
        &mut self,
        line: &mut Vec<u8>,
        source: &mut R,
    ) -> Result<Option<LineEnd>, LinesFault>
        ensures line { IfOk result (λ next. IfSome next (λ _. TakesLine
            (ahead self.old (R.to_come source.old)) (ahead self.new (R.to_come source.new)) line.new.items)) }
        ensures one { IfOk result (λ next. IfSome next (λ _. has_feed line.new.items ≡ false)) }
        ensures short { IfOk result (λ next. IfSome next (λ _. length line.new.items ≤ line_limit)) }
        ensures last { IfOk result (λ next. next ≡ Some LineEnd.Input
            → IsAtEnd (ahead self.new (R.to_come source.new))) }
        ensures failed { IsErrOf result LinesFault.Read
            → R.failures source.new ≡ R.failures source.old + 1 }
        ensures none_failed { result ≢ Err LinesFault.Read
            → R.failures source.new ≡ R.failures source.old }
        ensures end { IfOk result (λ next. IfNone next (IsAtEnd (ahead self.old (R.to_come source.old)))) }
        ensures going { IfOk result (λ next. next ≡ Some LineEnd.Feed
            → StaysOpen (R.progress source.old) (R.progress source.new)) }
        ensures not_behind { IsNotReadBehind (R.progress source.old) (R.progress source.new) }
        ensures too_long { IsErrOf result LinesFault.TooLong
            → IsTooLong (ahead self.old (R.to_come source.old)) }
        ensures at_hand { has_feed self.old ≡ true → source.new ≡ source.old }
    {
        line.clear();
        loop {
            let is_whole = self.move_line(line)?;
            if line.len() > LINE_LIMIT {
                return Err(LinesFault::TooLong);
            }
            if is_whole {
                return Ok(Some(LineEnd::Feed));
            }
            if !self.refill(source)? {
                if line.is_empty() {
                    return Ok(None);
                }
                return Ok(Some(LineEnd::Input));
            }
        }
    }
}

/// The place of the first line feed. None: there is none.
pub fn feed_in(bytes: &[u8]) -> Option<usize>
    ensures { result ≡ position is_feed bytes.now }
{
    memchr(b'\n', bytes)
}
