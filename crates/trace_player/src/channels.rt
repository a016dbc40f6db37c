//! Where lines come from, and where output and ends of ticks go.

ghost use Rattle.std.specs.Prelude.{◌≡◌, ◌≢◌, ◌+◌, ◌≤◌, ℕ, Option, Some, None, true, false, length};
ghost use Rattle.std.specs.Prelude.{IfOk, IfSome, IfNone, IsErrOf, OnOk, OnErr};
ghost use Rattle.std.specs.Io.KnownBytes.{IsAtEnd};
ghost use Rattle.logbook.specs.Pages.{Book};
ghost use Rattle.sc_values.specs.Streams.{StaysOpen, IsNotReadBehind};
ghost use Rattle.trace_lines.specs.Lines.{line_limit, ahead, has_feed, TakesLine, IsTooLong};
ghost use Rattle.trace_player.specs.Channels.{TakesAll, TakesPart, Gains};

use probe::{Publisher, TickEnd};
use sc_values::{Sink, Source, write_all};
use std::alloc::AllocError;
use std::sync::Wait;
use tick_core::Control;
use trace_lines::{LineEnd, Lines, LinesFault};
use verifier::Verified;

/// Where the lines of a trace come from, where its lines of output go, and where the ends of its ticks are published,
/// if they are. Contracts see which these are, and what is seen of them.
pub trait Channels {
    ghost use Rattle.trace_player.specs.Channels.{Seen};

    ghost names: { Self → ℕ × ℕ × ℕ × Option Book };

    ghost seen: { Self → Seen };

    /// Makes `line` the next line, as `Lines::next`.
    fn next(&mut self, lines: &mut Lines, line: &mut Vec<u8>) -> Result<Option<LineEnd>, LinesFault>
        ensures line { IfOk result (λ next. IfSome next (λ _. TakesLine
            (ahead lines.old (seen self.old).source.to_come) (ahead lines.new (seen self.new).source.to_come)
            line.new.items)) }
        ensures short { IfOk result (λ next. IfSome next (λ _. length line.new.items ≤ line_limit)) }
        ensures last { IfOk result (λ next. next ≡ Some LineEnd.Input
            → IsAtEnd (ahead lines.new (seen self.new).source.to_come)) }
        ensures failed { IsErrOf result LinesFault.Read
            → (seen self.new).source.failures ≡ (seen self.old).source.failures + 1 }
        ensures none_failed { result ≢ Err LinesFault.Read
            → (seen self.new).source.failures ≡ (seen self.old).source.failures }
        ensures end { IfOk result (λ next. IfNone next
            (IsAtEnd (ahead lines.old (seen self.old).source.to_come))) }
        ensures too_long { IsErrOf result LinesFault.TooLong
            → IsTooLong (ahead lines.old (seen self.old).source.to_come) }
        ensures going { IfOk result (λ next. next ≡ Some LineEnd.Feed
            → StaysOpen (seen self.old).source.progress (seen self.new).source.progress) }
        ensures not_behind { IsNotReadBehind (seen self.old).source.progress (seen self.new).source.progress }
        ensures at_hand { has_feed lines.old ≡ true → result ≢ Err LinesFault.Read }
        ensures sink { (seen self.new).sink ≡ (seen self.old).sink }
        ensures rows { (seen self.new).rows ≡ (seen self.old).rows }
        ensures same { names self.new ≡ names self.old };

    /// Publishes the outputs of this configuration, in which a tick ended. Err: memory was refused, and nothing was
    /// published.
    fn publish<H: Wait>(
        &mut self,
        rt: &H,
        verified: &Verified,
        control: &Control,
    ) -> Result<(), AllocError>
        ensures row { OnOk result (Gains (seen self.old).rows (seen self.new).rows
            verified.now.program.variables control.now.variables) }
        ensures none { OnErr result ((seen self.new).rows ≡ (seen self.old).rows) }
        ensures unwatched { (seen self.old).rows ≡ None → (seen self.new).rows ≡ None }
        ensures source { (seen self.new).source ≡ (seen self.old).source }
        ensures sink { (seen self.new).sink ≡ (seen self.old).sink }
        ensures same { names self.new ≡ names self.old };

    /// Whether output may be held back: nothing is published, before whose line others have to be written.
    fn may_hold(&self) -> bool
        ensures { result ≡ true → (seen self.now).rows ≡ None };

    /// Writes some output. Whether the sink took it whole.
    fn write(&mut self, shown: &[u8]) -> bool
        ensures whole { result ≡ true → TakesAll (seen self.old).sink (seen self.new).sink shown.now }
        ensures part { result ≡ false → TakesPart (seen self.old).sink (seen self.new).sink shown.now }
        ensures source { (seen self.new).source ≡ (seen self.old).source }
        ensures rows { (seen self.new).rows ≡ (seen self.old).rows }
        ensures same { names self.new ≡ names self.old };
}

/// A source and a sink, lent for a trace.
#[derive(Drop)]
pub struct Streams<'a, 'b, S: Source, W: Sink> {
    pub source: &'a mut S,
    pub sink: &'b mut W,
}

impl<'a, 'b, S: Source, W: Sink> Channels for Streams<'a, 'b, S, W> {
    ghost use Rattle.std.specs.Prelude.{None};

    ghost names = { λ s. (s.source.ghost_name, s.sink.ghost_name, 0, None) };

    ghost seen = { λ s. record {
      source = record {
        to_come = S.to_come s.source.now;
        progress = S.progress s.source.now;
        failures = S.failures s.source.now;
      };
      sink = record { taken = W.taken s.sink.now; failures = W.failures s.sink.now };
      rows = None;
    } };

    fn next(
        &mut self,
        lines: &mut Lines,
        line: &mut Vec<u8>,
    ) -> Result<Option<LineEnd>, LinesFault> {
        lines.next(line, self.source)
    }

    fn publish<H: Wait>(
        &mut self,
        _rt: &H,
        _verified: &Verified,
        _control: &Control,
    ) -> Result<(), AllocError> {
        Ok(())
    }

    fn may_hold(&self) -> bool {
        true
    }

    fn write(&mut self, shown: &[u8]) -> bool {
        match write_all(self.sink, shown) {
            Ok(()) => true,
            Err(_) => false,
        }
    }
}

/// A source, a sink and a publisher, lent for a trace.
#[derive(Drop)]
pub(crate) struct Watched<'a, 'b, 'c, S: Source, W: Sink> {
    pub source: &'a mut S,
    pub sink: &'b mut W,
    pub publisher: &'c mut Publisher,
}

impl<'a, 'b, 'c, S: Source, W: Sink> Channels for Watched<'a, 'b, 'c, S, W> {
    ghost use Rattle.std.specs.Prelude.{Some};

    ghost names = { λ s. (
      s.source.ghost_name,
      s.sink.ghost_name,
      s.publisher.ghost_name,
      Some s.publisher.now.publisher,
    ) };

    ghost seen = { λ s. record {
      source = record {
        to_come = S.to_come s.source.now;
        progress = S.progress s.source.now;
        failures = S.failures s.source.now;
      };
      sink = record { taken = W.taken s.sink.now; failures = W.failures s.sink.now };
      rows = Some s.publisher.now.rows;
    } };

    fn next(
        &mut self,
        lines: &mut Lines,
        line: &mut Vec<u8>,
    ) -> Result<Option<LineEnd>, LinesFault> {
        lines.next(line, self.source)
    }

    fn publish<H: Wait>(
        &mut self,
        rt: &H,
        verified: &Verified,
        control: &Control,
    ) -> Result<(), AllocError> {
        self.publisher.publish(rt, TickEnd::of(verified, control))
    }

    fn may_hold(&self) -> bool {
        false
    }

    fn write(&mut self, shown: &[u8]) -> bool {
        match write_all(self.sink, shown) {
            Ok(()) => true,
            Err(_) => false,
        }
    }
}
