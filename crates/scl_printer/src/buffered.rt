//! Writing a text to a sink, some bytes at a time.

ghost use Rattle.std.specs.Prelude.{◌≡◌, [], true, false, ◌++◌, MatchBool, OnOk, OnErr};
ghost use Rattle.scl_printer.specs.Inside.Writing.{Writes, Sends, page, when};

use crate::print_fault::PrintFault;
use arrayvec::ArrayVec;
use sc_values::{Sink, write_all};

/// How many bytes are held back at most.
const HELD: usize = 4096;

/// What writes a text to a sink: it holds some bytes back, so that the sink is not asked for each few of
/// them. Once the sink failed nothing more is written.
#[derive(Drop)]
pub(crate) struct Buffered {
    pub(crate) held: ArrayVec<u8, HELD>,
    pub(crate) failed: bool,
}

impl Buffered {
    /// Nothing is held.
    pub(crate) fn new() -> Buffered
        ensures held { result.held.items ≡ [] }
        ensures failed { result.failed ≡ false }
    {
        Buffered {
            held: ArrayVec::new(),
            failed: false,
        }
    }

    /// Writes these bytes.
    pub(crate) fn put<W: Sink>(&mut self, sink: &mut W, bytes: &[u8])
        ensures { Writes (page (W.taken sink.old) (W.failures sink.old) self.old)
            (page (W.taken sink.new) (W.failures sink.new) self.new) bytes.now }
    {
        if !self.holds(bytes) {
            self.pass(sink);
            if !self.holds(bytes) {
                self.write(sink, bytes);
            }
        }
    }

    /// Writes this text.
    pub(crate) fn put_text<W: Sink>(&mut self, sink: &mut W, text: &str)
        ensures { Writes (page (W.taken sink.old) (W.failures sink.old) self.old)
            (page (W.taken sink.new) (W.failures sink.new) self.new) text.now }
    {
        self.put(sink, text.as_bytes());
    }

    /// Writes this text where the condition holds.
    pub(crate) fn put_if<W: Sink>(&mut self, sink: &mut W, condition: bool, text: &str)
        ensures { Writes (page (W.taken sink.old) (W.failures sink.old) self.old)
            (page (W.taken sink.new) (W.failures sink.new) self.new) (when condition text.now) }
    {
        if condition {
            self.put_text(sink, text);
        }
    }

    /// Hands over what is held. Err: the sink failed, now or before.
    pub(crate) fn finish<W: Sink>(&mut self, sink: &mut W) -> Result<(), PrintFault>
        ensures written { Writes (page (W.taken sink.old) (W.failures sink.old) self.old)
            (page (W.taken sink.new) (W.failures sink.new) self.new) [] }
        ensures held { self.new.held.items ≡ [] }
        ensures whole { OnOk result (self.new.failed ≡ false) }
        ensures failed { OnErr result (self.new.failed ≡ true) }
    {
        self.pass(sink);
        if self.failed {
            Err(PrintFault::Write)
        } else {
            Ok(())
        }
    }

    // Whether there is room for these bytes, which then are held.
    fn holds(&mut self, bytes: &[u8]) -> bool
        ensures held { MatchBool result
            (self.new.held.items ≡ self.old.held.items ++ bytes.now)
            (self.new.held.items ≡ self.old.held.items) }
        ensures failed { self.new.failed ≡ self.old.failed }
    {
        self.held.try_extend_from_slice(bytes).is_ok()
    }

    // Hands over what is held.
    fn pass<W: Sink>(&mut self, sink: &mut W)
        ensures written { Writes (page (W.taken sink.old) (W.failures sink.old) self.old)
            (page (W.taken sink.new) (W.failures sink.new) self.new) [] }
        ensures held { self.new.held.items ≡ [] }
    {
        self.failed = send(sink, self.failed, self.held.as_slice());
        self.held.clear();
    }

    // Hands over these bytes, before which none are held.
    fn write<W: Sink>(&mut self, sink: &mut W, bytes: &[u8])
        requires { self.old.held.items ≡ [] }
        ensures { Writes (page (W.taken sink.old) (W.failures sink.old) self.old)
            (page (W.taken sink.new) (W.failures sink.new) self.new) bytes.now }
    {
        self.failed = send(sink, self.failed, bytes);
    }
}

// Hands over these bytes, unless the sink failed before. Whether it failed.
fn send<W: Sink>(sink: &mut W, failed: bool, bytes: &[u8]) -> bool
    ensures { Sends (W.taken sink.old) (W.failures sink.old) failed
        (W.taken sink.new) (W.failures sink.new) result bytes.now }
{
    if failed {
        return true;
    }
    match write_all(sink, bytes) {
        Ok(()) => false,
        Err(_) => true,
    }
}
