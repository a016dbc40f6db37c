//! Observers of a publisher's ticks.

ghost use Rattle.std.specs.Prelude.{◌≡◌, ◌⊎◌, Some};
ghost use Rattle.probe.specs.Progress.{Extends, count_of, last_of};
ghost use Rattle.probe.specs.Published.{Looks, Sits};

use crate::copies::Seat;
use crate::note::{Note, Seen};
use std::marker::Model;

/// It looks at the ticks of its publisher, from any thread, waits for nobody and never goes back. Contracts see what it
/// has seen or learnt.
#[derive(Drop)]
pub struct Observer {
    seat: Option<Seat>,
    note: Note,
}

impl Model for Observer {
    ghost use Rattle.probe.specs.Progress.{Progress};
    ghost use Rattle.probe.specs.Inside.Copies.{IsSeated};

    ghost Value = { Progress };

    ghost view = { λ o. o.note };

    ghost invariant = { λ o. IsSeated o.seat o.note };
}

impl Observer {
    /// An observer that knows this, at a seat that knows no more.
    pub(crate) fn new(seat: Seat, note: Note) -> Observer
        requires { Sits seat note }
        ensures { result ≡ note }
    {
        Observer {
            seat: Some(seat),
            note,
        }
    }

    /// Afterwards it knows what the note knows too, and no more than the one or the other. The note has to be one of
    /// its own publisher. It takes no memory.
    pub fn learn(&mut self, note: Note)
        requires { note.publisher ≡ self.old.publisher }
        ensures own { Extends self.old self.new }
        ensures note { Extends note self.new }
        ensures one { (self.new ≡ self.old) ⊎ (self.new ≡ note) }
    {
        self.note.learn(&note);
    }

    /// What is published by now, or what it knew where that is more: the count and the outputs after a list of
    /// published
    /// ticks, that begins with all that it had seen or learnt, and is what it has seen from now on. What it sees was
    /// shown at one moment of the call, when all that was known at any seat was a beginning of it. It takes no memory.
    pub fn look(&mut self) -> Seen
        ensures longer { Extends self.old self.new }
        ensures shown { Looks self.old self.new }
        ensures ticks { result.ticks ≡ count_of self.new }
        ensures outputs { last_of self.new ≡ Some result.outputs }
    {
        let seat = self.seat.take().unwrap();
        self.seat = Some(seat.look(&mut self.note));
        self.note.shown()
    }
}
