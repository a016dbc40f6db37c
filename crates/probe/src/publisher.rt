//! The publisher of the ticks of a machine.

ghost use Rattle.std.specs.Prelude.{◌≡◌, ◌++◌, ◌∷◌, [], Some, None, IfOk, IfSome, OnOk, MatchResult};
ghost use Rattle.sc_graph.specs.Tick.{initial};
ghost use Rattle.probe.specs.Outputs.{Outputs, IsRowOf};
ghost use Rattle.probe.specs.Progress.{Progress, Extends, origin_of};
ghost use Rattle.probe.specs.Published.{Shows};

use crate::copies::Copies;
use crate::history::History;
use crate::note::Note;
use crate::observer::Observer;
use crate::tick_end::TickEnd;
use sc_graph::Control;
use std::alloc::{AllocError, Global};
use std::error::Error;
use std::fmt;
use std::marker::Model;
use std::sync::Wait;
use verifier::Verified;

/// E54: each of the eight seats for observers is taken. It prints as the number of the fault.
#[derive(Clone, Copy, Debug, PartialEq, Eq)]
pub struct NoSeat;

impl fmt::Display for NoSeat {
    ghost use Rattle.std.specs.Prelude.{Some, codes};

    ghost output = { λ _. Some (codes "E54") };

    fn fmt<W: fmt::Write>(&self, f: &mut fmt::Formatter<W>) -> fmt::Result {
        f.write_str("E54")
    }
}

impl Error for NoSeat {}

/// It publishes the ends of ticks, and its observers look at them. It has to be closed.
pub struct Publisher {
    copies: Option<Copies>,
    // It is gone where a row that it has could not be shown.
    history: Option<History>,
    origin: Note,
    note: Note,
}

impl Model for Publisher {
    ghost use Rattle.std.specs.Prelude.{◌≡◌, ◌≤◌, Some, length};
    ghost use Rattle.probe.specs.Progress.{Progress, origin_of};
    ghost use Rattle.probe.specs.Inside.Copies.{IsAt};

    ghost Value = { Progress };

    ghost view = { λ p. p.note };

    ghost invariant = { λ p. (p.copies ≡ Some p.note) × IsAt p.history p.note × (p.origin ≡ origin_of p.note)
        × (1 ≤ length p.note.rows) };
}

// The outputs of a program before its first tick.
fn opening_of(alloc: Global, verified: &Verified) -> Result<TickEnd, AllocError>
    ensures { IfOk result (IsRowOf verified.now.program.variables (initial verified.now.program).variables) }
{
    let control = Control::initial(alloc, verified.image().program())?;
    Ok(TickEnd::of(verified, &control))
}

// The history that has the opening row alone.
fn opened(opening: &TickEnd) -> Option<History>
    ensures { IfSome result (λ h. h.rows ≡ opening.now ∷ []) }
{
    let mut history = History::new();
    if history.add(opening) {
        Some(history)
    } else {
        None
    }
}

impl Publisher {
    /// A publisher for runs of this image, before its first tick. It waits for nobody, since nobody looks yet. Err:
    /// memory was refused.
    pub fn open<R: Wait>(
        rt: &R,
        alloc: Global,
        verified: &Verified,
    ) -> Result<Publisher, AllocError>
        ensures { IfOk result (λ p. (opening : Outputs) × (p.rows ≡ opening ∷ [])
            × IsRowOf verified.now.program.variables (initial verified.now.program).variables opening) }
    {
        let opening = opening_of(alloc, verified)?;
        let history = opened(&opening).ok_or(AllocError)?;
        let note = Note::of(opening, history.beginning());
        let copies = Copies::open(rt, alloc, &note)?;
        Ok(Publisher {
            copies: Some(copies),
            history: Some(history),
            origin: note.again(),
            note,
        })
    }

    /// An observer, that has seen nothing but the opening row. `NoSeat` where eight have seats: one that is dropped
    /// leaves its seat.
    pub fn observer(&mut self) -> Result<Observer, NoSeat>
        ensures same { self.new ≡ self.old }
        ensures origin { IfOk result (λ o. o ≡ origin_of self.old) }
    {
        let mut copies = self.copies.take().unwrap();
        let seat = copies.seat();
        put_back(&mut self.copies, copies);
        match seat {
            Some(seat) => Ok(Observer::new(seat, self.origin.again())),
            None => Err(NoSeat),
        }
    }

    /// Publishes a tick by its end: in one step what is shown becomes what it has published now, of which all that
    /// was known
    /// at any seat is a beginning. It waits for observers that are inside a look, and takes no memory for the tick.
    /// Err: memory was refused, and every later look shows what it would have shown without the call.
    pub fn publish<R: Wait>(&mut self, rt: &R, end: TickEnd) -> Result<(), AllocError>
        ensures publisher { self.new.publisher ≡ self.old.publisher }
        ensures rows { MatchResult result (λ _. self.new.rows ≡ self.old.rows ++ end ∷ []) (λ _. self.new ≡ self.old) }
        ensures shown { OnOk result (Shows (Some self.old) self.old self.new (Some self.new)) }
    {
        let Some(mut history) = self.history.take() else {
            return Err(AllocError);
        };
        if !history.add(&end) {
            self.history = Some(history);
            return Err(AllocError);
        }
        let next = Note::of(end, history.beginning());
        match put_in(rt, &mut self.copies, next.again()) {
            Ok(()) => {
                self.note = next;
                self.history = Some(history);
                Ok(())
            }
            Err(error) => Err(error),
        }
    }

    /// What it has published so far.
    pub fn tell(&mut self) -> Note
        ensures same { self.new ≡ self.old }
        ensures note { result ≡ self.old }
    {
        self.note.again()
    }

    /// Ends it. It waits for observers that are inside a look. Later looks show what each has seen or learnt.
    pub fn close<R: Wait>(self, rt: &R) {
        let Publisher {
            copies,
            history: _history,
            origin: _origin,
            note: _note,
        } = self;
        copies.unwrap().close(rt);
    }
}

// Shows the next note at the copies. Err: memory was refused, and nothing changed.
fn put_in<R: Wait>(rt: &R, place: &mut Option<Copies>, next: Note) -> Result<(), AllocError>
    requires { (shown : Progress) × (place.old ≡ Some shown) × Extends shown next }
    ensures shown { MatchResult result (λ _. place.new ≡ Some next) (λ _. place.new ≡ place.old) }
    ensures step { OnOk result ((shown : Progress) × (place.old ≡ Some shown)
        × Shows (Some shown) shown next (Some next)) }
{
    let (copies, done) = place.take().unwrap().put(rt, next);
    put_back(place, copies);
    done
}

// Puts the copies back to where they were taken from.
fn put_back(place: &mut Option<Copies>, copies: Copies)
    requires { place.old ≡ None }
    ensures { place.new ≡ Some copies }
{
    match place.replace(copies) {
        None => {}
        Some(_old) => unreachable!(),
    }
}
