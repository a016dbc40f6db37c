//! The two copies of what is shown, and the seats of those who look.

ghost use Rattle.std.specs.Prelude.{◌≡◌, Some, [], ◌∷◌, ◌++◌, if◌then◌else◌, drop, IfOk, IfSome, OnOk, MatchResult};
ghost use Rattle.left_right.specs.Sides.{view};
ghost use Rattle.probe.specs.Progress.{Extends, origin_of};
ghost use Rattle.probe.specs.Published.{Looks, Shows, Sits};

use crate::note::Note;
use atomic_table::{Join, Split};
use crossbeam_utils::rule::{Outcome, Protocol};
use left_right::Absorb;
use left_right::reader::Reader;
use left_right::writer::Writer;
use std::alloc::{AllocError, Global};
use std::marker::Model;
use std::sync::Wait;

/// The most observers at a time.
const SEATS: usize = 8;

impl Absorb<Note> for Note {
    type State = Note;

    ghost state = { λ n. n };

    ghost applied = { λ shown next. next };

    ghost never_fails = { Unit {0} };

    fn absorb_first(&mut self, operation: &Note, _other: &Note) -> Result<(), AllocError> {
        *self = operation.again();
        Ok(())
    }

    fn absorb_second(&mut self, operation: Note, _other: &Note) -> Result<(), Note> {
        *self = operation;
        Ok(())
    }
}

/// The rule of the copies: what a seat knows is a beginning of what is shown.
pub(crate) struct Beginnings;

impl Protocol<Note, Option<Note>> for Beginnings {
    ghost use Rattle.std.specs.Prelude.{None};
    ghost use Rattle.probe.specs.Published.{AllFit};

    ghost holds = { AllFit };

    ghost first = { None };
}

struct Seeing;

impl Outcome<Note, Option<Note>> for Seeing {
    ghost use Rattle.probe.specs.Published.{Sees};

    ghost then = { Sees };
}

struct Showing;

impl Outcome<Note, Option<Note>> for Showing {
    ghost use Rattle.probe.specs.Published.{Shows};

    ghost then = { Shows };
}

// The publisher's seat keeps what it knows, and tells what was before the first tick.
struct Opening;

impl Split<Option<Note>> for Opening {
    ghost use Rattle.std.specs.Prelude.{option_map};
    ghost use Rattle.probe.specs.Progress.{origin_of};

    ghost left = { λ v. v };

    ghost right = { option_map origin_of };
}

// A new seat knows what it is told.
struct Learning;

impl Join<Option<Note>> for Learning {
    ghost use Rattle.std.specs.Prelude.{None};

    ghost both = { λ v told. told };

    ghost spent = { None };
}

type Shared = Writer<Note, Note, Option<Note>, Beginnings>;

// Logs the next note. False: memory was refused.
fn log(writer: &mut Shared, next: Note) -> bool
    ensures desk { writer.new.desk ≡ writer.old.desk }
    ensures log { drop writer.new.behind writer.new.log.items
        ≡ drop writer.old.behind writer.old.log.items ++ (if result then next ∷ [] else []) }
{
    writer.append(next).is_ok()
}

// Shows the next note. It waits for readers that still read the other copy. Err: memory was refused, and nothing
// changed.
fn put_note<R: Wait>(rt: &R, writer: Shared, next: Note) -> (Shared, Result<(), AllocError>)
    requires idle { drop writer.behind writer.log.items ≡ [] }
    requires next { Extends writer.desk.shown.value next }
    ensures idle { drop result.0.behind result.0.log.items ≡ [] }
    ensures shown { MatchResult result.1
        (λ _. (result.0.desk.shown.value ≡ next) × (view result.0.desk.place ≡ Some next))
        (λ _. (result.0.desk.shown.value ≡ writer.desk.shown.value)
        × (view result.0.desk.place ≡ view writer.desk.place)) }
    ensures step { OnOk result.1
        (Shows (view writer.desk.place) writer.desk.shown.value next (view result.0.desk.place)) }
{
    let mut writer = writer;
    if !log(&mut writer, next) {
        return (writer, Err(AllocError));
    }
    writer.publish_as::<Showing, R>(rt)
}

/// The two copies, as the publisher holds them. They show what it knows.
pub(crate) struct Copies {
    writer: Shared,
}

impl Model for Copies {
    ghost use Rattle.std.specs.Prelude.{◌≡◌, Some, [], drop};
    ghost use Rattle.left_right.specs.Sides as sides;
    ghost use Rattle.probe.specs.Progress.{Progress};

    ghost Value = { Progress };

    ghost view = { λ c. c.writer.desk.shown.value };

    ghost invariant = { λ c. (drop c.writer.behind c.writer.log.items ≡ [])
        × (sides.view c.writer.desk.place ≡ Some c.writer.desk.shown.value) };
}

impl Copies {
    // Copies that show this note, after showing it once.
    fn showing<R: Wait>(rt: &R, alloc: Global, first: &Note) -> Result<Copies, AllocError>
        ensures { IfOk result (λ c. c ≡ first.now) }
    {
        let writer: Shared = Writer::new(alloc, first.again(), first.again(), SEATS)?;
        let (writer, done) = put_note(rt, writer, first.again());
        match done {
            Ok(()) => Ok(Copies { writer }),
            Err(error) => {
                writer.take(rt);
                Err(error)
            }
        }
    }

    /// Copies that show this note. Showing it twice leaves room for all that is shown later.
    pub fn open<R: Wait>(rt: &R, alloc: Global, first: &Note) -> Result<Copies, AllocError>
        ensures { IfOk result (λ c. c ≡ first.now) }
    {
        let copies = Copies::showing(rt, alloc, first)?;
        let (copies, done) = copies.put(rt, first.again());
        match done {
            Ok(()) => Ok(copies),
            Err(error) => {
                copies.close(rt);
                Err(error)
            }
        }
    }

    /// Shows the next note. It waits for readers that still read the other copy. Err: memory was refused, and nothing
    /// changed.
    pub fn put<R: Wait>(self, rt: &R, next: Note) -> (Copies, Result<(), AllocError>)
        requires { Extends self next }
        ensures shown { MatchResult result.1 (λ _. result.0 ≡ next) (λ _. result.0 ≡ self) }
        ensures step { OnOk result.1 (Shows (Some self) self next (Some next)) }
    {
        let Copies { writer } = self;
        let (writer, done) = put_note(rt, writer, next);
        (Copies { writer }, done)
    }

    /// A seat for an observer, that knows what was before the first tick. None: all seats are taken.
    pub fn seat(&mut self) -> Option<Seat>
        ensures same { self.new ≡ self.old }
        ensures seat { IfSome result (λ s. s ≡ Some (origin_of self.old)) }
    {
        let mut reader = self.writer.factory().reader().ok()?;
        reader.learn::<Learning>(self.writer.tell::<Opening>());
        Some(Seat { reader })
    }

    /// Waits for the readers. The seats see nothing from then on.
    pub fn close<R: Wait>(self, rt: &R) {
        let Copies { writer } = self;
        writer.take(rt);
    }
}

/// An observer's seat at the copies. Contracts see what it knows.
#[derive(Drop)]
pub(crate) struct Seat {
    reader: Reader<Note, Option<Note>, Beginnings>,
}

impl Model for Seat {
    ghost use Rattle.std.specs.Prelude.{Option};
    ghost use Rattle.left_right.specs.Sides as sides;
    ghost use Rattle.probe.specs.Progress.{Progress};

    ghost Value = { Option Progress };

    ghost view = { λ s. sides.view s.reader.place };
}

impl Seat {
    /// Learns what is shown. Where the publisher is gone nothing changes.
    pub fn look(self, note: &mut Note) -> Seat
        requires { Sits self note.old }
        ensures note { Extends note.old note.new }
        ensures shown { Looks note.old note.new }
        ensures seat { Sits result note.new }
    {
        match self.reader.enter_as::<Seeing>() {
            Ok(reading) => {
                note.learn(reading.get());
                Seat {
                    reader: reading.leave(),
                }
            }
            Err(reader) => Seat { reader },
        }
    }
}
