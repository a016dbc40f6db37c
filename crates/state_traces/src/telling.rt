//! The player of a trace that tells more.

ghost use Rattle.std.specs.Prelude.{◌≡◌, IfOk};
ghost use Rattle.sc_graph.specs.Tick.{Rests, initial};
ghost use Rattle.state_traces.specs.Inside.Playing.{CameTo};

use crate::session::react;
use crate::words::Words;
use std::alloc::{AllocError, Global};
use tick_core::{Control, TickSpace};
use trace_lines::{Interface, LineRoom};
use trace_player::{Channels, LinePlayer, PlayFault, next_number, play_from};
use verifier::Verified;

/// Plays lines to the ticks of an image, and tells of each more words for the configuration in which it ends.
#[derive(Drop)]
pub(crate) struct Telling<'a, 'x, W: Words> {
    alloc: Global,
    interface: &'a Interface<'a>,
    words: &'a W,
    line_room: LineRoom,
    room: TickSpace<'x>,
    ticks: u64,
    control: Control,
}

impl<'a, 'x, W: Words> LinePlayer for Telling<'a, 'x, W> {
    ghost use Rattle.std.specs.Prelude.{◌≡◌, refl};
    ghost use Rattle.std.proofs.Common.{inl};
    ghost use Rattle.sc_graph.specs.Tick.{Rests};
    ghost use Rattle.trace_player.specs.Trace.{next_number};
    ghost use Rattle.state_traces.specs.Inside.Telling.{Ends, Tells};

    ghost number = { λ p. next_number p.ticks };

    ghost makes = { λ p line q shown. Tells
        (record { words = W.words p.words.now; image = p.room; ticks = p.ticks; control = p.control }) line
        (record { words = W.words q.words.now; image = q.room; ticks = q.ticks; control = q.control }) shown };

    ghost ends = { λ p line end. Ends
        (record { words = W.words p.words.now; image = p.room; ticks = p.ticks; control = p.control }) line end };

    ghost is_ready = { λ p. (p.interface.now ≡ p.room.program.variables) × Rests p.room.program p.control };

    ghost too_long = { λ p line long. (refl, inl long) };

    fn number(&self) -> u64 {
        next_number(self.ticks)
    }

    fn play(self, line: &[u8], shown: &mut Vec<u8>) -> Result<Telling<'a, 'x, W>, PlayFault> {
        let Telling {
            alloc,
            interface,
            words,
            line_room,
            room,
            ticks,
            control,
        } = self;
        let mut line_room = line_room;
        let ticks = next_number(ticks);
        match react(
            alloc,
            interface,
            &mut line_room,
            words,
            room,
            control,
            ticks,
            line,
            shown,
        ) {
            Ok((control, room)) => Ok(Telling {
                alloc,
                interface,
                words,
                line_room,
                room,
                ticks,
                control,
            }),
            Err(fault) => {
                drop(line_room);
                Err(fault)
            }
        }
    }
}

impl<'a, 'x, W: Words> Telling<'a, 'x, W> {
    // Before the first line. Err: memory was refused.
    fn at_first(
        alloc: Global,
        verified: &'x Verified,
        words: &'a W,
        interface: &'a Interface<'a>,
    ) -> Result<Telling<'a, 'x, W>, AllocError>
        ensures words { IfOk result (λ p. p.words.now ≡ words.now) }
        ensures interface { IfOk result (λ p. p.interface.now ≡ interface.now) }
        ensures image { IfOk result (λ p. p.room ≡ verified.now) }
        ensures ticks { IfOk result (λ p. p.ticks ≡ 0) }
        ensures control { IfOk result (λ p. p.control ≡ initial verified.now.program) }
        ensures rests { IfOk result (λ p. Rests verified.now.program p.control) }
    {
        let control = Control::initial(alloc, verified.image().program())?;
        match TickSpace::of(alloc, verified) {
            Ok(room) => Ok(Telling {
                alloc,
                interface,
                words,
                line_room: LineRoom::new(alloc),
                room,
                ticks: 0,
                control,
            }),
            Err(error) => {
                drop(control);
                Err(error)
            }
        }
    }

    // The number of the last tick.
    fn ticks(self) -> u64
        ensures { result ≡ self.entry.ticks }
    {
        self.ticks
    }
}

/// Makes what is kept from line to line, and plays the lines of an input from the first configuration on.
pub(crate) fn begin<P: Channels, W: Words>(
    alloc: Global,
    verified: &Verified,
    words: &W,
    channels: &mut P,
) -> Result<u64, PlayFault>
    ensures came { CameTo (W.words words.now) verified.now (P.seen channels.old) (P.seen channels.new) result }
    ensures same { P.names channels.new ≡ P.names channels.old }
{
    let interface = Interface::of(alloc, verified.image().program().variables())?;
    let first = Telling::at_first(alloc, verified, words, &interface)?;
    match play_from(alloc, first, channels) {
        Ok(last) => Ok(last.ticks()),
        Err(fault) => Err(fault),
    }
}
