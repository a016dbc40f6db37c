//! The player of a trace under rules.

ghost use Rattle.std.specs.Prelude.{◌≡◌, IfOk};
ghost use Rattle.sc_graph.specs.Tick.{Rests};
ghost use Rattle.ruled_runs.specs.Inside.Playing.{CameTo};

use crate::traces::place::RunPlace;
use crate::traces::rules::Rules;
use crate::traces::session::react;
use sc_graph::Program;
use std::alloc::{AllocError, Global};
use tick_core::TickSpace;
use trace_lines::{Interface, LineRoom};
use trace_player::{Channels, LinePlayer, PlayFault, next_number, play_from};
use verifier::Verified;

/// Plays lines to the ticks of an image under rules.
#[derive(Drop)]
pub(crate) struct Ruled<'a, 'x> {
    alloc: Global,
    rules: Rules,
    program: &'a Program,
    interface: &'a Interface<'a>,
    line_room: LineRoom,
    room: TickSpace<'x>,
    place: RunPlace,
}

impl<'a, 'x> LinePlayer for Ruled<'a, 'x> {
    ghost use Rattle.std.specs.Prelude.{◌≡◌, refl};
    ghost use Rattle.std.proofs.Common.{inl};
    ghost use Rattle.sc_graph.specs.Tick.{Rests};
    ghost use Rattle.trace_player.specs.Trace.{next_number};
    ghost use Rattle.ruled_runs.specs.Inside.Ruled.{Ends, Leads};

    ghost number = { λ p. next_number p.place.lines };

    ghost makes = { λ p line q shown. Leads (record { rules = p.rules; image = p.room; place = p.place }) line
        (record { rules = q.rules; image = q.room; place = q.place }) shown };

    ghost ends = { λ p line end. Ends (record { rules = p.rules; image = p.room; place = p.place }) line end };

    ghost is_ready = { λ p. (p.program.now ≡ p.room.program) × (p.interface.now ≡ p.program.now.variables)
        × Rests p.room.program p.place.control };

    ghost too_long = { λ p line long. (refl, inl long) };

    fn number(&self) -> u64 {
        next_number(self.place.lines)
    }

    fn play(self, line: &[u8], shown: &mut Vec<u8>) -> Result<Ruled<'a, 'x>, PlayFault> {
        let Ruled {
            alloc,
            rules,
            program,
            interface,
            line_room,
            room,
            place,
        } = self;
        let mut line_room = line_room;
        let (place, room) = react(
            alloc,
            rules,
            program,
            interface,
            &mut line_room,
            room,
            place,
            line,
            shown,
        )?;
        Ok(Ruled {
            alloc,
            rules,
            program,
            interface,
            line_room,
            room,
            place,
        })
    }
}

impl<'a, 'x> Ruled<'a, 'x> {
    // At this place. Err: memory was refused.
    fn at(
        alloc: Global,
        verified: &'x Verified,
        rules: Rules,
        program: &'a Program,
        interface: &'a Interface<'a>,
        place: RunPlace,
    ) -> Result<Ruled<'a, 'x>, AllocError>
        ensures rules { IfOk result (λ p. p.rules ≡ rules) }
        ensures program { IfOk result (λ p. p.program.now ≡ program.now) }
        ensures interface { IfOk result (λ p. p.interface.now ≡ interface.now) }
        ensures image { IfOk result (λ p. p.room ≡ verified.now) }
        ensures place { IfOk result (λ p. p.place ≡ place) }
    {
        let room = TickSpace::of(alloc, verified)?;
        Ok(Ruled {
            alloc,
            rules,
            program,
            interface,
            line_room: LineRoom::new(alloc),
            room,
            place,
        })
    }

    // The place behind the last line.
    fn place(self) -> RunPlace
        ensures { result ≡ self.entry.place }
    {
        let Ruled { place, .. } = self;
        place
    }
}

/// Makes what is kept from line to line, and plays the lines of an input from a place on.
pub(crate) fn begin<P: Channels>(
    alloc: Global,
    verified: &Verified,
    rules: Rules,
    from: RunPlace,
    channels: &mut P,
) -> Result<RunPlace, PlayFault>
    requires rests { Rests verified.now.program from.control }
    ensures came { CameTo rules verified.now from (P.seen channels.old) (P.seen channels.new) result }
    ensures same { P.names channels.new ≡ P.names channels.old }
    ensures rests { IfOk result (λ last. Rests verified.now.program last.control) }
{
    let program = verified.image().program();
    let interface = Interface::of(alloc, program.variables())?;
    let first = Ruled::at(alloc, verified, rules, program, &interface, from)?;
    match play_from(alloc, first, channels) {
        Ok(last) => Ok(last.place()),
        Err(fault) => Err(fault),
    }
}
