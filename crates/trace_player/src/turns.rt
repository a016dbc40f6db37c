//! The lines of an input, one after another.

ghost use Rattle.std.specs.Prelude.{◌≡◌, [], None, IfOk};
ghost use Rattle.trace_player.specs.Inside.HeldBack.{HoldsBack, with_held};
ghost use Rattle.trace_player.specs.Inside.Playing.{CameTo};

use crate::channels::Channels;
use crate::holding::{settle, write_or_hold};
use crate::lines::{is_last, next_number, unread_line};
use crate::player::PlayFault;
use crate::session::Session;
use std::alloc::{AllocError, Global};
use std::sync::Wait;
use trace_lines::{Interface, LineReader, Lines};
use worker_pool::{Gate, OfImage};

/// Plays the lines of an input from the first configuration on, where no tick was. When it returns, no tick will be
/// shared any more.
pub(crate) fn play_lines<'s, 'r: 's, 'x: 's, E: 's, R, J, G, P>(
    session: Session<'s, 'r, 'x, E, R, J, G>,
    channels: &mut P,
) -> Result<u64, PlayFault>
where
    R: Wait + Sync,
    J: OfImage + Send + Sync + 's,
    G: Gate + Sync + 's,
    P: Channels,
    requires first { session.last ≡ None }
    ensures came { CameTo J.image (P.seen channels.old) (P.seen channels.new) result }
    ensures same { P.names channels.new ≡ P.names channels.old }
{
    let mut session = session;
    let result = begin(&mut session, channels);
    session.team.close(session.rt);
    drop(session);
    result
}

// Plays the lines of an input from the first configuration on, as the program's inputs and outputs name them.
fn begin<'s, 'r: 's, 'x: 's, E: 's, R, J, G, P>(
    session: &mut Session<'s, 'r, 'x, E, R, J, G>,
    channels: &mut P,
) -> Result<u64, PlayFault>
where
    R: Wait + Sync,
    J: OfImage + Send + Sync + 's,
    G: Gate + Sync + 's,
    P: Channels,
    requires first { session.old.last ≡ None }
    ensures came { CameTo J.image (P.seen channels.old) (P.seen channels.new) result }
    ensures same { P.names channels.new ≡ P.names channels.old }
{
    let program = session.verified.image().program();
    let interface = Interface::of(session.alloc, program.variables())?;
    let result = begin_with(session, &interface, channels);
    drop(interface);
    result
}

// The same by an interface. It makes the reader, which is kept from line to line.
fn begin_with<'s, 'r: 's, 'x: 's, E: 's, R, J, G, P>(
    session: &mut Session<'s, 'r, 'x, E, R, J, G>,
    interface: &Interface<'_>,
    channels: &mut P,
) -> Result<u64, PlayFault>
where
    R: Wait + Sync,
    J: OfImage + Send + Sync + 's,
    G: Gate + Sync + 's,
    P: Channels,
    requires interface { interface.now ≡ J.image.program.variables }
    requires first { session.old.last ≡ None }
    ensures came { CameTo J.image (P.seen channels.old) (P.seen channels.new) result }
    ensures same { P.names channels.new ≡ P.names channels.old }
{
    let mut reader = LineReader::of(session.alloc, interface)?;
    let result = go_through(session, interface, &mut reader, channels);
    drop(reader);
    result
}

// The lines of an input, the one that is played, and what is shown of it.
#[derive(Drop)]
struct LineBuffers {
    lines: Lines,
    line: Vec<u8>,
    shown: Vec<u8>,
}

impl LineBuffers {
    // Those of an input of which nothing was read.
    fn new(alloc: Global) -> Result<LineBuffers, AllocError>
        ensures { IfOk result (λ buffers. buffers.lines ≡ []) }
    {
        Ok(LineBuffers {
            lines: Lines::new(alloc)?,
            line: Vec::new(alloc),
            shown: Vec::new(alloc),
        })
    }
}

// Plays the lines of an input, none of which was read, and writes what is held back at their end.
fn go_through<'s, 'r: 's, 'x: 's, E: 's, R, J, G, P>(
    session: &mut Session<'s, 'r, 'x, E, R, J, G>,
    interface: &Interface<'_>,
    reader: &mut LineReader<'_, '_>,
    channels: &mut P,
) -> Result<u64, PlayFault>
where
    R: Wait + Sync,
    J: OfImage + Send + Sync + 's,
    G: Gate + Sync + 's,
    P: Channels,
    requires interface { interface.now ≡ J.image.program.variables }
    requires reader { reader.old.variables ≡ J.image.program.variables }
    requires first { session.old.last ≡ None }
    ensures came { CameTo J.image (P.seen channels.old) (P.seen channels.new) result }
    ensures same { P.names channels.new ≡ P.names channels.old }
{
    let mut buffers = LineBuffers::new(session.alloc)?;
    let mut held = Vec::new(session.alloc);
    let result = go_on(
        session,
        interface,
        reader,
        &mut buffers,
        channels,
        &mut held,
    );
    drop(buffers);
    if settle(channels, &mut held) {
        return result;
    }
    Err(PlayFault::Write)
}

// Plays the lines of an input, none of which was read. What it holds back counts as written.
fn go_on<'s, 'r: 's, 'x: 's, E: 's, R, J, G, P>(
    session: &mut Session<'s, 'r, 'x, E, R, J, G>,
    interface: &Interface<'_>,
    reader: &mut LineReader<'_, '_>,
    buffers: &mut LineBuffers,
    channels: &mut P,
    held: &mut Vec<u8>,
) -> Result<u64, PlayFault>
where
    R: Wait + Sync,
    J: OfImage + Send + Sync + 's,
    G: Gate + Sync + 's,
    P: Channels,
    requires interface { interface.now ≡ J.image.program.variables }
    requires reader { reader.old.variables ≡ J.image.program.variables }
    requires first { session.old.last ≡ None }
    requires lines { buffers.old.lines ≡ [] }
    requires held { held.old.items ≡ [] }
    ensures came { CameTo J.image (P.seen channels.old) (with_held (P.seen channels.new) held.new.items) result
        × HoldsBack J.image (P.seen channels.old) (P.seen channels.new) held.new.items }
    ensures same { P.names channels.new ≡ P.names channels.old }
    ensures read { result ≡ Err PlayFault.Read → held.new.items ≡ [] }
    ensures write { result ≡ Err PlayFault.Write → held.new.items ≡ [] }
{
    let mut number = 0;
    let mut is_ended = false;
    for _turn in 0..u128::MAX {
        if is_ended {
            return Ok(number);
        }
        let next = next_number(number);
        let end = match channels.next(&mut buffers.lines, &mut buffers.line) {
            Ok(Some(end)) => end,
            Ok(None) => return Ok(number),
            Err(fault) => return Err(unread_line(fault, next)),
        };
        session.react(interface, reader, next, &buffers.line, &mut buffers.shown)?;
        channels.publish(session.rt, session.verified, session.end())?;
        if !write_or_hold(
            channels,
            held,
            buffers.shown.as_slice(),
            buffers.lines.has_line(),
        ) {
            return Err(PlayFault::Write);
        }
        number = next;
        is_ended = is_last(end);
    }
    Err(PlayFault::Memory)
}
