//! The ticks of a trace, one after another.

ghost use Rattle.std.specs.Prelude.{◌≡◌, ◌≤◌, IfOk, IfErr, length};
ghost use Rattle.std.specs.Result.{IsErrOf};
ghost use Rattle.sc_graph.specs.Tick.{Rests, AreAccepted};
ghost use Rattle.trace_lines.specs.Lines.{line_limit};
ghost use Rattle.trace_player.specs.Trace.{EndsAt, Reacts};
ghost use Rattle.trace_player.specs.Played.{Tells};
ghost use Rattle.state_traces.specs.Trace.{Shows};

use crate::line::write_line;
use crate::words::Words;
use std::alloc::Global;
use tick_core::{BeginFault, Control, Inputs, TickSpace};
use trace_lines::{Interface, LineFault, LineRoom};
use trace_player::PlayFault;

// One tick from a configuration: the one after it, the number of steps, and the room for the next tick.
fn tick<'x>(
    room: TickSpace<'x>,
    control: Control,
    inputs: &Inputs,
) -> Result<(Control, u64, TickSpace<'x>), BeginFault>
    requires rests { Rests room.program control }
    ensures rests { IfOk result (λ r. Rests room.entry.program r.0) }
    ensures reacts { IfOk result (λ r. Reacts room.entry inputs.now control r.0 r.1) }
    ensures room { IfOk result (λ r. r.2 ≡ room.entry) }
    ensures refused { IsErrOf result BeginFault.Input → ¬ AreAccepted room.entry.program inputs.now }
{
    let mut state = room.go_on(control, inputs)?;
    state.run_alone();
    let steps = state.history().len() as u64;
    let (control, room) = state.hand_over();
    Ok((control, steps, room))
}

/// What the line of this number makes: the configuration after its tick, and the room for the next tick. The line of
/// output goes to `shown`.
pub(crate) fn react<'x, W: Words>(
    alloc: Global,
    interface: &Interface<'_>,
    line_room: &mut LineRoom,
    words: &W,
    room: TickSpace<'x>,
    control: Control,
    number: u64,
    line: &[u8],
    shown: &mut Vec<u8>,
) -> Result<(Control, TickSpace<'x>), PlayFault>
    requires interface { interface.now ≡ room.program.variables }
    requires rests { Rests room.program control }
    requires short { length line.now ≤ line_limit }
    ensures rests { IfOk result (λ r. Rests room.entry.program r.0) }
    ensures shows { IfOk result (λ r.
        Shows (W.words words.now) room.entry number control line.now r.0 shown.new.items) }
    ensures room { IfOk result (λ r. r.1 ≡ room.entry) }
    ensures fault { IfErr result (Tells (EndsAt room.entry.program number line.now)) }
{
    let inputs = match interface.read_line_in(alloc, line_room, line) {
        Ok(inputs) => inputs,
        Err(LineFault::Memory) => {
            drop(control);
            drop(room);
            return Err(PlayFault::Memory);
        }
        Err(LineFault::NotJson) => {
            drop(control);
            drop(room);
            return Err(PlayFault::NotJson(number));
        }
        Err(LineFault::Input) => {
            drop(control);
            drop(room);
            return Err(PlayFault::Input(number));
        }
    };
    let (control, steps, room) = match tick(room, control, &inputs) {
        Ok(ticked) => ticked,
        Err(BeginFault::Memory) => return Err(PlayFault::Memory),
        Err(BeginFault::Input) => return Err(PlayFault::Input(number)),
    };
    match write_line(alloc, interface, words, shown, number, steps, &control) {
        Ok(()) => Ok((control, room)),
        Err(_) => {
            drop(control);
            drop(room);
            Err(PlayFault::Memory)
        }
    }
}
