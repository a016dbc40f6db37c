//! What one line makes.

ghost use Rattle.std.specs.Prelude.{◌≡◌, ◌≤◌, IfOk, IfErr, length};
ghost use Rattle.sc_graph.specs.Tick.{Rests, AreAccepted};
ghost use Rattle.trace_lines.specs.Lines.{line_limit};
ghost use Rattle.trace_player.specs.Trace.{Reacts, Shows, next_number};
ghost use Rattle.trace_player.specs.Played.{Tells};
ghost use Rattle.ruled_runs.specs.Trace.{EndsAt, Makes};
ghost use Rattle.ruled_runs.specs.Inside.Faults.{Says};

use crate::traces::answer::{Bad, fault_of, write_answer};
use crate::traces::naming::all_named;
use crate::traces::place::RunPlace;
use crate::traces::rules::Rules;
use sc_graph::Program;
use std::alloc::{AllocError, Global};
use tick_core::{BeginFault, Control, Inputs, TickSpace};
use trace_lines::{Interface, LineFault, LineRoom};
use trace_player::{PlayFault, next_number};

/// What a line says.
#[derive(Drop)]
pub(crate) enum Said {
    /// It gives these inputs.
    Gives(Inputs),
    /// It gives none.
    Lacks(Bad),
}

// What a line says under these rules.
#[tactic(auto, using(crate::proofs::Accepted::gives_inputs, crate::proofs::Accepted::gives_none))]
fn said_by(
    alloc: Global,
    rules: Rules,
    program: &Program,
    interface: &Interface<'_>,
    line_room: &mut LineRoom,
    line: &[u8],
) -> Result<Said, AllocError>
    requires interface { interface.now ≡ program.now.variables }
    requires short { length line.now ≤ line_limit }
    ensures { IfOk result (Says rules program.now line.now) }
{
    match interface.read_line_in(alloc, line_room, line) {
        Ok(inputs) => {
            if rules.strict && !all_named(program.variables(), inputs.as_slice()) {
                return Ok(Said::Lacks(Bad::NoInputs));
            }
            Ok(Said::Gives(inputs))
        }
        Err(LineFault::Memory) => Err(AllocError),
        Err(LineFault::NotJson) => Ok(Said::Lacks(Bad::NoObject)),
        Err(LineFault::Input) => Ok(Said::Lacks(Bad::NoInputs)),
    }
}

// One tick from a configuration under inputs that are accepted: the one after it, the number of steps, and the room for
// the next tick.
fn tick<'x>(room: TickSpace<'x>, control: Control, inputs: &Inputs) -> (Control, u64, TickSpace<'x>)
    requires rests { Rests room.program control }
    requires accepted { AreAccepted room.program inputs.now }
    ensures rests { Rests room.entry.program result.0 }
    ensures reacts { Reacts room.entry inputs.now control result.0 result.1 }
    ensures room { result.2 ≡ room.entry }
{
    let mut state = match room.go_on(control, inputs) {
        Ok(state) => state,
        Err(BeginFault::Memory | BeginFault::Input) => unreachable!(),
    };
    state.run_alone();
    let steps = state.history().len() as u64;
    let (control, room) = state.hand_over();
    (control, steps, room)
}

/// What the line behind a place makes under these rules: the place behind it, and the room for the next tick. What is
/// shown of it goes to `shown`.
pub(crate) fn react<'x>(
    alloc: Global,
    rules: Rules,
    program: &Program,
    interface: &Interface<'_>,
    line_room: &mut LineRoom,
    room: TickSpace<'x>,
    place: RunPlace,
    line: &[u8],
    shown: &mut Vec<u8>,
) -> Result<(RunPlace, TickSpace<'x>), PlayFault>
    requires program { program.now ≡ room.program }
    requires interface { interface.now ≡ program.now.variables }
    requires rests { Rests room.program place.control }
    requires short { length line.now ≤ line_limit }
    ensures rests { IfOk result (λ r. Rests room.entry.program r.0.control) }
    ensures makes { IfOk result (λ r. Makes rules room.entry place line.now r.0 shown.new.items) }
    ensures room { IfOk result (λ r. r.1 ≡ room.entry) }
    ensures fault { IfErr result (Tells (EndsAt rules room.entry.program (next_number place.lines) line.now)) }
{
    let RunPlace {
        lines,
        ticks,
        control,
    } = place;
    let lines = next_number(lines);
    let said = match said_by(alloc, rules, program, interface, line_room, line) {
        Ok(said) => said,
        Err(_) => {
            drop(control);
            drop(room);
            return Err(PlayFault::Memory);
        }
    };
    match said {
        Said::Gives(inputs) => {
            let ticks = next_number(ticks);
            let (control, steps, room) = tick(room, control, &inputs);
            match interface.write_line(shown, ticks, steps, control.variables.as_slice()) {
                Ok(()) => Ok((
                    RunPlace {
                        lines,
                        ticks,
                        control,
                    },
                    room,
                )),
                Err(_) => {
                    drop(control);
                    drop(room);
                    Err(PlayFault::Memory)
                }
            }
        }
        Said::Lacks(bad) => {
            if !rules.skips {
                drop(control);
                drop(room);
                return Err(fault_of(bad, lines));
            }
            match write_answer(alloc, shown, bad, lines) {
                Ok(()) => Ok((
                    RunPlace {
                        lines,
                        ticks,
                        control,
                    },
                    room,
                )),
                Err(_) => {
                    drop(control);
                    drop(room);
                    Err(PlayFault::Memory)
                }
            }
        }
    }
}
