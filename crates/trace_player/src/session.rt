//! The ticks of a trace, one after another.

ghost use Rattle.std.specs.Prelude.{◌≡◌, ◌≤◌, IsSome, IfErr, IfOk, None, OnOk, length};
ghost use Rattle.std.specs.Result.{IsErrOf};
ghost use Rattle.sc_graph.specs.Tick.{AreAccepted, Rests};
ghost use Rattle.trace_lines.specs.Lines.{line_limit};
ghost use Rattle.trace_player.specs.Trace.{Reacts, Shows};
ghost use Rattle.trace_player.specs.Inside.Faults.{Tells};
ghost use Rattle.trace_player.specs.Inside.Resting.{HasSteps, IsAtRest, Ticked, rest_behind};

use crate::player::PlayFault;
use std::alloc::Global;
use std::sync::Wait;
use std::thread::Scope;
use tick_core::{BeginFault, Control, Inputs, TickSpace, TickState};
use trace_lines::{Interface, LineFault, LineReader};
use verifier::Verified;
use worker_pool::{Gate, OfImage, Team};

/// A team at work on the ticks of a trace, what it works with, and the last tick.
#[derive(Drop)]
pub(crate) struct Session<'s, 'r, 'x, E, R, J: OfImage, G: Gate> {
    pub rt: &'s R,
    pub scope: &'s Scope<'s, E>,
    pub alloc: Global,
    pub verified: &'x Verified,
    pub team: Team<'r, 'x, J, G>,
    // over; none before the first one
    pub last: Option<TickState<'x>>,
    ghost of_image: { verified.now ≡ J.image },
}

impl<'s, 'r: 's, 'x: 's, E: 's, R, J, G> Session<'s, 'r, 'x, E, R, J, G>
where
    R: Wait + Sync,
    J: OfImage + Send + Sync + 's,
    G: Gate + Sync + 's,
{
    // One tick, from where the last one ended: the number of its steps.
    fn tick(&mut self, inputs: &Inputs) -> Result<u64, BeginFault>
        requires rests { IsAtRest J.image self.old.last }
        ensures rests { OnOk result (IsAtRest J.image self.new.last) }
        ensures ticked { OnOk result (IsSome self.new.last) }
        ensures reacts { IfOk result (Reacts J.image inputs.now (rest_behind J.image self.old.last)
            (rest_behind J.image self.new.last)) }
        ensures refused { IsErrOf result BeginFault.Input → ¬ AreAccepted J.image.program inputs.now }
    {
        self.go_on(inputs)?;
        Ok(self.steps())
    }

    // One tick, from where the last one ended.
    fn go_on(&mut self, inputs: &Inputs) -> Result<(), BeginFault>
        requires rests { IsAtRest J.image self.old.last }
        ensures ticked { OnOk result (Ticked J.image inputs.now self.old.last self.new.last) }
        ensures refused { IsErrOf result BeginFault.Input → ¬ AreAccepted J.image.program inputs.now }
    {
        if self.last.is_some() {
            self.team
                .go_on(self.rt, self.scope, self.alloc, &mut self.last, inputs)
        } else {
            self.begin(inputs)
        }
    }

    // The first tick.
    fn begin(&mut self, inputs: &Inputs) -> Result<(), BeginFault>
        requires first { self.old.last ≡ None }
        ensures ticked { OnOk result (Ticked J.image inputs.now self.old.last self.new.last) }
        ensures refused { IsErrOf result BeginFault.Input → ¬ AreAccepted J.image.program inputs.now }
    {
        let control = Control::initial(self.alloc, self.verified.image().program())?;
        let room = match TickSpace::of(self.alloc, self.verified) {
            Ok(room) => room,
            Err(error) => {
                drop(control);
                return Err(BeginFault::from(error));
            }
        };
        let state = self
            .team
            .tick(self.rt, self.scope, self.alloc, room, control, inputs)?;
        drop(self.last.replace(state));
        Ok(())
    }

    // The number of steps of the last tick.
    fn steps(&self) -> u64
        requires ticked { IsSome self.now.last }
        requires rests { IsAtRest J.image self.now.last }
        ensures { HasSteps self.now.last result }
    {
        let Some(state) = &self.last else {
            unreachable!()
        };
        let _end = state.end();
        state.history().len() as u64
    }

    /// What the line of this number makes: a tick. The line of output goes to `shown`.
    pub(crate) fn react(
        &mut self,
        interface: &Interface<'_>,
        reader: &mut LineReader<'_, '_>,
        number: u64,
        line: &[u8],
        shown: &mut Vec<u8>,
    ) -> Result<(), PlayFault>
        requires interface { interface.now ≡ J.image.program.variables }
        requires reader { reader.old.variables ≡ J.image.program.variables }
        requires rests { IsAtRest J.image self.old.last }
        requires short { length line.now ≤ line_limit }
        ensures rests { OnOk result (IsAtRest J.image self.new.last) }
        ensures ticked { OnOk result (IsSome self.new.last) }
        ensures shows { OnOk result (Shows J.image number (rest_behind J.image self.old.last) line.now
            (rest_behind J.image self.new.last) shown.new.items) }
        ensures fault { IfErr result (Tells J.image.program number line.now) }
        ensures reader { reader.new.variables ≡ reader.old.variables }
    {
        match reader.read(self.alloc, line) {
            Ok(()) => {}
            Err(LineFault::Memory) => return Err(PlayFault::Memory),
            Err(LineFault::NotJson) => return Err(PlayFault::NotJson(number)),
            Err(LineFault::Input) => return Err(PlayFault::Input(number)),
        }
        let steps = match self.tick(reader.given()) {
            Ok(steps) => steps,
            Err(BeginFault::Memory) => return Err(PlayFault::Memory),
            Err(BeginFault::Input) => return Err(PlayFault::Input(number)),
        };
        let values = self.end().variables.as_slice();
        interface.write_line(shown, number, steps, values)?;
        Ok(())
    }

    /// The configuration in which the last tick ended.
    pub(crate) fn end(&self) -> &Control
        requires ticked { IsSome self.now.last }
        requires rests { IsAtRest J.image self.now.last }
        ensures value { result.now ≡ rest_behind J.image self.now.last }
        ensures rests { Rests J.image.program result.now }
    {
        let Some(state) = &self.last else {
            unreachable!()
        };
        state.end()
    }
}
