//! A tick after the other, by workers that are kept.

ghost use Rattle.std.specs.Prelude.{◌≡◌, ◌≢◌, ◌↔◌, false, Ok, Err, None, IfOk, IsSome, OnErr, OnOk, MatchOption};
ghost use Rattle.std.specs.Result.{IsErrOf};
ghost use Rattle.sc_values.specs.Runs.{IsOver};
ghost use Rattle.sc_graph.specs.Machine.{machine};
ghost use Rattle.sc_graph.specs.Tick.{Rests, AreAccepted};
ghost use Rattle.tick_core.specs.State.{BeginsTick};
ghost use Rattle.worker_pool.specs.Ticks.{Ended, HasEnded, NextEnded};
ghost use Rattle.worker_pool.specs.Inside.Stretches.{Began, Completed, EndsTick};

use crate::gate::Gate;
use crate::of_image::OfImage;
use crate::serving::{go_alone, stretch};
use crate::settling::settle;
use crate::shared_tick::SharedTick;
use crate::team::Team;
use std::alloc::{AllocError, Global};
use std::sync::Wait;
use std::thread::Scope;
use tick_core::{BeginFault, Control, Inputs, TickSpace, TickState, copied};

impl<'r, 'x, J: OfImage, G: Gate> Team<'r, 'x, J, G> {
    /// Runs a tick of the shared image from a configuration that rests and is given up, in the space that an earlier
    /// one left, to where nobody is enabled. Each step passes the gate. `Input` as of `begin`. A tick that is not
    /// shared takes no memory; one is shared with others where there is memory for it.
    pub fn tick<'s, R, E>(
        &mut self,
        rt: &'s R,
        scope: &'s Scope<'s, E>,
        alloc: Global,
        room: TickSpace<'x>,
        control: Control,
        inputs: &Inputs,
    ) -> Result<TickState<'x>, BeginFault>
    where
        R: Wait + Sync,
        J: Send + Sync + 's,
        G: Sync + 's,
        E: 's,
        'r: 's,
        'x: 's,
        requires image { room ≡ J.image }
        requires rests { Rests J.image.program control }
        ensures ended { IfOk result (Ended J.image inputs.now control) }
        ensures refused { IsErrOf result BeginFault.Input ↔ ¬ (AreAccepted J.image.program inputs.now) }
    {
        let state = room.go_on(control, inputs)?;
        let state = self.complete(rt, scope, alloc, state)?;
        Ok(state)
    }

    /// Runs the next tick of the shared image as `tick` does, in place, from where the one in `last` ended. `Input`:
    /// that one is there as it was. At `Memory` it is lost: none is there.
    pub fn go_on<'s, R, E>(
        &mut self,
        rt: &'s R,
        scope: &'s Scope<'s, E>,
        alloc: Global,
        last: &mut Option<TickState<'x>>,
        inputs: &Inputs,
    ) -> Result<(), BeginFault>
    where
        R: Wait + Sync,
        J: Send + Sync + 's,
        G: Sync + 's,
        E: 's,
        'r: 's,
        'x: 's,
        requires over { HasEnded J.image last.old }
        ensures ended { OnOk result (NextEnded J.image inputs.now last.old last.new) }
        ensures refused { IsErrOf result BeginFault.Input ↔ ¬ (AreAccepted J.image.program inputs.now) }
        ensures same { IsErrOf result BeginFault.Input → last.new ≡ last.old }
        ensures lost { IsErrOf result BeginFault.Memory → last.new ≡ None }
    {
        let Some(state) = last else { unreachable!() };
        if self.lead_on(state, inputs)? {
            self.complete_last(rt, scope, alloc, last)?;
        }
        Ok(())
    }

    // Begins the tick behind one, and takes the steps of it that the first worker takes alone. Whether it is to be
    // shared; if not, nobody is enabled.
    fn lead_on(&self, state: &mut TickState<'x>, inputs: &Inputs) -> Result<bool, BeginFault>
        requires image { state.old.image ≡ J.image }
        requires over { IsOver (machine J.image.program) state.old.present }
        ensures begun { OnOk result (Began J.image inputs.now state.old.present state.new) }
        ensures over { result ≡ Ok false → IsOver (machine J.image.program) state.new.present }
        ensures refused { OnErr result (¬ (AreAccepted J.image.program inputs.now)) }
        ensures same { OnErr result (state.new ≡ state.old) }
        ensures why { result ≢ Err BeginFault.Memory }
    {
        state.go_on(inputs)?;
        Ok(stretch(state, self.workers, self.shared.gate))
    }

    // Runs a tick to where nobody is enabled. Err: it was lost, and memory was refused to begin it again.
    fn complete<'s, R, E>(
        &mut self,
        rt: &'s R,
        scope: &'s Scope<'s, E>,
        alloc: Global,
        state: TickState<'x>,
    ) -> Result<TickState<'x>, AllocError>
    where
        R: Wait + Sync,
        J: Send + Sync + 's,
        G: Sync + 's,
        E: 's,
        'r: 's,
        'x: 's,
        requires { state.image ≡ J.image }
        ensures { IfOk result (EndsTick state.entry) }
    {
        let mut state = state;
        if stretch(&mut state, self.workers, self.shared.gate) {
            self.complete_owned(rt, scope, alloc, state)
        } else {
            Ok(state)
        }
    }

    /// Runs a tick to where nobody is enabled, with the others. Err: it was lost, and memory was refused to begin it
    /// again.
    pub(crate) fn complete_owned<'s, R, E>(
        &mut self,
        rt: &'s R,
        scope: &'s Scope<'s, E>,
        alloc: Global,
        state: TickState<'x>,
    ) -> Result<TickState<'x>, AllocError>
    where
        R: Wait + Sync,
        J: Send + Sync + 's,
        G: Sync + 's,
        E: 's,
        'r: 's,
        'x: 's,
        requires { state.image ≡ J.image }
        ensures { IfOk result (EndsTick state.entry) }
    {
        let mut last = Some(state);
        match self.complete_last(rt, scope, alloc, &mut last) {
            Ok(()) => Ok(last.unwrap()),
            Err(error) => {
                drop(last);
                Err(error)
            }
        }
    }

    /// The same of the tick that is there. Where memory is refused for sharing it the first worker goes on alone. Err:
    /// it was lost, and is not there.
    pub(crate) fn complete_last<'s, R, E>(
        &mut self,
        rt: &'s R,
        scope: &'s Scope<'s, E>,
        alloc: Global,
        last: &mut Option<TickState<'x>>,
    ) -> Result<(), AllocError>
    where
        R: Wait + Sync,
        J: Send + Sync + 's,
        G: Sync + 's,
        E: 's,
        'r: 's,
        'x: 's,
        requires { MatchOption last.old ⊥ (λ s. s.image ≡ J.image) }
        ensures ended { OnOk result (Completed last.old last.new) }
        ensures lost { OnErr result (last.new ≡ None) }
    {
        match begun_by(alloc, last) {
            Ok(begun) => self.complete_from(rt, scope, alloc, last, begun),
            Err(_) => {
                go_alone(last, self.shared.gate);
                Ok(())
            }
        }
    }

    // The same of the tick that began so.
    fn complete_from<'s, R, E>(
        &mut self,
        rt: &'s R,
        scope: &'s Scope<'s, E>,
        alloc: Global,
        last: &mut Option<TickState<'x>>,
        begun: Control,
    ) -> Result<(), AllocError>
    where
        R: Wait + Sync,
        J: Send + Sync + 's,
        G: Sync + 's,
        E: 's,
        'r: 's,
        'x: 's,
        requires there { MatchOption last.old ⊥ (λ s. (s.image ≡ J.image) × (s.begun ≡ begun)) }
        requires begins { BeginsTick J.image.program begun }
        ensures ended { OnOk result (Completed last.old last.new) }
        ensures lost { OnErr result (last.new ≡ None) }
    {
        let state = last.take().unwrap();
        let back = self.share(rt, scope, SharedTick::of(state));
        let state = settle(alloc, self.shared.verified, back, begun)?;
        drop(last.replace(state));
        Ok(())
    }
}

// Where the tick that is there began.
fn begun_by(alloc: Global, last: &Option<TickState<'_>>) -> Result<Control, AllocError>
    requires { IsSome last.now }
    ensures { IfOk result (λ begun. MatchOption last.now ⊥ (λ s. (s.begun ≡ begun)
        × BeginsTick s.image.program begun)) }
{
    let Some(state) = last else { unreachable!() };
    copied(alloc, state.begun())
}
