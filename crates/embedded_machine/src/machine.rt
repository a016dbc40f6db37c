//! Machines: what is opened, and the configuration in which it rests.

ghost use Rattle.std.specs.Prelude.{◌≡◌, IfErr, IfOk, IsTrue, OnErr, OnOk, length};
ghost use Rattle.sc_graph.specs.Tick.{AreAccepted, Rests, initial};
ghost use Rattle.tick_core.specs.Parked.{IsSpaceOf};
ghost use Rattle.embedded_machine.specs.Cells.{inputs_in};
ghost use Rattle.embedded_machine.specs.Inside.{count_inputs};
ghost use Rattle.embedded_machine.specs.Refusals.{Lacks, give_inputs};
ghost use Rattle.embedded_machine.specs.declared.fault.MachineFault.TheVariants as fault;
ghost use Rattle.embedded_machine.specs.Ticks.{IsFirst, Reacts, Ticked};

use crate::fault::MachineFault;
use crate::inputs::{give_all, room_for_inputs};
use crate::opened::Opened;
use core::mem::replace_with;
use sc_graph::Control;
use std::alloc::{AllocError, Global};
use std::marker::Model;
use tick_core::{Inputs, ParkedSpace, TickSpace};
use verifier::Verified;

/// A machine between two ticks. Contracts see what is opened, and the configuration in which it rests.
#[derive(Drop)]
pub struct Machine {
    opened: Opened,
    carried: Carried,
}

impl Model for Machine {
    ghost use Rattle.std.specs.Prelude.{◌≡◌, length};
    ghost use Rattle.sc_graph.specs.Tick.{Rests};
    ghost use Rattle.tick_core.specs.Parked.{IsSpaceOf};
    ghost use Rattle.embedded_machine.specs.Inside.{count_inputs};
    ghost use Rattle.embedded_machine.specs.Ticks.{Resting};

    ghost Value = { Resting };

    ghost view = { λ m. record { opened = m.opened; control = m.carried.control } };

    ghost invariant = { λ m.
        Rests m.opened.image.program m.carried.control × IsSpaceOf m.opened.image m.carried.space
        × (length m.carried.inputs ≡ count_inputs m.opened.image.program.variables) };
}

// What a tick takes over from the one before: the configuration in which that ended, its inputs, whose places are
// written anew, and the space.
#[derive(Drop)]
struct Carried {
    control: Control,
    inputs: Inputs,
    space: ParkedSpace,
}

impl Machine {
    /// The machine of an image before its first tick, with all memory that its ticks take. Err: memory was refused.
    pub fn of(alloc: Global, opened: Opened) -> Result<Machine, AllocError>
        ensures { IfOk result (IsFirst opened) }
    {
        let carried = carried_first(alloc, opened.verified())?;
        Ok(Machine { opened, carried })
    }

    /// What is opened.
    pub fn opened(&self) -> &Opened
        ensures { result.now ≡ self.now.opened }
    {
        &self.opened
    }

    /// How many variables it has.
    pub fn variable_count(&self) -> usize
        ensures shown { result ≡ length self.now.control.variables }
        ensures declared { result ≡ length self.now.opened.image.program.variables }
    {
        self.carried.control.variables.len()
    }

    /// The configuration in which it rests.
    pub fn control(&self) -> &Control
        ensures value { result.now ≡ self.now.control }
        ensures rests { Rests self.now.opened.image.program result.now }
    {
        &self.carried.control
    }

    /// One tick under the inputs of these cells, one for each variable; how many steps it took. It takes no memory.
    /// Err: there are not as many cells, or one of an input holds no value of its kind; nothing has changed then.
    #[tactic(auto, using(crate::proofs::Accepted::cells_accepted))]
    pub fn react(&mut self, cells: &[i32]) -> Result<u64, MachineFault>
        ensures ticked { IfOk result (λ steps. Ticked cells.now steps self.old self.new) }
        ensures given { OnOk result (IsTrue (give_inputs self.old.opened.image.program.variables cells.now)) }
        ensures lacks { IfErr result
            (Lacks (IsTrue (give_inputs self.old.opened.image.program.variables cells.now)) fault.Input) }
        ensures same { OnErr result (self.new ≡ self.old) }
    {
        let verified = self.opened.verified();
        let variables = verified.image().program().variables();
        give_all(&mut self.carried.inputs, variables, cells)?;
        Ok(replace_with(&mut self.carried, verified, ticked))
    }

    /// Puts it into a configuration in which it rests.
    pub fn put(&mut self, control: Control)
        requires { Rests self.old.opened.image.program control }
        ensures opened { self.new.opened ≡ self.old.opened }
        ensures control { self.new.control ≡ control }
    {
        self.carried.control = control;
    }
}

// What the first tick of an image takes over.
fn carried_first(alloc: Global, verified: &Verified) -> Result<Carried, AllocError>
    ensures control { IfOk result (λ c. c.control ≡ initial verified.now.program) }
    ensures rests { IfOk result (λ c. Rests verified.now.program c.control) }
    ensures inputs { IfOk result (λ c. length c.inputs ≡ count_inputs verified.now.program.variables) }
    ensures space { IfOk result (λ c. IsSpaceOf verified.now c.space) }
{
    let program = verified.image().program();
    let control = Control::initial(alloc, program)?;
    let inputs = room_for_inputs(alloc, program.variables())?;
    let space = TickSpace::of(alloc, verified)?.park();
    Ok(Carried {
        control,
        inputs,
        space,
    })
}

// A whole tick under the inputs, and how many steps it took.
fn ticked(carried: Carried, verified: &Verified) -> (Carried, u64)
    requires rests { Rests verified.now.program carried.control }
    requires accepted { AreAccepted verified.now.program carried.inputs }
    requires space { IsSpaceOf verified.now carried.space }
    ensures rests { Rests verified.now.program result.0.control }
    ensures reacts { Reacts verified.now carried.inputs carried.control result.0.control result.1 }
    ensures inputs { result.0.inputs ≡ carried.inputs }
    ensures space { IsSpaceOf verified.now result.0.space }
{
    let Carried {
        control,
        inputs,
        space,
    } = carried;
    let mut state = match space.with(verified).go_on(control, &inputs) {
        Ok(state) => state,
        Err(_) => unreachable!(),
    };
    state.run_alone();
    let steps = state.history().len() as u64;
    let (control, space) = state.hand_over();
    let carried = Carried {
        control,
        inputs,
        space: space.park(),
    };
    (carried, steps)
}
