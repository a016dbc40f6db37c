//! What is done with handles: machines are opened, tick, are saved, restored, reset and closed.

ghost use Rattle.std.specs.Prelude.{◌≡◌, ◌<◌, IfErr, IfOk, None, OnErr, OnOk, Some, length};
ghost use Rattle.node_states.specs.Active.{is_active};
ghost use Rattle.embedded_machine.specs.Cells.{HoldControl};
ghost use Rattle.embedded_machine.specs.Refusals.{
  AreForControl,
  AreForTick,
  ClosedOrMemory,
  HasState,
  HaveRoom,
  HeldLacks,
  HeldLacksOrMemory,
  HoldRestOf,
  Lacks,
  LacksOrMemory,
  TellNames,
};
ghost use Rattle.embedded_machine.specs.declared.fault.MachineFault.TheVariants as fault;
ghost use Rattle.embedded_machine.specs.Ticks.{
  Holds,
  IsFirst,
  ResetHeld,
  Restored,
  RestoredHeld,
  ShowValues,
  Ticked,
  TickedHeld,
};

use crate::buffers::put_all;
use crate::controls::{control_in, put_control, put_values};
use crate::fault::MachineFault;
use crate::handles::MachineHandle;
use crate::machine::Machine;
use crate::opened::Opened;
use crate::rows::{VariableRow, names_of, put_rows};
use sc_graph::Control;
use std::alloc::{AllocError, Global};
use std::mem;

/// Opens a machine of an image behind a handle, whose own is closed, before its first tick. Err: memory was refused;
/// nothing has changed.
pub fn open_machine(
    alloc: Global,
    opened: Opened,
    handle: &mut MachineHandle,
) -> Result<(), AllocError>
    ensures first { OnOk result (Holds handle.new.machine (IsFirst opened)) }
    ensures same { OnErr result (handle.new.machine ≡ handle.old.machine) }
{
    let machine = Machine::of(alloc, opened)?;
    let boxed = Box::new(alloc, machine)?;
    hold(alloc, handle, boxed);
    Ok(())
}

// Puts a machine behind a handle, whose own is closed.
fn hold(alloc: Global, handle: &mut MachineHandle, boxed: Box<Machine>)
    ensures { handle.new.machine ≡ Some boxed.value }
{
    let before = mem::replace(handle, MachineHandle::of(boxed));
    drop(before.into_box(alloc));
}

/// One tick of the machine behind a handle, by the inputs in cells, whose values go into cells; how many steps it
/// took. It takes no memory. Err: there is none; or there are not as many cells as variables, or one of an input holds
/// no value of its kind. Nothing has changed then.
pub fn react(
    alloc: Global,
    handle: &mut MachineHandle,
    inputs: &[i32],
    values: &mut [i32],
) -> Result<u64, MachineFault>
    ensures ticked { IfOk result (λ steps.
        TickedHeld inputs.now values.new steps handle.old.machine handle.new.machine) }
    ensures asked { OnOk result (Holds handle.old.machine (AreForTick inputs.now values.old)) }
    ensures lacks { IfErr result (HeldLacks (AreForTick inputs.now values.old) fault.Input handle.old.machine) }
    ensures same { OnErr result (handle.new.machine ≡ handle.old.machine) }
    ensures values { OnErr result (values.new ≡ values.old) }
{
    let taken = mem::replace(handle, MachineHandle::empty());
    match taken.into_box(alloc) {
        Some(mut boxed) => {
            let result = react_shown(boxed.as_mut(), inputs, values);
            hold(alloc, handle, boxed);
            result
        }
        None => Err(MachineFault::Closed),
    }
}

// One tick of a machine, whose values go into cells.
fn react_shown(
    machine: &mut Machine,
    inputs: &[i32],
    values: &mut [i32],
) -> Result<u64, MachineFault>
    ensures ticked { IfOk result (λ steps.
        Ticked inputs.now steps machine.old machine.new × ShowValues values.new machine.new) }
    ensures asked { OnOk result (AreForTick inputs.now values.old machine.old) }
    ensures lacks { IfErr result (Lacks (AreForTick inputs.now values.old machine.old) fault.Input) }
    ensures same { OnErr result (machine.new ≡ machine.old) }
    ensures values { OnErr result (values.new ≡ values.old) }
{
    if values.len() != machine.variable_count() {
        return Err(MachineFault::Input);
    }
    let steps = machine.react(inputs)?;
    put_values(machine.control().variables.as_slice(), values);
    Ok(steps)
}

/// Puts the configuration of the machine behind a handle into cells, one for each variable and one for each thread.
/// Err: there is no machine, or there are not as many cells; nothing has changed then.
pub fn save(
    alloc: Global,
    handle: &mut MachineHandle,
    values: &mut [i32],
    statuses: &mut [u32],
) -> Result<(), MachineFault>
    ensures saved { OnOk result (Holds handle.new.machine (λ m. HoldControl values.new statuses.new m.control)) }
    ensures asked { OnOk result (Holds handle.old.machine (λ m. AreForControl values.old statuses.old m.control)) }
    ensures lacks { IfErr result
        (HeldLacks (λ m. AreForControl values.old statuses.old m.control) fault.Room handle.old.machine) }
    ensures values { OnErr result (values.new ≡ values.old) }
    ensures statuses { OnErr result (statuses.new ≡ statuses.old) }
    ensures same { handle.new.machine ≡ handle.old.machine }
{
    let taken = mem::replace(handle, MachineHandle::empty());
    match taken.into_box(alloc) {
        Some(boxed) => {
            let result = save_control(boxed.as_ref().control(), values, statuses);
            hold(alloc, handle, boxed);
            result
        }
        None => Err(MachineFault::Closed),
    }
}

// Puts a configuration into cells. Err: there are not as many.
fn save_control(
    control: &Control,
    values: &mut [i32],
    statuses: &mut [u32],
) -> Result<(), MachineFault>
    ensures saved { OnOk result (HoldControl values.new statuses.new control.now) }
    ensures asked { OnOk result (AreForControl values.old statuses.old control.now) }
    ensures lacks { IfErr result (Lacks (AreForControl values.old statuses.old control.now) fault.Room) }
    ensures values { OnErr result (values.new ≡ values.old) }
    ensures statuses { OnErr result (statuses.new ≡ statuses.old) }
{
    if control.variables.len() != values.len() || control.statuses.len() != statuses.len() {
        return Err(MachineFault::Room);
    }
    put_control(control, values, statuses);
    Ok(())
}

/// Puts the machine behind a handle into the configuration in these cells, in which it rests. Err: there is no
/// machine, or they hold no such configuration; or memory was refused. Nothing has changed then.
pub fn restore(
    alloc: Global,
    handle: &mut MachineHandle,
    values: &[i32],
    statuses: &[u32],
) -> Result<(), MachineFault>
    ensures restored { OnOk result (RestoredHeld values.now statuses.now handle.old.machine handle.new.machine) }
    ensures lacks { IfErr result
        (HeldLacksOrMemory (HoldRestOf values.now statuses.now) fault.Control handle.old.machine) }
    ensures same { OnErr result (handle.new.machine ≡ handle.old.machine) }
{
    let taken = mem::replace(handle, MachineHandle::empty());
    match taken.into_box(alloc) {
        Some(mut boxed) => {
            let result = restore_one(alloc, boxed.as_mut(), values, statuses);
            hold(alloc, handle, boxed);
            result
        }
        None => Err(MachineFault::Closed),
    }
}

// Puts a machine into the configuration in these cells.
fn restore_one(
    alloc: Global,
    machine: &mut Machine,
    values: &[i32],
    statuses: &[u32],
) -> Result<(), MachineFault>
    ensures restored { OnOk result (Restored values.now statuses.now machine.old machine.new) }
    ensures lacks { IfErr result (LacksOrMemory (HoldRestOf values.now statuses.now machine.old) fault.Control) }
    ensures same { OnErr result (machine.new ≡ machine.old) }
{
    let program = machine.opened().verified().image().program();
    let control = control_in(alloc, program, values, statuses)?;
    machine.put(control);
    Ok(())
}

/// Whether the state of this number is active in the configuration of the machine behind a handle. Err: there is no
/// machine, or its chart has no such state.
pub fn state_is_active(
    alloc: Global,
    handle: &mut MachineHandle,
    number: u32,
) -> Result<bool, MachineFault>
    ensures active { IfOk result (λ active. Holds handle.new.machine (λ m.
        (active ≡ is_active m.opened.states.nodes m.control number) × (number < length m.opened.states.paths))) }
    ensures lacks { IfErr result (HeldLacks (HasState number) fault.Number handle.old.machine) }
    ensures same { handle.new.machine ≡ handle.old.machine }
{
    let taken = mem::replace(handle, MachineHandle::empty());
    match taken.into_box(alloc) {
        Some(boxed) => {
            let result = active_in(boxed.as_ref(), number);
            hold(alloc, handle, boxed);
            result
        }
        None => Err(MachineFault::Closed),
    }
}

// Whether the state of this number is active. Err: the chart has none.
fn active_in(machine: &Machine, number: u32) -> Result<bool, MachineFault>
    ensures active { IfOk result (λ active.
        (active ≡ is_active machine.now.opened.states.nodes machine.now.control number)
        × (number < length machine.now.opened.states.paths)) }
    ensures lacks { IfErr result (Lacks (HasState number machine.now) fault.Number) }
{
    let states = machine.opened().states();
    if number as usize >= states.count() {
        return Err(MachineFault::Number);
    }
    Ok(states.is_active(machine.control(), number))
}

/// Puts the machine behind a handle before its first tick again. Err: there is none, or memory was refused; nothing has
/// changed.
pub fn reset(alloc: Global, handle: &mut MachineHandle) -> Result<(), MachineFault>
    ensures first { OnOk result (ResetHeld handle.old.machine handle.new.machine) }
    ensures lacks { IfErr result (ClosedOrMemory handle.old.machine) }
    ensures same { OnErr result (handle.new.machine ≡ handle.old.machine) }
{
    let taken = mem::replace(handle, MachineHandle::empty());
    match taken.into_box(alloc) {
        Some(mut boxed) => {
            let result = reset_one(alloc, boxed.as_mut());
            hold(alloc, handle, boxed);
            result
        }
        None => Err(MachineFault::Closed),
    }
}

// Puts a machine before its first tick again.
fn reset_one(alloc: Global, machine: &mut Machine) -> Result<(), MachineFault>
    ensures first { OnOk result (IsFirst machine.old.opened machine.new) }
    ensures lacks { IfErr result (λ told. told ≡ fault.Memory) }
    ensures same { OnErr result (machine.new ≡ machine.old) }
{
    let control = Control::initial(alloc, machine.opened().verified().image().program())?;
    machine.put(control);
    Ok(())
}

/// Closes the machine behind a handle, which holds none then.
pub fn close(alloc: Global, handle: &mut MachineHandle)
    ensures { handle.new.machine ≡ None }
{
    let taken = mem::replace(handle, MachineHandle::empty());
    drop(taken.into_box(alloc));
}

/// Puts the variables of the machine behind a handle into rows, and their names and those of the states of its chart
/// into buffers, a zero byte behind each. Err: there is none; or there are not as many rows, or a buffer has no room;
/// or memory was refused. Nothing has changed then.
pub fn tell_names(
    alloc: Global,
    handle: &mut MachineHandle,
    rows: &mut [VariableRow],
    names: &mut [u8],
    states: &mut [u8],
) -> Result<(), MachineFault>
    ensures told { OnOk result (Holds handle.new.machine (TellNames rows.new names.new states.new)) }
    ensures asked { OnOk result (Holds handle.old.machine (HaveRoom rows.old names.old states.old)) }
    ensures lacks { IfErr result
        (HeldLacksOrMemory (HaveRoom rows.old names.old states.old) fault.Room handle.old.machine) }
    ensures rows { OnErr result (rows.new ≡ rows.old) }
    ensures names { OnErr result (names.new ≡ names.old) }
    ensures states { OnErr result (states.new ≡ states.old) }
    ensures same { handle.new.machine ≡ handle.old.machine }
{
    let taken = mem::replace(handle, MachineHandle::empty());
    match taken.into_box(alloc) {
        Some(boxed) => {
            let result = tell_names_of(alloc, boxed.as_ref(), rows, names, states);
            hold(alloc, handle, boxed);
            result
        }
        None => Err(MachineFault::Closed),
    }
}

// Puts the variables of a machine into rows, and their names and those of the states of its chart into buffers.
fn tell_names_of(
    alloc: Global,
    machine: &Machine,
    rows: &mut [VariableRow],
    names: &mut [u8],
    states: &mut [u8],
) -> Result<(), MachineFault>
    ensures told { OnOk result (TellNames rows.new names.new states.new machine.now) }
    ensures asked { OnOk result (HaveRoom rows.old names.old states.old machine.now) }
    ensures lacks { IfErr result (LacksOrMemory (HaveRoom rows.old names.old states.old machine.now) fault.Room) }
    ensures rows { OnErr result (rows.new ≡ rows.old) }
    ensures names { OnErr result (names.new ≡ names.old) }
    ensures states { OnErr result (states.new ≡ states.old) }
{
    let variables = machine.opened().verified().image().program().variables();
    let bytes = names_of(alloc, variables)?;
    let paths = machine.opened().states().names(alloc)?;
    if rows.len() != variables.len() || bytes.len() > names.len() || paths.len() > states.len() {
        return Err(MachineFault::Room);
    }
    put_rows(variables, rows);
    put_all(&bytes, names);
    put_all(&paths, states);
    Ok(())
}
