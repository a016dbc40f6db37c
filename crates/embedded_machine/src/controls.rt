//! Configurations in cells.

ghost use Rattle.std.specs.Prelude.{◌≡◌, ◌⊎◌, IfErr, IfOk, Some, false, length, map};
ghost use Rattle.std.specs.Option.{is_some};
ghost use Rattle.std.specs.List.{list_all};
ghost use Rattle.sc_graph.specs.Tick.{Rests};
ghost use Rattle.embedded_machine.specs.Cells.{HoldControl, status_cell, status_in, value_cell};
ghost use Rattle.embedded_machine.specs.Inside.{values_read};
ghost use Rattle.embedded_machine.specs.Refusals.{HoldRest, LacksOrMemory};
ghost use Rattle.embedded_machine.specs.declared.fault.MachineFault.TheVariants as fault;

use crate::cells::{status_cell, status_in, value_cell, value_in};
use crate::fault::MachineFault;
use sc_graph::{Control, Program, Status, Variable};
use sc_values::Value;
use sqlite_items::Items;
use std::alloc::Global;

/// The configuration that these cells hold, in which the program rests. Err: they hold none; or memory was refused.
#[tactic(auto, using(crate::proofs::Resting::wrong_count, crate::proofs::Resting::wrong_thread_count, crate::proofs::Resting::unread_value, crate::proofs::Resting::unread_status, crate::proofs::Resting::restless))]
pub fn control_in(
    alloc: Global,
    program: &Program,
    values: &[i32],
    statuses: &[u32],
) -> Result<Control, MachineFault>
    ensures rests { IfOk result (Rests program.now) }
    ensures held { IfOk result (HoldControl values.now statuses.now) }
    ensures lacks { IfErr result (LacksOrMemory (HoldRest values.now statuses.now program.now) fault.Control) }
{
    let threads = program.thread_count() as usize;
    if values.len() != program.variables().len() || statuses.len() != threads {
        return Err(MachineFault::Control);
    }
    let variables = values_in(alloc, program.variables(), values)?;
    let statuses = statuses_in(alloc, statuses)?;
    let control = Control {
        variables,
        statuses,
    };
    if control.fits(program) {
        Ok(control)
    } else {
        Err(MachineFault::Control)
    }
}

// The values that cells hold for variables.
fn values_in(
    alloc: Global,
    variables: &[Variable],
    cells: &[i32],
) -> Result<Items<Value>, MachineFault>
    requires { length variables.now ≡ length cells.now }
    ensures cells { IfOk result (λ values. map value_cell values ≡ cells.now) }
    ensures read { IfOk result (λ values. map (λ v. Some v) values ≡ values_read variables.now cells.now) }
    ensures lacks { IfErr result (λ told. (told ≡ fault.Memory) ⊎ ((told ≡ fault.Control)
        × (list_all is_some (values_read variables.now cells.now) ≡ false))) }
{
    let mut values = Items::new(alloc);
    for at in 0..cells.len() {
        match value_in(variables[at].kind, cells[at]) {
            Some(value) => values.push(value)?,
            None => return Err(MachineFault::Control),
        }
    }
    Ok(values)
}

// The statuses that cells hold.
fn statuses_in(alloc: Global, cells: &[u32]) -> Result<Items<Status>, MachineFault>
    ensures cells { IfOk result (λ statuses. map status_cell statuses ≡ cells.now) }
    ensures read { IfOk result (λ statuses. map (λ s. Some s) statuses ≡ map status_in cells.now) }
    ensures lacks { IfErr result (λ told. (told ≡ fault.Memory) ⊎ ((told ≡ fault.Control)
        × (list_all is_some (map status_in cells.now) ≡ false))) }
{
    let mut statuses = Items::new(alloc);
    for at in 0..cells.len() {
        match status_in(cells[at]) {
            Some(status) => statuses.push(status)?,
            None => return Err(MachineFault::Control),
        }
    }
    Ok(statuses)
}

/// Puts a configuration into cells, of which there are as many.
pub fn put_control(control: &Control, values: &mut [i32], statuses: &mut [u32])
    requires values { length values.old ≡ length control.now.variables }
    requires statuses { length statuses.old ≡ length control.now.statuses }
    ensures { HoldControl values.new statuses.new control.now }
{
    put_values(control.variables.as_slice(), values);
    put_statuses(control.statuses.as_slice(), statuses);
}

/// Puts values into cells, of which there are as many.
pub fn put_values(values: &[Value], cells: &mut [i32])
    requires { length cells.old ≡ length values.now }
    ensures { map value_cell values.now ≡ cells.new }
{
    for at in 0..values.len() {
        cells[at] = value_cell(values[at]);
    }
}

fn put_statuses(statuses: &[Status], cells: &mut [u32])
    requires { length cells.old ≡ length statuses.now }
    ensures { map status_cell statuses.now ≡ cells.new }
{
    for at in 0..statuses.len() {
        cells[at] = status_cell(statuses[at]);
    }
}
