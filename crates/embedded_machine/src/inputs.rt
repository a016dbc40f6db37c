//! Inputs in cells.

ghost use Rattle.std.specs.Prelude.{◌≡◌, ◌+◌, ◌≤◌, ◌++◌, [], IfErr, IfOk, OnOk, false, length, take, true};
ghost use Rattle.embedded_machine.specs.Cells.{inputs_in, value_in, with_input};
ghost use Rattle.embedded_machine.specs.Inside.{count_input, count_inputs};
ghost use Rattle.embedded_machine.specs.Refusals.{give_inputs, may_give};
ghost use Rattle.embedded_machine.specs.declared.fault.MachineFault.TheVariants as fault;

use crate::cells::value_in;
use crate::fault::MachineFault;
use sc_graph::{Role, Variable};
use sqlite_items::Items;
use std::alloc::{AllocError, Global};
use tick_core::Inputs;

/// A place for each of the inputs among variables. Err: memory was refused.
pub(crate) fn room_for_inputs(alloc: Global, variables: &[Variable]) -> Result<Inputs, AllocError>
    ensures { IfOk result (λ inputs. length inputs ≡ count_inputs variables.now) }
{
    let mut inputs = Items::new(alloc);
    for variable in variables {
        match variable.role {
            Role::Input => inputs.push((variable.name, variable.kind.initial()))?,
            Role::Output | Role::Local => {}
        }
    }
    Ok(inputs)
}

/// Makes inputs, of which there are as many, those that these cells give, one cell for each variable; what is no input
/// gives nothing, whatever its cell holds. It takes no memory. Err: there are not as many cells, or one of an input
/// holds no value of its kind.
#[tactic(auto, using(crate::proofs::Uneven::uneven_cells))]
pub(crate) fn give_all(
    inputs: &mut Inputs,
    variables: &[Variable],
    cells: &[i32],
) -> Result<(), MachineFault>
    requires { length inputs.old ≡ count_inputs variables.now }
    ensures length { length inputs.new ≡ length inputs.old }
    ensures inputs { OnOk result (inputs.new ≡ inputs_in variables.now cells.now) }
    ensures given { OnOk result (give_inputs variables.now cells.now ≡ true) }
    ensures lacks { IfErr result (λ told. (told ≡ fault.Input) × (give_inputs variables.now cells.now ≡ false)) }
{
    if variables.len() != cells.len() {
        return Err(MachineFault::Input);
    }
    let mut given = 0;
    for at in 0..variables.len() {
        given = give(inputs, given, &variables[at], cells[at])?;
    }
    Ok(())
}

// Gives what the cell of a variable holds, behind so many inputs that were given; how many are given then.
fn give(
    inputs: &mut Inputs,
    given: usize,
    variable: &Variable,
    cell: i32,
) -> Result<usize, MachineFault>
    requires { given + count_input variable.now.role ≤ length inputs.old }
    ensures length { length inputs.new ≡ length inputs.old }
    ensures count { IfOk result (λ n. n ≡ given + count_input variable.now.role) }
    ensures inputs { IfOk result (λ n. take n inputs.new ≡ take given inputs.old
        ++ with_input variable.now variable.now.role (value_in variable.now.kind cell) []) }
    ensures given { OnOk result (may_give variable.now.role (value_in variable.now.kind cell) ≡ true) }
    ensures lacks { IfErr result (λ told. (told ≡ fault.Input)
        × (may_give variable.now.role (value_in variable.now.kind cell) ≡ false)) }
{
    match variable.role {
        Role::Input => match value_in(variable.kind, cell) {
            Some(value) => {
                let places = inputs.len();
                prove!(given < places);
                inputs.set(given, (variable.name, value));
                Ok(given + 1)
            }
            None => Err(MachineFault::Input),
        },
        Role::Output | Role::Local => Ok(given),
    }
}
