//! The variables of a program as rows, and their names as bytes.

ghost use Rattle.std.specs.Prelude.{◌≡◌, IfOk, length, map};
ghost use Rattle.embedded_machine.specs.Opened.{ended_by_zero};
ghost use Rattle.embedded_machine.specs.Rows.{row_of, kind_cell, role_cell};

use sc_graph::{Role, Variable};
use sc_values::Kind;
use std::alloc::{AllocError, Global};

/// A variable: 0 is a truth value and 1 an integer; 0 is an input, 1 an output, 2 a local variable; and how many bytes
/// its name has.
#[repr(C)]
#[derive(Clone, Copy, PartialEq, Eq)]
pub struct VariableRow {
    pub kind: u32,
    pub role: u32,
    pub name_length: u32,
}

fn kind_cell(kind: Kind) -> u32
    ensures { result ≡ kind_cell kind }
{
    match kind {
        Kind::Bool => 0,
        Kind::Int => 1,
    }
}

fn role_cell(role: Role) -> u32
    ensures { result ≡ role_cell role }
{
    match role {
        Role::Input => 0,
        Role::Output => 1,
        Role::Local => 2,
    }
}

fn row_of(variable: &Variable) -> VariableRow
    ensures { result ≡ row_of variable.now }
{
    VariableRow {
        kind: kind_cell(variable.kind),
        role: role_cell(variable.role),
        name_length: variable.name.as_bytes().len() as u32,
    }
}

/// The rows of variables.
pub fn put_rows(variables: &[Variable], rows: &mut [VariableRow])
    requires { length rows.old ≡ length variables.now }
    ensures { rows.new ≡ map row_of variables.now }
{
    for at in 0..variables.len() {
        rows[at] = row_of(&variables[at]);
    }
}

/// The bytes of the names of variables, a zero byte behind each.
pub fn names_of(alloc: Global, variables: &[Variable]) -> Result<Vec<u8>, AllocError>
    ensures { IfOk result (λ bytes. bytes.items ≡ ended_by_zero (map (λ x. x.name) variables.now)) }
{
    let mut bytes = Vec::new(alloc);
    for variable in variables {
        bytes.extend_from_slice(variable.name.as_bytes())?;
        bytes.push(0)?;
    }
    Ok(bytes)
}
