//! Numbers, names and variables at the end of bytes.

ghost use Rattle.std.specs.Prelude.{◌≡◌, ◌++◌, OnOk, IsTrue};
ghost use Rattle.sc_values.specs.Name.{is_name};
ghost use Rattle.sc_graph.specs.declared.program.Role.{Role};
ghost use Rattle.bytecode.specs.Fields.{u16_bytes, u32_bytes, role_number, kind_number};
ghost use Rattle.bytecode.specs.Fields.{combination_number, name_bytes, variable_bytes};
ghost use Rattle.bytecode.specs.Fits.{SayableVariable};

use sc_graph::{Role, Variable};
use sc_values::{Combination, Kind, Name};
use std::alloc::AllocError;

fn role_byte(role: Role) -> u8
    ensures { result ≡ role_number role }
{
    match role {
        Role::Input => 0,
        Role::Output => 1,
        Role::Local => 2,
    }
}

fn kind_byte(kind: Kind) -> u8
    ensures { result ≡ kind_number kind }
{
    match kind {
        Kind::Bool => 0,
        Kind::Int => 1,
    }
}

/// The number of a combination.
pub fn combination_byte(combine: Combination) -> u8
    ensures { result ≡ combination_number combine }
{
    match combine {
        Combination::Add => 0,
        Combination::Multiply => 1,
        Combination::Min => 2,
        Combination::Max => 3,
        Combination::And => 4,
        Combination::Or => 5,
    }
}

/// A number of two bytes, the lower one first.
#[tactic(auto, unfolding(crate::specs::Fields::u16_bytes))]
pub fn put16(out: &mut Vec<u8>, number: u16) -> Result<(), AllocError>
    ensures { OnOk result (out.new.items ≡ out.old.items ++ u16_bytes number) }
{
    let bytes: [u8; 2] = number.to_le_bytes();
    out.extend_from_slice(&bytes)
}

/// A number of four bytes, the lowest one first.
#[tactic(auto, unfolding(crate::specs::Fields::u32_bytes))]
pub fn put32(out: &mut Vec<u8>, number: u32) -> Result<(), AllocError>
    ensures { OnOk result (out.new.items ≡ out.old.items ++ u32_bytes number) }
{
    let bytes: [u8; 4] = number.to_le_bytes();
    out.extend_from_slice(&bytes)
}

#[tactic(auto, unfolding(crate::specs::Fields::name_bytes))]
fn put_name(out: &mut Vec<u8>, name: &Name) -> Result<(), AllocError>
    ensures written { OnOk result (out.new.items ≡ out.old.items ++ name_bytes name.now) }
    ensures fits { IsTrue (is_name name.now) }
{
    let text = name.as_bytes();
    out.push(text.len() as u8)?;
    out.extend_from_slice(text)
}

/// A variable: role, kind and name.
#[tactic(auto, unfolding(crate::specs::Fields::variable_bytes))]
pub fn put_variable(out: &mut Vec<u8>, variable: &Variable) -> Result<(), AllocError>
    ensures written { OnOk result (out.new.items ≡ out.old.items ++ variable_bytes variable.now) }
    ensures fits { OnOk result (SayableVariable variable.now) }
{
    out.push(role_byte(variable.role))?;
    out.push(kind_byte(variable.kind))?;
    put_name(out, &variable.name)
}
