//! Numbers, choices, names and variables at the front of bytes.

ghost use Rattle.std.specs.Prelude.{◌≤◌, IfOk};
ghost use Rattle.std.specs.Int.{w16, w32};
ghost use Rattle.bytecode.specs.Inside.Readers.{GivesExactly};
ghost use Rattle.bytecode.specs.Reading.Fields.{bytes_at, byte_at, number_at, choice_at};
ghost use Rattle.bytecode.specs.Reading.Fields.{length_at, name_at, variable_at};

use crate::fault::DecodeFault;
use sc_graph::{Role, Variable};
use sc_values::{Combination, Kind, NAME_LIMIT, Name};

/// What an end bit or a Bool literal can be, by its number.
pub const FLAGS: [bool; 2] = [false, true];

const ROLES: [Role; 3] = [Role::Input, Role::Output, Role::Local];

const KINDS: [Kind; 2] = [Kind::Bool, Kind::Int];

/// The combinations, by their numbers.
pub const COMBINATIONS: [Combination; 6] = [
    Combination::Add,
    Combination::Multiply,
    Combination::Min,
    Combination::Max,
    Combination::And,
    Combination::Or,
];

/// So many bytes, and those after them.
#[tactic(auto, unfolding(crate::specs::Reading::Fields::bytes_at))]
pub fn front(bytes: &[u8], count: usize) -> Result<(&[u8], &[u8]), DecodeFault>
    ensures { GivesExactly (λ x. (x.0.now, x.1.now)) result (bytes_at count bytes.now) }
{
    if bytes.len() < count {
        return Err(DecodeFault::Short);
    }
    Ok(bytes.split_at(count))
}

/// One byte, and those after it.
#[tactic(auto, unfolding(crate::specs::Reading::Fields::byte_at))]
pub fn byte(bytes: &[u8]) -> Result<(u8, &[u8]), DecodeFault>
    ensures { GivesExactly (λ x. (x.0, x.1.now)) result (byte_at bytes.now) }
{
    match bytes {
        [] => Err(DecodeFault::Short),
        [byte, rest @ ..] => Ok((*byte, rest)),
    }
}

/// A number of two bytes, the lower one first.
#[tactic(auto, unfolding(crate::specs::Reading::Fields::number_at, crate::specs::Reading::Fields::bytes_at))]
pub fn number16(bytes: &[u8]) -> Result<(u16, &[u8]), DecodeFault>
    ensures { GivesExactly (λ x. (x.0, x.1.now)) result (number_at w16 bytes.now) }
{
    if bytes.len() < 2 {
        return Err(DecodeFault::Short);
    }
    let (front, rest) = bytes.split_at(2);
    let number = u16::from_le_bytes([front[0], front[1]]);
    Ok((number, rest))
}

/// A number of four bytes, the lowest one first.
#[tactic(auto, unfolding(crate::specs::Reading::Fields::number_at, crate::specs::Reading::Fields::bytes_at))]
pub fn number32(bytes: &[u8]) -> Result<(u32, &[u8]), DecodeFault>
    ensures { GivesExactly (λ x. (x.0, x.1.now)) result (number_at w32 bytes.now) }
{
    if bytes.len() < 4 {
        return Err(DecodeFault::Short);
    }
    let (front, rest) = bytes.split_at(4);
    let number = u32::from_le_bytes([front[0], front[1], front[2], front[3]]);
    Ok((number, rest))
}

/// The choice whose place among the choices is the first byte.
#[tactic(auto, unfolding(crate::specs::Reading::Fields::choice_at))]
pub fn choice<'b, T: Copy>(choices: &[T], bytes: &'b [u8]) -> Result<(T, &'b [u8]), DecodeFault>
    ensures { GivesExactly (λ x. (x.0, x.1.now)) result (choice_at choices.now bytes.now) }
{
    let (number, rest) = byte(bytes)?;
    match choices.get(number as usize) {
        Some(choice) => Ok((*choice, rest)),
        None => Err(DecodeFault::Field(bytes.len())),
    }
}

/// A length between two bounds.
#[tactic(auto, unfolding(crate::specs::Reading::Fields::length_at))]
pub fn length(least: u8, most: u8, bytes: &[u8]) -> Result<(u8, &[u8]), DecodeFault>
    ensures gives { GivesExactly (λ x. (x.0, x.1.now)) result (length_at least most bytes.now) }
    ensures bounds { IfOk result (λ x. (least ≤ x.0) × (x.0 ≤ most)) }
{
    let (length, rest) = byte(bytes)?;
    if least <= length && length <= most {
        Ok((length, rest))
    } else {
        Err(DecodeFault::Field(bytes.len()))
    }
}

#[tactic(auto, unfolding(crate::specs::Reading::Fields::name_at, crate::specs::Reading::Fields::name_of))]
fn name(bytes: &[u8]) -> Result<(Name, &[u8]), DecodeFault>
    ensures { GivesExactly (λ x. (x.0, x.1.now)) result (name_at bytes.now) }
{
    let (length, rest) = length(1, NAME_LIMIT as u8, bytes)?;
    let (text, after) = front(rest, length as usize)?;
    match Name::from_bytes(text) {
        Some(name) => Ok((name, after)),
        None => Err(DecodeFault::Field(rest.len())),
    }
}

/// A variable: role, kind and name.
#[tactic(auto, unfolding(crate::specs::Reading::Fields::variable_at))]
pub fn variable(bytes: &[u8]) -> Result<(Variable, &[u8]), DecodeFault>
    ensures { GivesExactly (λ x. (x.0, x.1.now)) result (variable_at bytes.now) }
{
    let (role, rest) = choice(&ROLES, bytes)?;
    let (kind, rest) = choice(&KINDS, rest)?;
    match name(rest) {
        Ok((name, rest)) => Ok((Variable { name, kind, role }, rest)),
        Err(fault) => Err(fault),
    }
}
