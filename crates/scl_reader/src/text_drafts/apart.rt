//! Whether labels are all apart, told by one number of each name.

ghost use Rattle.std.specs.Prelude.{◌≡◌, IfOk, IsTrue, map};
ghost use Rattle.sc_text.proofs.Distinct.{AreFirst};
ghost use Rattle.scl_reader.specs.Inside.Apart.{AreRising, number_from, number_of};
ghost use Rattle.scl_reader.specs.Flaws.{names};

use crate::text_drafts::name_row::NameRow;
use sc_values::Name;
use std::alloc::{AllocError, Global};

const FACTOR: u64 = 11400714819323198485;

/// Whether each label is the first of its name. It may say no where all are: two names may have one number. Err: memory
/// was refused.
pub(crate) fn are_apart(alloc: Global, labels: &NameRow) -> Result<bool, AllocError>
    ensures { IfOk result (λ are_apart. IsTrue are_apart → AreFirst (names labels.now)) }
{
    let mut numbers = numbers_of(alloc, labels)?;
    numbers.sort_unstable();
    Ok(are_rising(numbers.as_slice()))
}

fn numbers_of(alloc: Global, labels: &NameRow) -> Result<Vec<u64>, AllocError>
    ensures { IfOk result (λ numbers. numbers.items ≡ map number_of (names labels.now)) }
{
    let mut numbers = Vec::with_capacity(alloc, labels.len())?;
    for at in 0..labels.len() {
        numbers.push(number_of(&labels.at(at).name))?;
    }
    Ok(numbers)
}

// The number of a name, the same of equal ones.
fn number_of(name: &Name) -> u64
    ensures { result ≡ number_of name.now }
{
    let mut number: u64 = 0;
    for byte in name.as_bytes() {
        number = number.wrapping_mul(FACTOR).wrapping_add(*byte as u64);
    }
    number
}

// Whether each number is above the one before it.
fn are_rising(numbers: &[u64]) -> bool
    ensures { IsTrue result → AreRising numbers.now }
{
    for at in 1..numbers.len() {
        if numbers[at] <= numbers[at - 1] {
            return false;
        }
    }
    true
}
