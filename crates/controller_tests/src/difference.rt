//! Where a trace is not the one that is wanted.

ghost use Rattle.std.specs.Prelude.{◌≡◌, ◌↔◌, IfOk, IfSome, IfNone, IsTrue, None, option_map};
ghost use Rattle.controller_tests.specs.Difference.{AreSameLines, DifferAt, IsFirstDifference};

use crate::lines::next_line;
use std::alloc::{AllocError, Global};

/// The first line in which a trace is not the one that is wanted.
#[derive(Drop)]
pub struct Difference {
    /// The number of the line, from 1.
    pub line: u64,
    /// The line that is wanted. None: the wanted trace has ended before.
    pub wanted: Option<Vec<u8>>,
    /// The line of the trace. None: the trace has ended before.
    pub got: Option<Vec<u8>>,
}

// A line that is kept, or that there is none.
fn kept(alloc: Global, line: Option<&[u8]>) -> Result<Option<Vec<u8>>, AllocError>
    ensures { IfOk result (λ kept. option_map (λ bytes. bytes.items) kept
        ≡ option_map (λ bytes. bytes.now) line.entry) }
{
    match line {
        Some(bytes) => Ok(Some(Vec::from_slice(alloc, bytes)?)),
        None => Ok(None),
    }
}

// Whether two lines are the same, or there is none of both.
fn are_same(line: Option<&[u8]>, other: Option<&[u8]>) -> bool
    ensures { IsTrue result ↔ (option_map (λ bytes. bytes.now) line.entry
        ≡ option_map (λ bytes. bytes.now) other.entry) }
{
    match line {
        None => other.is_none(),
        Some(line) => match other {
            None => false,
            Some(other) => line == other,
        },
    }
}

// The first line in which the two differ: its number, and what it is in each.
fn first_difference<'w, 'g>(
    wanted: &'w [u8],
    got: &'g [u8],
) -> Option<(u64, Option<&'w [u8]>, Option<&'g [u8]>)>
    ensures none { IfNone result (AreSameLines wanted.now got.now) }
    ensures some { IfSome result (λ d. DifferAt wanted.now got.now d.0
        (option_map (λ bytes. bytes.now) d.1) (option_map (λ bytes. bytes.now) d.2)) }
{
    let mut ahead = wanted;
    let mut others = got;
    let mut number = 1;
    loop {
        let (line, rest) = next_line(ahead);
        let (other, behind) = next_line(others);
        if !are_same(line, other) {
            return Some((number, line, other));
        }
        if line.is_none() {
            return None;
        }
        ahead = rest;
        others = behind;
        number += 1;
    }
}

/// Compares a trace with the one that is wanted, line by line. None: they have the same lines.
#[tactic(auto, using(crate::proofs::Alike::differ_not_same))]
pub fn compare(alloc: Global, wanted: &[u8], got: &[u8]) -> Result<Option<Difference>, AllocError>
    ensures same { IfOk result (λ difference. (difference ≡ None) ↔ AreSameLines wanted.now got.now) }
    ensures differ { IfOk result (λ difference. IfSome difference (IsFirstDifference wanted.now got.now)) }
{
    match first_difference(wanted, got) {
        None => Ok(None),
        Some((line, wanted, got)) => Ok(Some(Difference {
            line,
            wanted: kept(alloc, wanted)?,
            got: kept(alloc, got)?,
        })),
    }
}
