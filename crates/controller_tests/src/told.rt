//! What is said of a difference.

ghost use Rattle.std.specs.Prelude.{IfOk, option_map, string_bytes};
ghost use Rattle.controller_tests.specs.Difference.{got_line, wanted_line};
ghost use Rattle.controller_tests.specs.Told.{IsToldOf, Tells};

use crate::difference::Difference;
use crate::members::lines_told;
use crate::shown::shown_line;
use std::alloc::{AllocError, Global};

// What is said of a line that is wanted and one that is there.
fn words_for(alloc: Global, difference: &Difference) -> Result<String, AllocError>
    ensures { IfOk result (λ words. Tells (wanted_line difference.now) (got_line difference.now) (string_bytes words)) }
{
    match &difference.wanted {
        None => String::from_str(alloc, "no more is wanted"),
        Some(wanted) => match &difference.got {
            None => String::from_str(alloc, "the trace has ended before"),
            Some(got) => lines_told(alloc, wanted, got),
        },
    }
}

/// What is said of a difference to the trace in the file of this name: `NAME:LINE: ` and what differs, and behind that
/// both lines.
pub fn difference_told(
    alloc: Global,
    name: &str,
    difference: &Difference,
) -> Result<String, AllocError>
    ensures { IfOk result (λ told. IsToldOf name.now difference.now (string_bytes told)) }
{
    let line = difference.line;
    let words = words_for(alloc, difference)?;
    let wanted = shown_line(alloc, difference.wanted.as_deref())?;
    let got = shown_line(alloc, difference.got.as_deref())?;
    format!(in alloc; "{name}:{line}: tick {line}: {words}\n  wanted {wanted}\n  got    {got}\n")
}
