//! Why a line of an input that was read gives no inputs.

ghost use Rattle.std.specs.Prelude.{◌≡◌, IfSome};
ghost use Rattle.trace_lines.specs.Cause.{IsCause};
ghost use Rattle.trace_lines.specs.Met.{IsMetOn};

use crate::causes::cause::Cause;
use crate::causes::causes::cause_of;
use crate::causes::line::Line;
use crate::causes::recent::{OfInput, Recent};
use sc_graph::Variable;
use sc_values::Source;
use std::alloc::Global;

// Why a line gives no inputs, where there is memory to tell it.
fn met_in(alloc: Global, variables: &[Variable], line: &[u8]) -> Option<Cause>
    ensures { IfSome result (IsCause variables.now line.now) }
{
    match cause_of(alloc, variables, line) {
        Ok(cause) => cause,
        Err(_) => None,
    }
}

/// Why the line of this number gives no inputs among these variables. None: it gives some, or it is not kept, or memory
/// was refused.
pub fn cause_on<S: Source, N: OfInput>(
    alloc: Global,
    variables: &[Variable],
    recent: &Recent<'_, S, N>,
    number: u64,
) -> Option<Cause>
    ensures { IfSome result (IsMetOn variables.now N.start number) }
{
    match recent.line(number) {
        Line::Whole(line) => met_in(alloc, variables, line),
        Line::Long => Some(Cause::TooLong),
        Line::Lost => None,
    }
}
