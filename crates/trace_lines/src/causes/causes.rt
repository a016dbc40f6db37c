//! Why a line gives no inputs.

ghost use Rattle.std.specs.Prelude.{IfOk, IfSome};
ghost use Rattle.trace_lines.specs.Cause.{IsCause};

use crate::causes::cause::Cause;
use crate::causes::members::lacking;
use crate::{LINE_LIMIT, LineFault, object_of};
use sc_graph::Variable;
use std::alloc::{AllocError, Global};

/// Why this line gives no inputs among these variables. None: it is an object, and each of its members gives something.
/// Err: memory was refused.
#[tactic(auto, using(crate::proofs::Lacking::lacking_is))]
pub fn cause_of(
    alloc: Global,
    variables: &[Variable],
    line: &[u8],
) -> Result<Option<Cause>, AllocError>
    ensures { IfOk result (λ cause. IfSome cause (IsCause variables.now line.now)) }
{
    if line.len() > LINE_LIMIT {
        return Ok(Some(Cause::TooLong));
    }
    match object_of(alloc, line) {
        Ok(members) => lacking(alloc, variables, &members),
        Err(LineFault::Memory) => Err(AllocError),
        Err(LineFault::NotJson) => Ok(Some(Cause::NoObject)),
        // inputs are not looked for yet
        Err(LineFault::Input) => unreachable!(),
    }
}
