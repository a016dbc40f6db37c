//! Rows that are the same at the start of each tick: the kinds of the variables, and no claims.

ghost use Rattle.std.specs.Prelude.{◌≡◌, IfOk, None, map};
ghost use Rattle.sc_graph.specs.Program.{kinds};

use crate::kept_claim::KeptClaim;
use sc_graph::Program;
use sc_values::Kind;
use std::alloc::{AllocError, Global};

/// The kinds of all variables.
pub(crate) fn kinds_of(alloc: Global, program: &Program) -> Result<Vec<Kind>, AllocError>
    ensures { IfOk result (λ found. found.items ≡ kinds program.now) }
{
    let mut found = Vec::with_capacity(alloc, program.variables().len())?;
    for variable in program.variables() {
        found.push(variable.kind)?;
    }
    Ok(found)
}

/// No claim of any thread.
pub(crate) fn no_claims(
    alloc: Global,
    program: &Program,
) -> Result<Vec<Option<KeptClaim>>, AllocError>
    ensures { IfOk result (λ claims. claims.items ≡ map (λ _. None) program.now.threads) }
{
    let mut claims = Vec::with_capacity(alloc, program.threads().len())?;
    for _thread in program.threads() {
        claims.push(None)?;
    }
    Ok(claims)
}
