//! The program of a draft.

ghost use Rattle.std.specs.Prelude.{◌≡◌, [], IfOk};
ghost use Rattle.scl_reader.specs.Flaws.{scl_flaws};
ghost use Rattle.scl_reader.specs.Shape.{IsShaped};
ghost use Rattle.scl_reader.specs.Resolved.{IsProgramOf};

use crate::statements::statements;
use crate::text_drafts::Draft;
use sc_text::{Scope, variables};
use scl::Scl;
use std::alloc::{AllocError, Global};

/// The program of a draft of the grammar, in which nothing is wrong. Err: memory was refused.
#[tactic(auto, using(crate::proofs::SclRulesKept::few_declared, crate::proofs::SclRulesKept::parts_kept, crate::proofs::SclRulesKept::parts_are))]
pub fn program_of(alloc: Global, draft: &Draft) -> Result<Scl, AllocError>
    requires flawless { scl_flaws draft.now ≡ [] }
    requires shaped { IsShaped draft.now }
    ensures { IfOk result (IsProgramOf draft.now) }
{
    let variables = variables(alloc, draft.declarations.as_slice())?;
    let scope = Scope::of(alloc, draft.declarations.as_slice())?;
    let body = statements(alloc, &scope, draft.statements.as_slice())?;
    Ok(Scl::known(draft.name, variables, body))
}
