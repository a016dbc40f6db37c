//! The kinds of the variables, and of what a code gives.

ghost use Rattle.std.specs.Prelude.{◌≡◌, IfOk, MatchOption, Some};
ghost use Rattle.sc_values.specs.Code.{code_kind, IsWellFormed};
ghost use Rattle.sc_graph.specs.Program.{kinds};

use sc_graph::Program;
use sc_values::{CheckedCode, Code, Kind};
use sqlite_items::Items;
use std::alloc::{AllocError, Global};

/// The kinds of the variables.
pub(crate) fn kinds_of(alloc: Global, program: &Program) -> Result<Items<Kind>, AllocError>
    ensures { IfOk result (λ list. list ≡ kinds program.now) }
{
    Ok(Items::from_vec(collected_kinds(alloc, program)?))
}

fn collected_kinds(alloc: Global, program: &Program) -> Result<Vec<Kind>, AllocError>
    ensures { IfOk result (λ v. v.items ≡ kinds program.now) }
{
    program
        .variables()
        .iter()
        .map(|variable| variable.kind)
        .collect(alloc)
}

/// The kind of what a code gives, over the kinds of the variables. None: it is not well formed.
pub(crate) fn kind_given(program: &Program, known: &[Kind], code: &Code) -> Option<Kind>
    requires { known.now ≡ kinds program.now }
    ensures { MatchOption result (¬ IsWellFormed (kinds program.now) code.now)
        (λ k. IsWellFormed (kinds program.now) code.now × (code_kind code.now (kinds program.now) ≡ Some k)) }
{
    match CheckedCode::test(code, known) {
        Some(checked) => Some(checked.kind()),
        None => None,
    }
}
