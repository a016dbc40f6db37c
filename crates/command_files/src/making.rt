//! Whether a text makes a program of nodes.

ghost use Rattle.std.specs.Prelude.{IfOk, MatchBool};
ghost use Rattle.command_files.specs.Making.{IsUnmade};
ghost use Rattle.compiler.specs.Graphs.{Makes};

use compiler::graph_of_text;
use sc_graph::{Program, are_same};
use std::alloc::{AllocError, Global};

/// Whether a text makes this program: it spells an SCL program, or a chart that has one, whose graph this is. Err:
/// memory was refused.
#[tactic(auto, using(crate::proofs::Made::other_made))]
pub fn makes_program(alloc: Global, text: &str, program: &Program) -> Result<bool, AllocError>
    ensures { IfOk result (λ made. MatchBool made (Makes text.now program.now) (IsUnmade text.now program.now)) }
{
    match graph_of_text(alloc, text)? {
        Some(graph) => Ok(are_same(&graph, program)),
        None => Ok(false),
    }
}
