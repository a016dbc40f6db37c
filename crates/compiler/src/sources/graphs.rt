//! The program of nodes that a source text makes.

ghost use Rattle.std.specs.Prelude.{◌≡◌, IfOk, MatchOption};
ghost use Rattle.scl_graph.specs.Answers.{IsGraph};
ghost use Rattle.compiler.specs.Graphs.{IsGraphless, Makes, MakesNone, SpellsGraphless};

use crate::sources::source::{ReadSource, read_source};
use sc_graph::Program;
use scl::Scl;
use scl_graph::{GraphFault, graph_of};
use std::alloc::{AllocError, Global};

// The graph of an SCL program. None: it has none. Err: memory was refused.
#[tactic(auto, using(crate::proofs::Making::looping, crate::proofs::Making::large))]
fn graph(alloc: Global, scl: &Scl) -> Result<Option<Program>, AllocError>
    ensures { IfOk result (λ found. MatchOption found (IsGraphless scl.now) (IsGraph scl.now)) }
{
    match graph_of(alloc, scl) {
        Ok(program) => Ok(Some(program)),
        Err(GraphFault::Memory) => Err(AllocError),
        Err(GraphFault::EmptyLoop(_)) => Ok(None),
        Err(GraphFault::Limit) => Ok(None),
    }
}

/// The program of nodes of a source text that was read: the graph of its SCL program. None: that has none. Err: memory
/// was refused.
#[tactic(auto, using(crate::proofs::Making::made_of))]
pub fn graph_of_source(
    alloc: Global,
    source: &ReadSource<'_>,
) -> Result<Option<Program>, AllocError>
    ensures graph { IfOk result (λ found. MatchOption found (IsGraphless source.now.scl) (IsGraph source.now.scl)) }
    ensures made { IfOk result (λ found.
        MatchOption found (SpellsGraphless source.now.text) (Makes source.now.text)) }
{
    // It tells that the text spells the program.
    let _reading = source.reading();
    graph(alloc, source.scl())
}

/// The program of nodes that a source text makes. None: it makes none. Err: memory was refused.
#[tactic(auto, using(crate::proofs::Making::made_in, crate::proofs::Making::spells_none))]
pub fn graph_of_text(alloc: Global, text: &str) -> Result<Option<Program>, AllocError>
    ensures { IfOk result (λ found. MatchOption found (MakesNone text.now) (Makes text.now)) }
{
    match read_source(alloc, text) {
        Ok(source) => graph_of_source(alloc, source.get()),
        Err(fault) => {
            fault.says_of_text()?;
            Ok(None)
        }
    }
}
