//! From an SCL program to its image.

ghost use Rattle.std.specs.Prelude.{IfErr, IfOk};
ghost use Rattle.compiler.specs.Texts.{IsImageOf, SclLacksImage};
ghost use Rattle.scl_graph.specs.Answers.{IsGraph, LacksGraph};

use crate::fault::CompileFault;
use crate::linked::LinkedProgram;
use sc_graph::Links;
use scl::Scl;
use scl_graph::{GraphFault, graph_of};
use std::alloc::Global;
use verifier::Verified;

/// The valid image of an SCL program: that of its graph, with the least tables. Err: the first that holds of
/// these: the program has no graph (E14, E07), two nodes conflict (E11), flow within one tick closes (E13),
/// instantaneous and protocol edges close (E12); or memory was refused. It never says that a rule is broken.
#[tactic(auto, using(crate::proofs::Texts::image_of_graph, crate::proofs::Texts::graph_refused))]
pub fn compile_scl(alloc: Global, scl: &Scl) -> Result<Verified, CompileFault>
    ensures compiled { IfOk result (IsImageOf scl.now) }
    ensures refused { IfErr result (SclLacksImage scl.now) }
{
    let graph = match graph_of_scl(alloc, scl) {
        Ok(graph) => graph,
        Err(fault) => return Err(CompileFault::Graph(fault)),
    };
    let tables = graph.tables(alloc)?;
    graph.into_image(alloc, tables)
}

/// The graph of an SCL program, with its links. Err: it has none (E14, E07); or memory was refused.
#[tactic(auto, using(crate::proofs::Texts::graph_formed))]
pub fn graph_of_scl(alloc: Global, scl: &Scl) -> Result<LinkedProgram, GraphFault>
    ensures graph { IfOk result (IsGraph scl.now) }
    ensures refused { IfErr result (LacksGraph scl.now) }
{
    let program = graph_of(alloc, scl)?;
    let links = Links::of(alloc, &program)?;
    if !program.formed_with(&links) {
        // the graph of a program is formed, by its law
        unreachable!();
    }
    Ok(LinkedProgram::known(program, links))
}
