//! The image of the program of a source text, or why it has none, with the text as it was read.

ghost use Rattle.std.specs.Prelude.{◌≡◌, IfErr, IfOk, IfSome};
ghost use Rattle.compiler.specs.Texts.{IsImageOf, SclLacksImage};
ghost use Rattle.scl_graph.specs.Answers.{IsGraph, LacksGraph};

use crate::sources::source::ReadSource;
use crate::{CompileFault, LinkedProgram, graph_of_scl};
use scl::Scl;
use scl_graph::GraphFault;
use sqlite_items::Boxed;
use std::alloc::Global;
use verifier::Verified;

/// Why the SCL program of a source text has no image; and the text as it was read, with the graph of its program where
/// it has one. No text: memory was refused, and the fault says so.
#[derive(Drop)]
pub struct Uncompiled<'a> {
    pub fault: CompileFault,
    pub source: Option<Boxed<ReadSource<'a>>>,
}

// Why an SCL program has no image, and its graph where it has one.
#[derive(Drop)]
struct Refused {
    fault: CompileFault,
    graph: Option<Boxed<LinkedProgram>>,
}

// The graph of an SCL program.
fn graph_in_box(alloc: Global, scl: &Scl) -> Result<Boxed<LinkedProgram>, GraphFault>
    ensures graph { IfOk result (IsGraph scl.now) }
    ensures refused { IfErr result (LacksGraph scl.now) }
{
    let graph = graph_of_scl(alloc, scl)?;
    Ok(Boxed::new(alloc, graph)?)
}

// The image of the graph of an SCL program.
#[tactic(auto, using(crate::proofs::Texts::image_of_graph, crate::proofs::Texts::graph_refused))]
fn image_of(alloc: Global, scl: &Scl, graph: Boxed<LinkedProgram>) -> Result<Verified, Refused>
    requires { IsGraph scl.now graph }
    ensures compiled { IfOk result (IsImageOf scl.now) }
    ensures refused { IfErr result (λ refused. SclLacksImage scl.now refused.fault) }
    ensures graph { IfErr result (λ refused. IfSome refused.graph (IsGraph scl.now)) }
{
    let tables = match graph.get().tables(alloc) {
        Ok(tables) => tables,
        Err(fault) => {
            let graph = Some(graph);
            return Err(Refused { fault, graph });
        }
    };
    match graph.into_inner().into_image(alloc, tables) {
        Ok(image) => Ok(image),
        Err(fault) => Err(Refused { fault, graph: None }),
    }
}

// The image of an SCL program.
fn compiled(alloc: Global, scl: &Scl) -> Result<Verified, Refused>
    ensures compiled { IfOk result (IsImageOf scl.now) }
    ensures refused { IfErr result (λ refused. SclLacksImage scl.now refused.fault) }
    ensures graph { IfErr result (λ refused. IfSome refused.graph (IsGraph scl.now)) }
{
    match graph_in_box(alloc, scl) {
        Ok(graph) => image_of(alloc, scl, graph),
        Err(fault) => Err(Refused {
            fault: CompileFault::Graph(fault),
            graph: None,
        }),
    }
}

// The text as it was read, with the graph of its program where it has one. None: memory was refused.
fn with_graph<'a>(
    alloc: Global,
    source: Boxed<ReadSource<'a>>,
    graph: Option<Boxed<LinkedProgram>>,
) -> Option<Boxed<ReadSource<'a>>>
    requires { IfSome graph (IsGraph source.scl) }
    ensures { IfSome result (λ same. same ≡ source.entry) }
{
    match graph {
        Some(graph) => source.into_inner().with_graph(alloc, graph),
        None => Some(source),
    }
}

/// The valid image of the SCL program of a source text. Err: why it has none, and the text as it was read, with the
/// graph that was made; or memory was refused.
pub fn compile_source<'a>(
    alloc: Global,
    source: Boxed<ReadSource<'a>>,
) -> Result<Verified, Uncompiled<'a>>
    ensures compiled { IfOk result (IsImageOf source.entry.scl) }
    ensures refused { IfErr result (λ uncompiled. SclLacksImage source.entry.scl uncompiled.fault) }
    ensures same { IfErr result (λ uncompiled. IfSome uncompiled.source (λ same. same ≡ source.entry)) }
{
    match compiled(alloc, source.get().scl()) {
        Ok(image) => Ok(image),
        Err(refused) => {
            let Refused { fault, graph } = refused;
            match with_graph(alloc, source, graph) {
                Some(source) => Err(Uncompiled {
                    fault,
                    source: Some(source),
                }),
                None => Err(Uncompiled {
                    fault: CompileFault::Graph(GraphFault::Memory),
                    source: None,
                }),
            }
        }
    }
}
