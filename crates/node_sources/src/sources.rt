//! The program of a text with the origins of its nodes.

ghost use Rattle.std.specs.Prelude.{◌≡◌, IfOk, MatchOption};
ghost use Rattle.node_sources.specs.Sources.{AreSources};
ghost use Rattle.scl_graph.specs.Answers.{IsGraph};
ghost use Rattle.compiler.specs.Graphs.{MakesNone, SpellsGraphless};

use crate::chart_sources::origins_of_chart;
use crate::origin::Origin;
use crate::scl_sources::origins_of_scl;
use compiler::{ReadSource, ReadText, graph_of_source, read_source};
use sc_graph::Program;
use sqlite_items::Items;
use std::alloc::{AllocError, Global};

/// The program of a text, and for each of its nodes, in order, where it comes from.
#[derive(Drop)]
pub struct Sources {
    pub program: Program,
    pub origins: Items<Origin>,
}

/// The origins of the nodes of the graph of a text that was read. Err: memory was refused.
#[tactic(auto, using(crate::proofs::LanguagesTold::chart_kept, crate::proofs::LanguagesTold::draft_kept, crate::proofs::LanguagesTold::chart_told, crate::proofs::LanguagesTold::scl_told))]
pub fn origins_in(
    alloc: Global,
    source: &ReadSource<'_>,
    program: &Program,
) -> Result<Items<Origin>, AllocError>
    requires { IsGraph source.now.scl program.now }
    ensures { IfOk result (AreSources source.now.text program.now) }
{
    match source.reading() {
        ReadText::Chart(kept) => {
            origins_of_chart(alloc, source.text(), kept, source.scl(), program)
        }
        ReadText::Scl(draft) => origins_of_scl(alloc, source.text(), draft, source.scl()),
    }
}

/// The program of a text that was read, with the origins of its nodes. None: its SCL program has no graph. Err: memory
/// was refused.
pub fn sources_in(alloc: Global, source: &ReadSource<'_>) -> Result<Option<Sources>, AllocError>
    ensures { IfOk result (λ found. MatchOption found (SpellsGraphless source.now.text)
        (λ s. AreSources source.now.text s.program s.origins)) }
{
    let Some(program) = graph_of_source(alloc, source)? else {
        return Ok(None);
    };
    match origins_in(alloc, source, &program) {
        Ok(origins) => Ok(Some(Sources { program, origins })),
        Err(error) => {
            drop(program);
            Err(error)
        }
    }
}

/// The program of a text with the origins of its nodes. None: the text makes no program. Err: memory was refused.
#[tactic(auto, using(crate::proofs::LanguagesTold::sources_told, compiler::proofs::Making::spells_none))]
pub fn sources_of(alloc: Global, text: &str) -> Result<Option<Sources>, AllocError>
    ensures { IfOk result (λ found. MatchOption found (MakesNone text.now)
        (λ s. AreSources text.now s.program s.origins)) }
{
    match read_source(alloc, text) {
        Ok(source) => sources_in(alloc, source.get()),
        Err(fault) => {
            fault.says_of_text()?;
            Ok(None)
        }
    }
}
