//! A source text that is read once: for its SCL program, and for all that is to be told of it.

ghost use Rattle.std.specs.Prelude.{◌≡◌, IfErr, IfOk, IfSome};
ghost use Rattle.scl_graph.specs.Answers.{IsGraph};
ghost use Rattle.compiler.specs.Kept.{Keeps};
ghost use Rattle.compiler.specs.Programs.{LacksProgram, SpellsProgram};

use crate::LinkedProgram;
use crate::sources::fault::SourceFault;
use crate::sources::reading::{ReadText, read_in_language};
use scl::Scl;
use sqlite_items::Boxed;
use std::alloc::Global;
use std::marker::Model;

/// A source text that was read, with its SCL program, and the graph of that where it was made and has no image.
/// Contracts see the text and the SCL program.
#[derive(Drop)]
pub struct ReadSource<'a> {
    text: &'a str,
    scl: Scl,
    reading: ReadText,
    graph: Option<Boxed<LinkedProgram>>,
}

impl<'a> Model for ReadSource<'a> {
    ghost use Rattle.std.specs.Coded.{codes};
    ghost use Rattle.scl.specs.contracts.statement.Statement as statement;
    ghost use Rattle.compiler.specs.Kept.{IsKept, Source};

    ghost Value = { Source };

    ghost coded = { Prim.hlevel (codes, statement.the_row.coded) };

    ghost view = { λ s. record { text = s.text.now; scl = s.scl } };

    ghost invariant = { λ s. IsKept s.text.now s.scl s.reading s.graph };
}

/// A source text as it is read in the language that its first token tells, in a box. Err: the first fault of the text,
/// or E07 where the expansion of its chart passes a limit; or memory was refused.
#[tactic(auto, using(crate::proofs::Spelling::spells, crate::proofs::Spelling::no_room))]
pub fn read_source<'a>(alloc: Global, text: &'a str) -> Result<Boxed<ReadSource<'a>>, SourceFault>
    ensures text { IfOk result (λ source. source.text ≡ text.now) }
    ensures spells { IfOk result (λ source. SpellsProgram text.now source.scl) }
    ensures fault { IfErr result (LacksProgram text.now) }
{
    let (reading, scl) = read_in_language(alloc, text)?;
    let graph = None;
    Ok(Boxed::new(
        alloc,
        ReadSource {
            text,
            scl,
            reading,
            graph,
        },
    )?)
}

impl<'a> ReadSource<'a> {
    /// The text.
    pub fn text(&self) -> &'a str
        ensures { result.now ≡ self.now.text }
    {
        self.text
    }

    /// Its SCL program.
    pub fn scl(&self) -> &Scl
        ensures { result.now ≡ self.now.scl }
    {
        &self.scl
    }

    /// Its SCL program; what else was read is let go.
    pub fn into_scl(self) -> Scl
        ensures { result ≡ self.entry.scl }
    {
        let ReadSource {
            text: _,
            scl,
            reading: _,
            graph: _,
        } = self;
        scl
    }

    /// What it was read into.
    pub fn reading(&self) -> &ReadText
        ensures { Keeps self.now.text self.now.scl result.now }
    {
        &self.reading
    }

    /// The graph of its SCL program, where it was made for an image and there is none.
    pub fn graph(&self) -> Option<&LinkedProgram>
        ensures { IfSome result (λ graph. IsGraph self.now.scl graph.now) }
    {
        match &self.graph {
            Some(graph) => Some(graph.get()),
            None => None,
        }
    }

    /// The same with this graph of its SCL program. None: memory was refused.
    pub(crate) fn with_graph(
        self,
        alloc: Global,
        graph: Boxed<LinkedProgram>,
    ) -> Option<Boxed<ReadSource<'a>>>
        requires { IsGraph self.scl graph }
        ensures { IfSome result (λ same. same ≡ self.entry) }
    {
        let ReadSource {
            text,
            scl,
            reading,
            graph: _,
        } = self;
        let graph = Some(graph);
        let source = ReadSource {
            text,
            scl,
            reading,
            graph,
        };
        match Boxed::new(alloc, source) {
            Ok(source) => Some(source),
            Err(_) => None,
        }
    }
}
