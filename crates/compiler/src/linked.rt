//! A formed program with its links, as it is compiled.

ghost use Rattle.std.specs.Prelude.{◌≡◌, IfErr, IfOk};
ghost use Rattle.compiler.specs.Compiled.{HasTables, IsCompiled, LacksImage};
ghost use Rattle.sc_graph.specs.Links.{Tells};
ghost use Rattle.sc_graph.specs.Valid.{IsFormed};

use crate::fault::CompileFault;
use crate::from_program::{image_with, least_tables};
use sc_graph::{Links, Program, Tables};
use std::alloc::Global;
use std::marker::Model;
use verifier::Verified;

/// A formed program with its links. Contracts see the program.
#[derive(Drop)]
pub struct LinkedProgram {
    program: Program,
    links: Links,
}

impl Model for LinkedProgram {
    ghost use Rattle.sc_graph.specs.Program.{Program};
    ghost use Rattle.compiler.specs.Inside.Linked.{IsLinked};

    ghost Value = { Program };

    ghost view = { λ p. p.program };

    ghost invariant = { λ p. IsLinked p.program p.links };
}

impl LinkedProgram {
    /// A program that is known to be formed, with its links.
    pub(crate) fn known(program: Program, links: Links) -> LinkedProgram
        requires formed { IsFormed program }
        requires told { Tells program links }
        ensures { result ≡ program }
    {
        LinkedProgram { program, links }
    }

    /// The program.
    pub fn program(&self) -> &Program
        ensures value { result.now ≡ self.now }
        ensures formed { IsFormed self.now }
    {
        &self.program
    }

    /// Its links: the fork of each thread and of each join, the pause of each depth.
    pub fn links(&self) -> &Links
        ensures { Tells self.now result.now }
    {
        &self.links
    }

    /// Its least tables. Err: two of its nodes conflict (E11), flow within one tick closes (E13), or instantaneous and
    /// protocol edges close (E12); or memory was refused.
    pub fn tables(&self, alloc: Global) -> Result<Tables, CompileFault>
        ensures tables { IfOk result (HasTables self.now) }
        ensures refused { IfErr result (LacksImage self.now) }
    {
        least_tables(alloc, &self.program, &self.links)
    }

    /// Its valid image, with its least tables. Err: a code or an assignment breaks its rule (E33, E34); or memory was
    /// refused.
    pub fn into_image(self, alloc: Global, tables: Tables) -> Result<Verified, CompileFault>
        requires { HasTables self tables }
        ensures compiled { IfOk result (IsCompiled self) }
        ensures refused { IfErr result (LacksImage self) }
    {
        let LinkedProgram { program, links: _ } = self;
        image_with(alloc, program, tables)
    }
}
