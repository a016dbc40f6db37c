//! A table of the concurrent threads of a program.

ghost use Rattle.std.specs.Prelude.{◌≡◌, ◌↔◌, IsTrue, IfOk};
ghost use Rattle.sc_graph.specs.Threads.{AreConcurrent};
ghost use Rattle.sc_graph.specs.Valid.{IsFormed};

use crate::links::Links;
use crate::program::{Program, ThreadId};
use std::alloc::{AllocError, Global};
use std::marker::Model;

/// Which threads of a formed program are concurrent, by its links, which are found once. Contracts
/// see the program.
#[derive(Drop)]
pub struct ConcurrentThreads<'a> {
    program: &'a Program,
    links: Links,
}

impl<'a> Model for ConcurrentThreads<'a> {
    ghost use Rattle.sc_graph.specs.Program.{Program};
    ghost use Rattle.sc_graph.specs.Inside.Linking.{LinksFormed};

    ghost Value = { Program };

    ghost view = { λ c. c.program.now };

    ghost invariant = { λ c. LinksFormed c.program.now c.links };
}

impl<'a> ConcurrentThreads<'a> {
    /// Those of a formed program. Err: memory was refused.
    pub fn of(alloc: Global, program: &'a Program) -> Result<ConcurrentThreads<'a>, AllocError>
        requires { IsFormed program.now }
        ensures { IfOk result (λ c. c ≡ program.now) }
    {
        let links = Links::of(alloc, program)?;
        Ok(ConcurrentThreads { program, links })
    }

    /// Whether two threads are concurrent.
    pub fn are(&self, first: ThreadId, second: ThreadId) -> bool
        ensures { IsTrue result ↔ AreConcurrent self.now first second }
    {
        self.links.are_concurrent(self.program, first, second)
    }
}
