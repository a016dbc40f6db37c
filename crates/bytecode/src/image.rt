//! Images: a program with its certificate.

ghost use Rattle.std.specs.Prelude.{◌≡◌, ◌↔◌, IsTrue, IsSome, IfSome};
ghost use Rattle.sc_graph.specs.Tables.{HasLengths};

use sc_graph::{Program, Tables};
use std::marker::Model;

/// A program with its certificate: an entry for each node and each thread, and a budget.
#[derive(Drop)]
pub struct Image {
    program: Program,
    tables: Tables,
}

impl Model for Image {
    ghost use Rattle.bytecode.specs.Image.{Image};
    ghost use Rattle.sc_graph.specs.Tables.{HasLengths};

    ghost Value = { Image };

    ghost view = { λ i. record { program = i.program; tables = i.tables } };

    ghost invariant = { λ i. HasLengths i.program i.tables };
}

impl Image {
    /// The image of a program and its tables. None: they haven't an entry for each node and each
    /// thread.
    pub fn of(program: Program, tables: Tables) -> Option<Image>
        ensures fits { IsSome result ↔ (HasLengths program tables) }
        ensures parts { IfSome result (λ i. (i.program ≡ program) × (i.tables ≡ tables)) }
    {
        if has_lengths(&program, &tables) {
            Some(Image { program, tables })
        } else {
            drop(program);
            drop(tables);
            None
        }
    }

    /// The program.
    pub fn program(&self) -> &Program
        ensures { result.now ≡ self.now.program }
    {
        &self.program
    }

    /// The tables.
    pub fn tables(&self) -> &Tables
        ensures value { result.now ≡ self.now.tables }
        ensures lengths { HasLengths self.now.program self.now.tables }
    {
        &self.tables
    }
}

// Whether tables have an entry for each node and each thread of a program.
fn has_lengths(program: &Program, tables: &Tables) -> bool
    ensures { IsTrue result ↔ (HasLengths program.now tables.now) }
{
    let nodes = program.nodes().len();
    let threads = program.threads().len();
    tables.priorities.len() == nodes
        && tables.weights.len() == nodes
        && tables.end_bits.len() == nodes
        && tables.bounds.len() == threads
}
