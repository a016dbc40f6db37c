//! From a program to its image.

ghost use Rattle.std.specs.Prelude.{IfErr, IfOk};
ghost use Rattle.compiler.specs.Compiled.{HasTables, IsCompiled, LacksImage};
ghost use Rattle.sc_graph.specs.Links.{Tells};
ghost use Rattle.sc_graph.specs.Valid.{IsFormed};

use crate::fault::CompileFault;
use bytecode::Image;
use conflict_edges::conflicts;
use priority_weights::tables;
use sc_graph::{Links, Program, Tables};
use std::alloc::Global;
use verifier::{Verified, verify};

/// The valid image of a formed program, whose links are given, with its least tables. Err: the first that holds of
/// these: two of its nodes conflict (E11), flow within one tick closes (E13), instantaneous and protocol edges close
/// (E12), a code or an assignment breaks its rule (E33, E34); or memory was refused.
pub fn compile_program(
    alloc: Global,
    program: Program,
    links: &Links,
) -> Result<Verified, CompileFault>
    requires formed { IsFormed program }
    requires told { Tells program links.now }
    ensures compiled { IfOk result (IsCompiled program) }
    ensures refused { IfErr result (LacksImage program) }
{
    let tables = least_tables(alloc, &program, links)?;
    image_with(alloc, program, tables)
}

/// The valid image of a formed program with its least tables. Err: a code or an assignment breaks its rule (E33, E34);
/// or memory was refused.
pub(crate) fn image_with(
    alloc: Global,
    program: Program,
    tables: Tables,
) -> Result<Verified, CompileFault>
    requires formed { IsFormed program }
    requires tables { HasTables program tables }
    ensures compiled { IfOk result (IsCompiled program) }
    ensures refused { IfErr result (LacksImage program) }
{
    let image = match Image::of(program, tables) {
        Some(image) => image,
        // least tables have an entry for each node and each thread
        None => unreachable!(),
    };
    match verify(alloc, image) {
        Ok(verified) => Ok(verified),
        Err(refusal) => Err(CompileFault::Rule(refusal)),
    }
}

/// The least tables of a formed program, whose links are given. Err: two of its nodes conflict (E11), flow within one
/// tick closes (E13), or instantaneous and protocol edges close (E12); or memory was refused.
pub(crate) fn least_tables(
    alloc: Global,
    program: &Program,
    links: &Links,
) -> Result<Tables, CompileFault>
    requires formed { IsFormed program.now }
    requires told { Tells program.now links.now }
    ensures tables { IfOk result (HasTables program.now) }
    ensures refused { IfErr result (LacksImage program.now) }
{
    let edges = match conflicts(alloc, program, links) {
        Ok(edges) => edges,
        Err(fault) => return Err(CompileFault::Conflict(fault)),
    };
    match tables(alloc, program, &edges) {
        Ok(tables) => Ok(tables),
        Err(fault) => Err(CompileFault::Tables(fault)),
    }
}
