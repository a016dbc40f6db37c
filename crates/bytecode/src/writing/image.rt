//! Whole images to bytes.

ghost use Rattle.std.specs.Prelude.{◌≡◌, ◌++◌, OnOk, IfOk};
ghost use Rattle.std.specs.List.{flat_map, AllByRecursion};
ghost use Rattle.sc_graph.specs.Tables.{HasLengths};
ghost use Rattle.bytecode.specs.Fields.{variable_bytes};
ghost use Rattle.bytecode.specs.Nodes.{thread_bytes, node_bytes};
ghost use Rattle.bytecode.specs.Layout.{thread_rows, node_rows};
ghost use Rattle.bytecode.specs.Spells.{Spells};
ghost use Rattle.bytecode.specs.Fits.{SayableVariable, SayableThread, SayableNode};

use crate::image::Image;
use crate::layout::MAGIC;
use crate::writing::fields::{put_variable, put16, put32};
use crate::writing::nodes::{put_node, put_thread};
use sc_graph::{Program, Tables, Variable};
use std::alloc::{AllocError, Global};

fn put_variables(out: &mut Vec<u8>, variables: &[Variable]) -> Result<(), AllocError>
    ensures written { OnOk result (out.new.items ≡ out.old.items ++ flat_map variable_bytes variables.now) }
    ensures fits { OnOk result (AllByRecursion SayableVariable variables.now) }
{
    for variable in variables {
        put_variable(out, variable)?;
    }
    Ok(())
}

fn put_threads(out: &mut Vec<u8>, program: &Program, tables: &Tables) -> Result<(), AllocError>
    requires { HasLengths program.now tables.now }
    ensures written { OnOk result (out.new.items ≡ out.old.items ++ flat_map thread_bytes
        (thread_rows program.now.threads tables.now.bounds)) }
    ensures fits { OnOk result (AllByRecursion SayableThread (thread_rows program.now.threads tables.now.bounds)) }
{
    let count = program.thread_count();
    let threads = program.threads();
    for t in 0..count {
        let thread = &threads[t as usize];
        put_thread(out, thread, tables.bound(t))?;
    }
    Ok(())
}

fn put_nodes(out: &mut Vec<u8>, program: &Program, tables: &Tables) -> Result<(), AllocError>
    requires { HasLengths program.now tables.now }
    ensures written { OnOk result (out.new.items ≡ out.old.items ++ flat_map node_bytes
        (node_rows program.now.nodes tables.now.priorities tables.now.weights tables.now.end_bits)) }
    ensures fits { OnOk result (AllByRecursion (SayableNode 2)
        (node_rows program.now.nodes tables.now.priorities tables.now.weights tables.now.end_bits)) }
{
    let count = program.node_count();
    let nodes = program.nodes();
    for n in 0..count {
        let node = &nodes[n as usize];
        put_node(
            out,
            node,
            tables.priority(n),
            tables.weight(n),
            tables.end_bit(n),
        )?;
    }
    Ok(())
}

/// The bytes that spell an image, in version 2 of the layout. Err: memory was refused.
#[tactic(auto, unfolding(crate::specs::Layout::spelling, crate::specs::Layout::body_bytes))]
pub fn encode(alloc: Global, image: &Image) -> Result<Vec<u8>, AllocError>
    ensures { IfOk result (λ bytes. Spells 2 bytes.items image.now) }
{
    let program = image.program();
    let tables = image.tables();
    let mut out = Vec::new(alloc);
    out.extend_from_slice(&MAGIC)?;
    out.push(2)?;
    put16(&mut out, program.variable_count())?;
    put_variables(&mut out, program.variables())?;
    put16(&mut out, program.thread_count())?;
    put_threads(&mut out, program, tables)?;
    put16(&mut out, program.node_count())?;
    put_nodes(&mut out, program, tables)?;
    put32(&mut out, tables.budget)?;
    Ok(out)
}
