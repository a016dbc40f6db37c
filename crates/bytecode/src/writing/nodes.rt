//! Threads, steps and nodes at the end of bytes.

ghost use Rattle.std.specs.Prelude.{◌≡◌, ◌≢◌, ◌<◌, ◌^◌, ◌++◌, ◌∷◌, Some, OnOk};
ghost use Rattle.std.specs.List.{flat_map, AllByRecursion};
ghost use Rattle.sc_graph.specs.Layout.{CountsChildren};
ghost use Rattle.sc_graph.specs.Limits.{no_parent};
ghost use Rattle.sc_graph.specs.declared.program.Step.TheVariants as step;
ghost use Rattle.bytecode.specs.Fields.{u16_bytes};
ghost use Rattle.bytecode.specs.Nodes.{thread_bytes, step_bytes, node_bytes};
ghost use Rattle.bytecode.specs.Fits.{SayableThread, SayableStep, SayableNode};

use crate::writing::codes::put_code;
use crate::writing::fields::{combination_byte, put16, put32};
use sc_graph::{NO_PARENT, Node, NodeId, Step, Thread, ThreadId, VariableId};
use sc_values::{Code, Combination};
use std::alloc::AllocError;

/// A thread and its bound.
#[tactic(auto, unfolding(crate::specs::Nodes::thread_bytes))]
pub fn put_thread(out: &mut Vec<u8>, thread: &Thread, bound: u32) -> Result<(), AllocError>
    requires { thread.now.parent ≢ Some no_parent }
    ensures written { OnOk result (out.new.items ≡ out.old.items ++ thread_bytes
        (record { thread = thread.now; bound = bound })) }
    ensures fits { OnOk result (SayableThread (record { thread = thread.now; bound = bound })) }
{
    put16(out, thread.parent.unwrap_or(NO_PARENT))?;
    put16(out, thread.entry)?;
    put32(out, bound)
}

fn put_children(out: &mut Vec<u8>, children: &[ThreadId]) -> Result<(), AllocError>
    ensures written { OnOk result (out.new.items ≡ out.old.items ++ flat_map u16_bytes children.now) }
    ensures fits { OnOk result (AllByRecursion (λ t. t < 2 ^ 16) children.now) }
{
    for child in children {
        put16(out, *child)?;
    }
    Ok(())
}

#[tactic(auto, unfolding(crate::specs::Nodes::step_bytes))]
fn put_assign(
    out: &mut Vec<u8>,
    variable: VariableId,
    code: &Code,
    next: NodeId,
) -> Result<(), AllocError>
    ensures written { OnOk result (out.new.items ≡ out.old.items ++ step_bytes (step.Assign variable code.now next)) }
    ensures fits { OnOk result (SayableStep 2 (step.Assign variable code.now next)) }
{
    out.push(1)?;
    put16(out, variable)?;
    put16(out, next)?;
    put_code(out, code)
}

#[tactic(auto, unfolding(crate::specs::Nodes::step_bytes))]
fn put_update(
    out: &mut Vec<u8>,
    variable: VariableId,
    combine: Combination,
    code: &Code,
    next: NodeId,
) -> Result<(), AllocError>
    ensures written { OnOk result (out.new.items ≡ out.old.items ++ step_bytes
        (step.Update variable combine code.now next)) }
    ensures fits { OnOk result (SayableStep 2 (step.Update variable combine code.now next)) }
{
    out.push(2)?;
    put16(out, variable)?;
    out.push(combination_byte(combine))?;
    put16(out, next)?;
    put_code(out, code)
}

#[tactic(auto, unfolding(crate::specs::Nodes::step_bytes))]
fn put_cond(out: &mut Vec<u8>, code: &Code, then: NodeId, other: NodeId) -> Result<(), AllocError>
    ensures written { OnOk result (out.new.items ≡ out.old.items ++ step_bytes (step.Cond code.now then other)) }
    ensures fits { OnOk result (SayableStep 2 (step.Cond code.now then other)) }
{
    out.push(3)?;
    put16(out, then)?;
    put16(out, other)?;
    put_code(out, code)
}

#[tactic(auto, unfolding(crate::specs::Nodes::step_bytes))]
fn put_fork(out: &mut Vec<u8>, children: &[ThreadId], join: NodeId) -> Result<(), AllocError>
    requires { CountsChildren (step.Fork children.now join) }
    ensures written { OnOk result (out.new.items ≡ out.old.items ++ step_bytes (step.Fork children.now join)) }
    ensures fits { OnOk result (SayableStep 2 (step.Fork children.now join)) }
{
    out.push(4)?;
    put16(out, join)?;
    out.push(children.len() as u8)?;
    put_children(out, children)
}

// The tag of a step, and the one node that tells it.
fn put_target(out: &mut Vec<u8>, tag: u8, target: NodeId) -> Result<(), AllocError>
    ensures { OnOk result (out.new.items ≡ out.old.items ++ tag ∷ u16_bytes target) }
{
    out.push(tag)?;
    put16(out, target)
}

#[tactic(auto, unfolding(crate::specs::Nodes::step_bytes))]
fn put_step(out: &mut Vec<u8>, step: &Step) -> Result<(), AllocError>
    requires { CountsChildren step.now }
    ensures written { OnOk result (out.new.items ≡ out.old.items ++ step_bytes step.now) }
    ensures fits { OnOk result (SayableStep 2 step.now) }
{
    match step {
        Step::Exit => {
            out.push(0)?;
            Ok(())
        }
        Step::Assign {
            variable,
            code,
            next,
        } => put_assign(out, *variable, code, *next),
        Step::Update {
            variable,
            combine,
            code,
            next,
        } => put_update(out, *variable, *combine, code, *next),
        Step::Cond { code, then, other } => put_cond(out, code, *then, *other),
        Step::Fork { children, join } => put_fork(out, children.as_slice(), *join),
        Step::Join { next } => put_target(out, 5, *next),
        Step::Surf { depth } => put_target(out, 6, *depth),
        Step::Depth { next } => put_target(out, 7, *next),
    }
}

/// A node and its entries in the tables.
#[tactic(auto, unfolding(crate::specs::Nodes::node_bytes))]
pub fn put_node(
    out: &mut Vec<u8>,
    node: &Node,
    priority: u16,
    weight: u16,
    end_bit: bool,
) -> Result<(), AllocError>
    requires { CountsChildren node.now.step }
    ensures written { OnOk result (out.new.items ≡ out.old.items ++ node_bytes
        (record { node = node.now; priority = priority; weight = weight; end_bit = end_bit })) }
    ensures fits { OnOk result (SayableNode 2
        (record { node = node.now; priority = priority; weight = weight; end_bit = end_bit })) }
{
    put16(out, node.owner)?;
    put16(out, priority)?;
    put16(out, weight)?;
    out.push(end_bit as u8)?;
    put_step(out, &node.step)
}
