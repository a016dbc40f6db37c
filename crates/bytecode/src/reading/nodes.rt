//! Threads, steps and nodes at the front of bytes.

ghost use Rattle.std.specs.Prelude.{◌≡◌};
ghost use Rattle.std.specs.Int.{w16};
ghost use Rattle.bytecode.specs.Reading.{each_at};
ghost use Rattle.bytecode.specs.Inside.Readers.{Gives, GivesExactly};
ghost use Rattle.bytecode.specs.Reading.Fields.{number_at};
ghost use Rattle.bytecode.specs.Reading.Nodes.{parent_of, thread_at, assign_at, update_at, cond_at};
ghost use Rattle.bytecode.specs.Reading.Nodes.{fork_at, step_body, tagged_step_at, node_at};

use crate::fault::DecodeFault;
use crate::reading::codes::code;
use crate::reading::fields::{COMBINATIONS, FLAGS, byte, choice, number16, number32};
use crate::rows::{NodeRow, ThreadRow};
use sc_graph::{NO_PARENT, Node, Step, Thread, ThreadId};
use sqlite_items::Items;
use std::alloc::Global;

fn parent(number: u16) -> Option<ThreadId>
    ensures { result ≡ parent_of number }
{
    if number == NO_PARENT {
        None
    } else {
        Some(number)
    }
}

/// A thread and its bound.
#[tactic(auto, unfolding(crate::specs::Reading::Nodes::thread_at))]
pub fn thread(bytes: &[u8]) -> Result<(ThreadRow, &[u8]), DecodeFault>
    ensures { GivesExactly (λ x. (x.0, x.1.now)) result (thread_at bytes.now) }
{
    let (number, rest) = number16(bytes)?;
    let (entry, rest) = number16(rest)?;
    let (bound, rest) = number32(rest)?;
    let parent = parent(number);
    let thread = Thread { parent, entry };
    Ok((ThreadRow { thread, bound }, rest))
}

#[tactic(auto, unfolding(crate::specs::Reading::Nodes::assign_at))]
fn assign(version: u8, bytes: &[u8]) -> Result<(Step, &[u8]), DecodeFault>
    ensures { GivesExactly (λ x. (x.0, x.1.now)) result (assign_at version bytes.now) }
{
    let (variable, rest) = number16(bytes)?;
    let (next, rest) = number16(rest)?;
    let (code, rest) = code(version, rest)?;
    let step = Step::Assign {
        variable,
        code,
        next,
    };
    Ok((step, rest))
}

#[tactic(auto, unfolding(crate::specs::Reading::Nodes::update_at))]
fn update(version: u8, bytes: &[u8]) -> Result<(Step, &[u8]), DecodeFault>
    ensures { GivesExactly (λ x. (x.0, x.1.now)) result (update_at version bytes.now) }
{
    let (variable, rest) = number16(bytes)?;
    let (combine, rest) = choice(&COMBINATIONS, rest)?;
    let (next, rest) = number16(rest)?;
    let (code, rest) = code(version, rest)?;
    let step = Step::Update {
        variable,
        combine,
        code,
        next,
    };
    Ok((step, rest))
}

#[tactic(auto, unfolding(crate::specs::Reading::Nodes::cond_at))]
fn cond(version: u8, bytes: &[u8]) -> Result<(Step, &[u8]), DecodeFault>
    ensures { GivesExactly (λ x. (x.0, x.1.now)) result (cond_at version bytes.now) }
{
    let (then, rest) = number16(bytes)?;
    let (other, rest) = number16(rest)?;
    let (code, rest) = code(version, rest)?;
    Ok((Step::Cond { code, then, other }, rest))
}

fn children(alloc: Global, count: u8, bytes: &[u8]) -> Result<(Items<ThreadId>, &[u8]), DecodeFault>
    ensures { Gives (λ x. (x.0, x.1.now)) result (each_at (number_at w16) count bytes.now) }
{
    let mut children = Items::new(alloc);
    let mut rest = bytes;
    for _ in 0..count {
        let (child, after) = number16(rest)?;
        children.push(child)?;
        rest = after;
    }
    Ok((children, rest))
}

#[tactic(auto, unfolding(crate::specs::Reading::Nodes::fork_at))]
fn fork(alloc: Global, bytes: &[u8]) -> Result<(Step, &[u8]), DecodeFault>
    ensures { Gives (λ x. (x.0, x.1.now)) result (fork_at bytes.now) }
{
    let (join, rest) = number16(bytes)?;
    let (count, rest) = byte(rest)?;
    let (children, rest) = children(alloc, count, rest)?;
    Ok((Step::Fork { children, join }, rest))
}

#[tactic(auto, unfolding(crate::specs::Reading::Nodes::step_body, crate::specs::Reading::Nodes::target_at))]
fn body<'b>(
    alloc: Global,
    version: u8,
    bytes: &[u8],
    tag: u8,
    rest: &'b [u8],
) -> Result<(Step, &'b [u8]), DecodeFault>
    ensures { Gives (λ x. (x.0, x.1.now)) result (step_body version bytes.now tag rest.now) }
{
    match tag {
        0 => Ok((Step::Exit, rest)),
        1 => assign(version, rest),
        2 => update(version, rest),
        3 => cond(version, rest),
        4 => fork(alloc, rest),
        5 => {
            let (next, rest) = number16(rest)?;
            Ok((Step::Join { next }, rest))
        }
        6 => {
            let (depth, rest) = number16(rest)?;
            Ok((Step::Surf { depth }, rest))
        }
        7 => {
            let (next, rest) = number16(rest)?;
            Ok((Step::Depth { next }, rest))
        }
        _ => Err(DecodeFault::Field(bytes.len())),
    }
}

#[tactic(auto, unfolding(crate::specs::Reading::Nodes::tagged_step_at))]
fn step(alloc: Global, version: u8, bytes: &[u8]) -> Result<(Step, &[u8]), DecodeFault>
    ensures { Gives (λ x. (x.0, x.1.now)) result (tagged_step_at version bytes.now) }
{
    let (tag, rest) = byte(bytes)?;
    body(alloc, version, bytes, tag, rest)
}

/// A node and its entries in the tables.
#[tactic(auto, unfolding(crate::specs::Reading::Nodes::node_at))]
pub fn node(alloc: Global, version: u8, bytes: &[u8]) -> Result<(NodeRow, &[u8]), DecodeFault>
    ensures { Gives (λ x. (x.0, x.1.now)) result (node_at version bytes.now) }
{
    let (owner, rest) = number16(bytes)?;
    let (priority, rest) = number16(rest)?;
    let (weight, rest) = number16(rest)?;
    let (end_bit, rest) = choice(&FLAGS, rest)?;
    let (step, rest) = step(alloc, version, rest)?;
    let row = NodeRow {
        node: Node { owner, step },
        priority,
        weight,
        end_bit,
    };
    Ok((row, rest))
}
