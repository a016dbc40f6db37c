//! Whether nodes that write one variable agree, looked for from below: for each fork it is noted what was seen below
//! it, so that a node is compared once for each fork above it, and not with each other one.

ghost use Rattle.std.specs.Prelude.{◌≡◌, ◌<◌, ◌↔◌, ℕ, IfOk, IsTrue, Contains, length};
ghost use Rattle.sc_values.specs.Access.{Clash};
ghost use Rattle.sc_graph.specs.Accesses.{accesses};
ghost use Rattle.sc_graph.specs.Links.{Tells};
ghost use Rattle.sc_graph.specs.Valid.{IsFormed};
ghost use Rattle.program_edges.specs.Users.{InitsAt, UpdatesAt};
ghost use Rattle.program_edges.specs.Inside.Agreement.{IsWriter, NotesAbove, NotesAll, NotesAt, NotesChild, Takes};
ghost use Rattle.program_edges.specs.Inside.NoConflicts.{NoneConflict};

use crate::conflicts::nodes_clash;
use crate::users::Use;
use sc_graph::{Links, NodeId, Program, Step, ThreadId, VariableId};
use std::alloc::{AllocError, Global};

/// What was seen below a fork: the first node, the child below which it lies, whether all others lie there too, and
/// whether none of them, nor itself, clashes with the first.
#[derive(Clone, Copy)]
pub(crate) struct Seen {
    pub(crate) first: NodeId,
    pub(crate) child: ThreadId,
    pub(crate) together: bool,
    pub(crate) alike: bool,
}

/// Room for what is seen below each fork.
pub(crate) fn nothing_seen(alloc: Global, program: &Program) -> Result<Vec<Seen>, AllocError> {
    let count = program.node_count();
    let mut seen = Vec::with_capacity(alloc, count as usize)?;
    for _ in 0..count {
        seen.push(Seen {
            first: NodeId::MAX,
            child: 0,
            together: true,
            alike: true,
        })?;
    }
    Ok(seen)
}

/// Whether no two of these nodes, which write one variable in one way, are seen to conflict. Where other nodes of this
/// variable and way were noted before, they are taken in.
pub(crate) fn agree(
    program: &Program,
    links: &Links,
    way: Use,
    x: VariableId,
    nodes: &[NodeId],
    seen: &mut Vec<Seen>,
) -> bool
    requires formed { IsFormed program.now }
    requires told { Tells program.now links.now }
    requires writers { (n : ℕ) → Contains nodes.now n → IsWriter program.now way x n }
    ensures { IsTrue result → NoneConflict program.now nodes.now }
{
    for n in nodes {
        if !note_all(program, links, way, x, *n, seen) {
            return false;
        }
    }
    true
}

// Notes a node at each fork above it. False: there it does not agree with another one.
fn note_all(
    program: &Program,
    links: &Links,
    way: Use,
    x: VariableId,
    n: NodeId,
    seen: &mut Vec<Seen>,
) -> bool
    requires formed { IsFormed program.now }
    requires told { Tells program.now links.now }
    requires writer { IsWriter program.now way x n }
    ensures { IsTrue result → NotesAll program.now way x seen.old.items seen.new.items n }
{
    match program.owner(n) {
        Some(thread) => note_above(program, links, way, x, n, thread, seen),
        None => true,
    }
}

// So from its thread on.
#[tactic(auto, using(crate::proofs::Alone::child_within, crate::proofs::Alone::parent_less))]
fn note_above(
    program: &Program,
    links: &Links,
    way: Use,
    x: VariableId,
    n: NodeId,
    thread: ThreadId,
    seen: &mut Vec<Seen>,
) -> bool
    requires formed { IsFormed program.now }
    requires told { Tells program.now links.now }
    requires writer { IsWriter program.now way x n }
    ensures { IsTrue result → NotesAbove program.now way x seen.old.items seen.new.items thread n }
{
    let mut below = thread;
    while let Some(parent) = program.parent(below) {
        if !note_child(program, links, way, x, n, below, seen) {
            return false;
        }
        below = parent;
    }
    true
}

// Notes a node at the fork of a child below which it lies.
fn note_child(
    program: &Program,
    links: &Links,
    way: Use,
    x: VariableId,
    n: NodeId,
    child: ThreadId,
    seen: &mut Vec<Seen>,
) -> bool
    requires told { Tells program.now links.now }
    requires within { child < length program.now.threads }
    requires writer { IsWriter program.now way x n }
    ensures { IsTrue result → NotesChild program.now way x seen.old.items seen.new.items child n }
{
    match links.fork_of(child) {
        Some(fork) => note_at(program, way, x, n, child, fork, seen),
        None => false,
    }
}

// Notes a node, which lies below a child, at a fork.
fn note_at(
    program: &Program,
    way: Use,
    x: VariableId,
    n: NodeId,
    child: ThreadId,
    fork: NodeId,
    seen: &mut Vec<Seen>,
) -> bool
    requires { IsWriter program.now way x n }
    ensures { IsTrue result → NotesAt program.now way x seen.old.items seen.new.items fork child n }
{
    let at = fork as usize;
    if at >= seen.len() {
        return false;
    }
    let noted = with_node(program, way, x, seen[at], child, n);
    if !noted.together && !noted.alike {
        return false;
    }
    seen[at] = noted;
    true
}

// What is seen with one node more. What was noted of another variable, or of another way, is let go.
fn with_node(
    program: &Program,
    way: Use,
    x: VariableId,
    seen: Seen,
    child: ThreadId,
    n: NodeId,
) -> Seen
    requires { IsWriter program.now way x n }
    ensures { Takes program.now way x seen result child n }
{
    if !is_writer(program, way, x, seen.first) {
        return Seen {
            first: n,
            child,
            together: true,
            alike: !nodes_clash(program, n, n),
        };
    }
    Seen {
        first: seen.first,
        child: seen.child,
        together: is_together(seen, child),
        alike: is_alike(program, seen, n),
    }
}

// Whether all that was seen lies below this child.
fn is_together(seen: Seen, child: ThreadId) -> bool
    ensures { IsTrue result → IsTrue seen.together × (seen.child ≡ child) }
{
    seen.together && seen.child == child
}

// Whether all that was seen is alike, and the node too.
fn is_alike(program: &Program, seen: Seen, n: NodeId) -> bool
    ensures { IsTrue result → IsTrue seen.alike × ¬ Clash (accesses program.now seen.first) (accesses program.now n) }
{
    seen.alike && !nodes_clash(program, seen.first, n)
}

// Whether a node writes a variable in a way.
fn is_writer(program: &Program, way: Use, x: VariableId, n: NodeId) -> bool
    ensures { IsTrue result ↔ IsWriter program.now way x n }
{
    match way {
        Use::Init => is_init(program, x, n),
        Use::Update => is_update(program, x, n),
        Use::Read => false,
    }
}

fn is_init(program: &Program, x: VariableId, n: NodeId) -> bool
    ensures { IsTrue result ↔ InitsAt program.now x n }
{
    match program.step(n) {
        Some(Step::Assign { variable, .. }) => *variable == x,
        _ => false,
    }
}

fn is_update(program: &Program, x: VariableId, n: NodeId) -> bool
    ensures { IsTrue result ↔ UpdatesAt program.now x n }
{
    match program.step(n) {
        Some(Step::Update { variable, .. }) => *variable == x,
        _ => false,
    }
}
