//! Write conflicts: two concurrent inits of a variable, unless they are by one literal, or two
//! concurrent updates of it by different combinations.

ghost use Rattle.std.specs.Prelude.{◌≡◌, ◌↔◌, IfOk, IsTrue, MatchOption, ℕ, Contains};
ghost use Rattle.sc_values.specs.Access.{Clash};
ghost use Rattle.sc_graph.specs.Accesses.{accesses};
ghost use Rattle.sc_graph.specs.Links.{Tells};
ghost use Rattle.sc_graph.specs.Protocol.{WriteConflict};
ghost use Rattle.sc_graph.specs.Valid.{IsFormed};
ghost use Rattle.program_edges.specs.Conflicts.{HasNoConflict};
ghost use Rattle.program_edges.specs.Inside.Agreement.{IsWriter};
ghost use Rattle.program_edges.specs.Inside.Candidates.{AreAlike};
ghost use Rattle.program_edges.specs.Users.{InitsAt, Lists, UpdatesAt, UsersOf};
ghost use Rattle.program_edges.specs.Inside.NoConflicts.{NoConflictOn, NoneConflict};

use crate::agreement::{Seen, agree, nothing_seen};
use crate::candidates::candidates;
use crate::company::has_company;
use crate::concurrency::are_concurrent;
use crate::users::{Use, Users};
use sc_graph::{Links, NodeId, Program, VariableId};
use std::alloc::{AllocError, Global};

/// Two nodes of a formed program, the smaller first, that conflict. None: there are none. Err: memory was refused.
pub fn find_conflict(
    alloc: Global,
    program: &Program,
    links: &Links,
    users: &Users,
) -> Result<Option<(NodeId, NodeId)>, AllocError>
    requires formed { IsFormed program.now }
    requires told { Tells program.now links.now }
    requires users { UsersOf program.now users.now }
    ensures { IfOk result (λ found. MatchOption found (HasNoConflict program.now)
        (λ s. WriteConflict program.now s.0 s.1)) }
{
    let mut seen = nothing_seen(alloc, program)?;
    for x in 0..program.variable_count() {
        let inits = users.inits.of(x);
        let updates = users.updates.of(x);
        match conflict_over(alloc, program, links, x, inits, updates, &mut seen)? {
            Some(pair) => return Ok(Some(pair)),
            None => {}
        }
    }
    Ok(None)
}

// Two of the inits of a variable, or two of its updates, that conflict.
fn conflict_over(
    alloc: Global,
    program: &Program,
    links: &Links,
    x: VariableId,
    inits: &[NodeId],
    updates: &[NodeId],
    seen: &mut Vec<Seen>,
) -> Result<Option<(NodeId, NodeId)>, AllocError>
    requires formed { IsFormed program.now }
    requires told { Tells program.now links.now }
    requires inits { Lists inits.now (InitsAt program.now x) }
    requires updates { Lists updates.now (UpdatesAt program.now x) }
    ensures { IfOk result (λ found. MatchOption found (NoConflictOn program.now x)
        (λ s. WriteConflict program.now s.0 s.1)) }
{
    match conflict_in(alloc, program, links, Use::Init, x, inits, seen)? {
        Some(pair) => return Ok(Some(pair)),
        None => {}
    }
    match conflict_in(alloc, program, links, Use::Update, x, updates, seen)? {
        Some(pair) => Ok(Some(pair)),
        None => Ok(None),
    }
}

// Two of these nodes, which write one variable in one way, that conflict. They are looked for only where the nodes do
// not agree.
fn conflict_in(
    alloc: Global,
    program: &Program,
    links: &Links,
    way: Use,
    x: VariableId,
    nodes: &[NodeId],
    seen: &mut Vec<Seen>,
) -> Result<Option<(NodeId, NodeId)>, AllocError>
    requires formed { IsFormed program.now }
    requires told { Tells program.now links.now }
    requires writers { (n : ℕ) → Contains nodes.now n → IsWriter program.now way x n }
    requires alike { AreAlike program.now nodes.now }
    ensures { IfOk result (λ found. MatchOption found (NoneConflict program.now nodes.now)
        (λ s. WriteConflict program.now s.0 s.1)) }
{
    let few = candidates(alloc, program, nodes)?;
    let kept = few.as_slice();
    if agree(program, links, way, x, kept, seen) {
        return Ok(None);
    }
    match conflict_among(program, links, kept) {
        Some(pair) => Ok(Some(pair)),
        None => Ok(None),
    }
}

// Two of these nodes that conflict.
fn conflict_among(program: &Program, links: &Links, nodes: &[NodeId]) -> Option<(NodeId, NodeId)>
    requires formed { IsFormed program.now }
    requires told { Tells program.now links.now }
    ensures { MatchOption result (NoneConflict program.now nodes.now) (λ s. WriteConflict program.now s.0 s.1) }
{
    for m in nodes {
        if let Some(n) = conflict_with(program, links, *m, nodes) {
            return Some((*m, n));
        }
    }
    None
}

// One of these nodes that conflicts with a smaller one. A node without company is compared with none.
fn conflict_with(program: &Program, links: &Links, m: NodeId, nodes: &[NodeId]) -> Option<NodeId>
    requires formed { IsFormed program.now }
    requires told { Tells program.now links.now }
    ensures { MatchOption result ((n : ℕ) → Contains nodes.now n → ¬ WriteConflict program.now m n)
        (WriteConflict program.now m) }
{
    if !has_company(program, links, m) {
        return None;
    }
    for n in nodes {
        if is_conflict(program, links, m, *n) {
            return Some(*n);
        }
    }
    None
}

// Whether two nodes, the smaller first, conflict.
fn is_conflict(program: &Program, links: &Links, m: NodeId, n: NodeId) -> bool
    requires formed { IsFormed program.now }
    requires told { Tells program.now links.now }
    ensures { IsTrue result ↔ WriteConflict program.now m n }
{
    if n <= m {
        return false;
    }
    if !nodes_clash(program, m, n) {
        return false;
    }
    are_concurrent(program, links, m, n)
}

/// Whether two nodes, if they are concurrent, may not both be taken.
pub(crate) fn nodes_clash(program: &Program, m: NodeId, n: NodeId) -> bool
    ensures { IsTrue result ↔ Clash (accesses program.now m) (accesses program.now n) }
{
    match (program.step(m), program.step(n)) {
        (Some(a), Some(b)) => a.clashes(b),
        _ => false,
    }
}
