//! Whether a table keeps the order of priorities, looked at by threads and not by nodes.

ghost use Rattle.std.specs.Prelude.{◌≡◌, ◌<◌, ◌≤◌, ◌↔◌, ℕ, IfOk, IsTrue, Contains, slice_index};
ghost use Rattle.program_edges.specs.AlongVariables.{AllFall, FallsOn, FallsTo};
ghost use Rattle.program_edges.specs.Users.{InitsAt, Lists, ReadsAt, UpdatesAt};
ghost use Rattle.sc_graph.specs.Links.{Tells};
ghost use Rattle.sc_graph.specs.Protocol.{Instant, ProtocolEdge};
ghost use Rattle.sc_graph.specs.Valid.{IsFormed};

use crate::instants::asked_by_instants;
use crate::next::entry;
use conflict_edges::Edges;
use program_edges::{Extreme, NotedPlaces, extremes_of};
use sc_graph::{Links, NodeId, Program, VariableId};
use std::alloc::{AllocError, Global};

/// Whether a table never rises along instantaneous edges from nodes below a number.
pub(crate) fn instants_kept(program: &Program, links: &Links, table: &[u32], count: u16) -> bool
    requires formed { IsFormed program.now }
    requires told { Tells program.now links.now }
    ensures { IsTrue result → ((m : ℕ) → m < count → (n : ℕ) → Instant program.now m n
        → slice_index table.now n ≤ slice_index table.now m) }
{
    for node in 0..count {
        let asked = asked_by_instants(program, links, table, node);
        let number = u64::from(entry(table, node));
        if number < asked {
            return false;
        }
    }
    true
}

/// Whether a table falls along all protocol edges. Err: memory was refused.
pub(crate) fn protocol_kept(
    alloc: Global,
    program: &Program,
    edges: &Edges,
    table: &[u32],
) -> Result<bool, AllocError>
    requires formed { IsFormed program.now }
    requires edges { edges.now ≡ program.now }
    ensures { IfOk result (λ kept. IsTrue kept → ((m n : ℕ) → ProtocolEdge program.now m n
        → slice_index table.now n < slice_index table.now m)) }
{
    let users = edges.users();
    let mut places = NotedPlaces::none(alloc, program.thread_count())?;
    for x in 0..program.variable_count() {
        let inits = users.inits.of(x);
        let updates = users.updates.of(x);
        let reads = users.reads.of(x);
        let kept = kept_over(
            alloc,
            program,
            edges,
            table,
            &mut places,
            x,
            inits,
            updates,
            reads,
        )?;
        if !kept {
            return Ok(false);
        }
    }
    Ok(true)
}

// Whether a table falls along the protocol edges about a variable, over the lists of its inits, updates and reads.
fn kept_over(
    alloc: Global,
    program: &Program,
    edges: &Edges,
    table: &[u32],
    places: &mut NotedPlaces,
    x: VariableId,
    inits: &[NodeId],
    updates: &[NodeId],
    reads: &[NodeId],
) -> Result<bool, AllocError>
    requires edges { edges.now ≡ program.now }
    requires inits { Lists inits.now (InitsAt program.now x) }
    requires updates { Lists updates.now (UpdatesAt program.now x) }
    requires reads { Lists reads.now (ReadsAt program.now x) }
    ensures { IfOk result (λ kept. IsTrue kept → FallsOn program.now table.now x) }
{
    let to_updates = kept_between(alloc, program, edges, table, places, inits, updates)?;
    if !to_updates {
        return Ok(false);
    }
    let to_reads = kept_between(alloc, program, edges, table, places, inits, reads)?;
    if !to_reads {
        return Ok(false);
    }
    let further = kept_between(alloc, program, edges, table, places, updates, reads)?;
    Ok(further)
}

// Whether a table falls from each first node to each concurrent second one: from the least of each thread to the
// greatest of each.
fn kept_between(
    alloc: Global,
    program: &Program,
    edges: &Edges,
    table: &[u32],
    places: &mut NotedPlaces,
    firsts: &[NodeId],
    seconds: &[NodeId],
) -> Result<bool, AllocError>
    requires { edges.now ≡ program.now }
    ensures { IfOk result (λ kept. IsTrue kept → AllFall program.now table.now firsts.now seconds.now) }
{
    let least = extremes_of(alloc, program, &table, Extreme::Least, firsts, places)?;
    let greatest = extremes_of(alloc, program, &table, Extreme::Greatest, seconds, places)?;
    Ok(all_fall(edges, table, least.as_slice(), greatest.as_slice()))
}

// Whether a table falls from each first node to each concurrent second one.
fn all_fall(edges: &Edges, table: &[u32], firsts: &[NodeId], seconds: &[NodeId]) -> bool
    ensures { IsTrue result → AllFall edges.now table.now firsts.now seconds.now }
{
    for m in firsts {
        if !falls_to_all(edges, table, *m, seconds) {
            return false;
        }
    }
    true
}

// Whether a table falls from a node to each concurrent one of these. A node without company has none.
fn falls_to_all(edges: &Edges, table: &[u32], m: NodeId, seconds: &[NodeId]) -> bool
    ensures { IsTrue result → ((n : ℕ) → Contains seconds.now n → FallsTo edges.now table.now m n) }
{
    if !edges.has_company(m) {
        return true;
    }
    for n in seconds {
        if !falls_to(edges, table, m, *n) {
            return false;
        }
    }
    true
}

// Whether a table falls from a node to another, if they are concurrent.
fn falls_to(edges: &Edges, table: &[u32], m: NodeId, n: NodeId) -> bool
    ensures { IsTrue result ↔ FallsTo edges.now table.now m n }
{
    entry(table, n) < entry(table, m) || !edges.are_concurrent(m, n)
}
