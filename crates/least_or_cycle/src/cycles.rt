//! Cycles: closed walks of distinct nodes along edges that do not all weigh nothing.

ghost use Rattle.std.specs.Prelude.{◌≡◌, ◌≤◌, ◌<◌, ◌++◌, ℕ, IfOk, IfSome, MatchOption, drop, length, slice_index, take};
ghost use Rattle.least_or_cycle.specs.Inside.Ranking.{AreRanks, IsCut};
ghost use Rattle.least_or_cycle.specs.Inside.Tracing.{IsLeastAt, IsRound};
ghost use Rattle.least_or_cycle.specs.Walks.{HasRanks, IsCycle, LeadsStrictlyTo};

use crate::graph::Graph;
use crate::ranking::{ranks, ranks_along};
use std::alloc::{AllocError, Global};

/// A cycle along edges from nodes below `count`. None: there are ranks that fall along them all, and
/// so no cycle. The suspects are a hint, for speed alone: nodes of which an edge of weight 1 is likely
/// to lie on a cycle; and so is the order: of two nodes that an edge joins, the second is likely to
/// stand before the first. Err: memory was refused.
pub fn cycle<G: Graph>(
    alloc: Global,
    graph: &G,
    count: u16,
    suspects: &[u16],
    order: &[u16],
) -> Result<Option<Vec<u16>>, AllocError>
    ensures { IfOk result (λ found. MatchOption found (HasRanks (G.leads graph.now) count)
        (λ walk. IsCycle (G.leads graph.now) walk.items)) }
{
    for node in suspects {
        if *node < count {
            match cycle_through(alloc, graph, count, *node, order)? {
                Some(walk) => return Ok(Some(walk)),
                None => {}
            }
        }
    }
    for node in 0..count {
        match cycle_through(alloc, graph, count, node, order)? {
            Some(walk) => return Ok(Some(walk)),
            None => {}
        }
    }
    Ok(None)
}

// A cycle through an edge of weight 1 from a node. None: there is none. Err: memory was refused.
fn cycle_through<G: Graph>(
    alloc: Global,
    graph: &G,
    count: u16,
    node: u16,
    order: &[u16],
) -> Result<Option<Vec<u16>>, AllocError>
    requires { node < count }
    ensures { IfOk result (λ found. MatchOption found (IsCut (G.leads graph.now) count node)
        (λ walk. IsCycle (G.leads graph.now) walk.items)) }
{
    let ranks = ranks(alloc, graph, count, node, order)?;
    match graph.strictly_towards(ranks.as_slice(), node) {
        Some(first) => Ok(Some(closed(alloc, graph, ranks.as_slice(), node, first)?)),
        None => Ok(None),
    }
}

/// A cycle through an edge of weight 1 from one of the suspects, where a look at the nodes of the order, each once
/// and in turn, finds that they lead to the suspect. None: none is found so. Err: memory was refused.
pub fn cycle_along<G: Graph>(
    alloc: Global,
    graph: &G,
    count: u16,
    suspects: &[u16],
    order: &[u16],
) -> Result<Option<Vec<u16>>, AllocError>
    ensures { IfOk result (λ found. IfSome found (λ walk. IsCycle (G.leads graph.now) walk.items)) }
{
    for node in suspects {
        if *node < count {
            let ranks = ranks_along(alloc, graph, count, *node, order)?;
            match graph.strictly_towards(ranks.as_slice(), *node) {
                Some(first) => {
                    return Ok(Some(closed(alloc, graph, ranks.as_slice(), *node, first)?));
                }
                None => {}
            }
        }
    }
    Ok(None)
}

// The cycle from a node of rank 1 to a first one and on along falling ranks, from its least node on.
fn closed<G: Graph>(
    alloc: Global,
    graph: &G,
    ranks: &[u32],
    start: u16,
    first: u16,
) -> Result<Vec<u16>, AllocError>
    requires ranks { AreRanks (G.leads graph.now) start ranks.now }
    requires first { LeadsStrictlyTo (G.leads graph.now) ranks.now start first }
    ensures { IfOk result (λ walk. IsCycle (G.leads graph.now) walk.items) }
{
    let walk = trace(alloc, graph, ranks, start, first)?;
    let at = least_at(walk.as_slice());
    Ok(rotated(alloc, walk.as_slice(), at)?)
}

// The walk from a node of rank 1 to a first one and on along falling ranks, until it closes.
fn trace<G: Graph>(
    alloc: Global,
    graph: &G,
    ranks: &[u32],
    start: u16,
    first: u16,
) -> Result<Vec<u16>, AllocError>
    requires ranks { AreRanks (G.leads graph.now) start ranks.now }
    requires first { LeadsStrictlyTo (G.leads graph.now) ranks.now start first }
    ensures { IfOk result (λ walk. IsRound (G.leads graph.now) walk.items) }
{
    let mut walk = Vec::new(alloc);
    walk.push(start)?;
    let mut at = first;
    while at != start {
        walk.push(at)?;
        match graph.towards(ranks, at, u64::from(ranks[at as usize])) {
            Some(next) => at = next,
            None => unreachable!(),
        }
    }
    Ok(walk)
}

// The place of a least number of a list.
fn least_at(walk: &[u16]) -> usize
    requires { 0 < length walk.now }
    ensures { IsLeastAt walk.now result }
{
    let mut least = 0;
    for (i, node) in walk.iter().enumerate() {
        if *node < walk[least] {
            least = i;
        }
    }
    least
}

// The list from a place on, and then what stands before the place.
fn rotated(alloc: Global, walk: &[u16], at: usize) -> Result<Vec<u16>, AllocError>
    requires { at ≤ length walk.now }
    ensures { IfOk result (λ turned. turned.items ≡ drop at walk.now ++ take at walk.now) }
{
    let mut turned = walk[at..].to_vec(alloc)?;
    turned.extend_from_slice(&walk[..at])?;
    Ok(turned)
}
