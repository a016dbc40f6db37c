//! Ranks of the nodes that lead to one node: from each of them, but the node itself, an edge leads to
//! one of smaller rank.

ghost use Rattle.std.specs.Prelude.{◌≡◌, ◌≤◌, ◌<◌, ℕ, IfOk, MatchBool, length, slice_index};
ghost use Rattle.least_or_cycle.specs.Inside.Ranking.{AreComplete, AreRanks, RanksBecame, zeros};

use crate::graph::Graph;
use std::alloc::{AllocError, Global};

// Above each rank.
const ANY: u64 = 4294967296;

/// The ranks of the nodes below `count` that lead to the target; 0 for all others. Err: memory was
/// refused.
pub(crate) fn ranks<G: Graph>(
    alloc: Global,
    graph: &G,
    count: u16,
    target: u16,
    order: &[u16],
) -> Result<Vec<u32>, AllocError>
    requires { target < count }
    ensures long { IfOk result (λ ranks. length ranks.items ≡ count) }
    ensures ranks { IfOk result (λ ranks. AreRanks (G.leads graph.now) target ranks.items) }
    ensures complete { IfOk result (λ ranks. AreComplete (G.leads graph.now) ranks.items) }
{
    let mut ranks = vec![in alloc; 0; count as usize]?;
    ranks[target as usize] = 1;
    complete(graph, ranks.as_mut_slice(), count, target, order);
    Ok(ranks)
}

/// Ranks of nodes that lead to the target, found by one look at each node of the order in turn. Err: memory was
/// refused.
pub(crate) fn ranks_along<G: Graph>(
    alloc: Global,
    graph: &G,
    count: u16,
    target: u16,
    order: &[u16],
) -> Result<Vec<u32>, AllocError>
    requires { target < count }
    ensures { IfOk result (λ ranks. AreRanks (G.leads graph.now) target ranks.items) }
{
    let mut ranks = vec![in alloc; 0; count as usize]?;
    ranks[target as usize] = 1;
    rank_along(graph, ranks.as_mut_slice(), count, target, order);
    Ok(ranks)
}

// Ranks all nodes that lead to the target.
fn complete<G: Graph>(graph: &G, ranks: &mut [u32], count: u16, target: u16, order: &[u16])
    requires long { length ranks.old ≡ count }
    requires ranks { AreRanks (G.leads graph.now) target ranks.old }
    ensures ranks { AreRanks (G.leads graph.now) target ranks.new }
    ensures complete { AreComplete (G.leads graph.now) ranks.new }
{
    loop {
        rank_along(graph, ranks, count, target, order);
        if !rank_all(graph, ranks, count, target) {
            return;
        }
    }
}

// Ranks nodes of a list that lead to ranked ones.
fn rank_along<G: Graph>(graph: &G, ranks: &mut [u32], count: u16, target: u16, order: &[u16])
    requires long { length ranks.old ≡ count }
    requires ranks { AreRanks (G.leads graph.now) target ranks.old }
    ensures ranks { AreRanks (G.leads graph.now) target ranks.new }
    ensures more { zeros ranks.new ≤ zeros ranks.old }
{
    for node in order {
        let _ = rank_one(graph, ranks, count, target, *node);
    }
}

// Ranks nodes that lead to ranked ones. False: there were none.
fn rank_all<G: Graph>(graph: &G, ranks: &mut [u32], count: u16, target: u16) -> bool
    requires long { length ranks.old ≡ count }
    requires ranks { AreRanks (G.leads graph.now) target ranks.old }
    ensures { RanksBecame (G.leads graph.now) target (λ m. m < length ranks.old) ranks.old ranks.new result }
{
    let mut more = false;
    for node in 0..count {
        if rank_one(graph, ranks, count, target, node) {
            more = true;
        }
    }
    more
}

// Ranks a node that leads to a ranked one. False: it has a rank, or does not.
fn rank_one<G: Graph>(graph: &G, ranks: &mut [u32], count: u16, target: u16, node: u16) -> bool
    requires long { length ranks.old ≡ count }
    requires ranks { AreRanks (G.leads graph.now) target ranks.old }
    ensures { RanksBecame (G.leads graph.now) target (λ m. m ≡ node) ranks.old ranks.new result }
{
    let at = node as usize;
    if at >= ranks.len() || ranks[at] != 0 {
        return false;
    }
    match graph.towards(ranks, node, ANY) {
        Some(next) => {
            ranks[at] = ranks[next as usize] + 1;
            true
        }
        None => false,
    }
}
