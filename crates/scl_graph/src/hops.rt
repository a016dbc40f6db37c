//! Where gotos lead through labels and gotos alone. A table is doubled: what stands behind m gotos from
//! each place gives what stands behind 2 m + 1, so that long chains of gotos take few rounds.

ghost use Rattle.std.specs.Prelude.{◌≡◌, None, IfOk, IsTrue, map};
ghost use Rattle.scl_graph.specs.Inside.Settling.{AreNodes, IsSettled, at_place, better, better_of, further, least};

use std::alloc::{AllocError, Global};

/// What stands at a place.
#[derive(Clone, Copy)]
pub(crate) enum Hop {
    /// The node of this number.
    Node(u64),
    /// The goto of this number in the text, which leads to this place.
    Goto { number: u64, place: usize },
}

/// What stands at a place of a table, and node 0 where there is no such place.
pub(crate) fn at_place(table: &[Hop], place: usize) -> Hop
    ensures { result ≡ at_place table.now place }
{
    match table.get(place) {
        Some(hop) => *hop,
        None => Hop::Node(0),
    }
}

/// What stands behind a goto of a table.
pub(crate) fn further(table: &[Hop], hop: Hop) -> Hop
    ensures { result ≡ further table.now hop }
{
    match hop {
        Hop::Node(node) => Hop::Node(node),
        Hop::Goto { number: _, place } => at_place(table, place),
    }
}

// What stands behind each goto of a table.
fn doubled(alloc: Global, table: &[Hop]) -> Result<Vec<Hop>, AllocError>
    ensures { IfOk result (λ next. next.items ≡ map (further table.now) table.now) }
{
    let mut next = Vec::with_capacity(alloc, table.len())?;
    for hop in table {
        next.push(further(table, *hop))?;
    }
    Ok(next)
}

// Whether nodes alone stand in a table.
fn are_nodes(table: &[Hop]) -> bool
    ensures { IsTrue result → AreNodes table.now }
{
    for hop in table {
        match hop {
            Hop::Node(_) => {}
            Hop::Goto { .. } => return false,
        }
    }
    true
}

/// What stands, for each place, behind as many gotos as there are places, or more. Behind a node stands the node, so
/// that a table of nodes alone is doubled no further.
pub(crate) fn settled(alloc: Global, hops: Vec<Hop>) -> Result<Vec<Hop>, AllocError>
    ensures { IfOk result (λ table. IsSettled hops.items table.items) }
{
    let count = hops.len();
    let mut table = hops;
    let mut gotos: usize = 0;
    while gotos < count {
        if are_nodes(table.as_slice()) {
            return Ok(table);
        }
        table = doubled(alloc, table.as_slice())?;
        gotos = gotos.saturating_add(gotos).saturating_add(1);
    }
    Ok(table)
}

/// The goto with the least number in a table, and the place to which it leads.
pub(crate) fn least_goto(table: &[Hop]) -> Option<(u64, usize)>
    ensures { result ≡ least None table.now }
{
    let mut best = None;
    for hop in table {
        best = better_of(best, *hop);
    }
    best
}

// The better of these.
fn better_of(best: Option<(u64, usize)>, hop: Hop) -> Option<(u64, usize)>
    ensures { result ≡ better_of best hop }
{
    match hop {
        Hop::Node(_) => best,
        Hop::Goto { number, place } => better(best, number, place),
    }
}

// This goto, where its number is less than that of the best one.
fn better(best: Option<(u64, usize)>, number: u64, place: usize) -> Option<(u64, usize)>
    ensures { result ≡ better best number place }
{
    match best {
        Some(known) if known.0 <= number => Some(known),
        _ => Some((number, place)),
    }
}
