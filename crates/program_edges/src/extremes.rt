//! Of a list of nodes, one for each thread that owns some of them: one of the least number in a table, or of the
//! greatest.

ghost use Rattle.std.specs.Prelude.{◌≡◌, ◌↔◌, ℕ, IfOk, OnOk, IfSome, IsTrue};
ghost use Rattle.program_edges.specs.Extremes.{StandFor};
ghost use Rattle.program_edges.specs.Inside.TakingIn.{Beats, OwnedAlike, TakesIn};

use crate::noted_places::NotedPlaces;
use crate::numbers::Numbers;
use sc_graph::{NodeId, Program};
use sqlite_items::Items;
use std::alloc::{AllocError, Global};

/// A way to choose a node by its number.
#[derive(Clone, Copy)]
pub enum Extreme {
    Least,
    Greatest,
}

/// Of these nodes one for each thread that owns some of them. Any places serve as a hint. Err: memory was refused.
pub fn extremes_of<N: Numbers>(
    alloc: Global,
    program: &Program,
    numbers: &N,
    extreme: Extreme,
    nodes: &[NodeId],
    places: &mut NotedPlaces,
) -> Result<Items<NodeId>, AllocError>
    ensures { IfOk result (StandFor program.now (N.table numbers.now) extreme nodes.now) }
{
    let mut chosen = Items::new(alloc);
    for n in nodes {
        take_in(&mut chosen, places, program, numbers, extreme, *n)?;
    }
    Ok(chosen)
}

// Takes in a node: in the place of one of its thread, where it beats that one; else at the end, where there is none of
// its thread at the place that is noted for it.
fn take_in<N: Numbers>(
    chosen: &mut Items<NodeId>,
    places: &mut NotedPlaces,
    program: &Program,
    numbers: &N,
    extreme: Extreme,
    n: NodeId,
) -> Result<(), AllocError>
    ensures { OnOk result (TakesIn program.now (N.table numbers.now) extreme chosen.old chosen.new n) }
{
    let owner = program.owner(n);
    let at = places.of(owner);
    match owned_alike(program, chosen.as_slice(), at, n) {
        Some(other) => {
            if beats(numbers, extreme, n, other) {
                chosen.set(at, n);
            }
            Ok(())
        }
        None => {
            places.note(owner, chosen.len());
            chosen.push(n)
        }
    }
}

// The node at a place of a list, where the thread of another owns it.
fn owned_alike(program: &Program, list: &[NodeId], at: usize, n: NodeId) -> Option<NodeId>
    ensures { IfSome result (OwnedAlike program.now list.now at n) }
{
    match list.get(at) {
        Some(other) => {
            if program.owner(*other) == program.owner(n) {
                Some(*other)
            } else {
                None
            }
        }
        None => None,
    }
}

// Whether a node is to be taken in the place of another.
fn beats<N: Numbers>(numbers: &N, extreme: Extreme, n: NodeId, other: NodeId) -> bool
    ensures { IsTrue result ↔ Beats (N.table numbers.now) extreme n other }
{
    match extreme {
        Extreme::Least => numbers.number(n) < numbers.number(other),
        Extreme::Greatest => numbers.number(other) < numbers.number(n),
    }
}
