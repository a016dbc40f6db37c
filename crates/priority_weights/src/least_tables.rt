//! The least tables of a program, table by table.

ghost use Rattle.std.specs.Prelude.{◌≡◌, ◌≤◌, IfOk, ℕ, Err, length, slice_index};
ghost use Rattle.least_or_cycle.specs.Least.{IsLeast, IsWithin};
ghost use Rattle.least_or_cycle.specs.Walks.{Falls, HasRanks};
ghost use Rattle.sc_graph.specs.Limits.{budget_limit};
ghost use Rattle.sc_graph.specs.Valid.{IsFormed};
ghost use Rattle.priority_weights.specs.Edges.{InOrder, IsInstantLoop, IsOrderCycle, HasNoWalk};
ghost use Rattle.priority_weights.specs.Inside.Entries.{BitKept};
ghost use Rattle.priority_weights.specs.Inside.Falling.{IsFalling};
ghost use Rattle.priority_weights.specs.Inside.Next.{LeadsOn};
ghost use Rattle.priority_weights.specs.LeastTables.{AreLeast};
ghost use Rattle.priority_weights.specs.declared.fault.TablesFault.TheVariants.{Cyclic, InstantLoop};

use crate::assembling::assembled;
use crate::bounds::bounds;
use crate::ends::end_bits;
use crate::falling::Falling;
use crate::fault::TablesFault;
use crate::going_on::going_on_ranks;
use crate::hints::{Search, end_order};
use crate::order::priorities;
use crate::weights::weights;
use conflict_edges::Edges;
use sc_graph::{NodeId, Program, Tables};
use sqlite_items::Items;
use std::alloc::{AllocError, Global};

/// The least tables of a formed program, whose protocol edges are given; the budget is one that an image may have.
/// `InstantLoop`: a walk along which threads go on within one tick closes. `Cyclic`: none does, and one along
/// instantaneous and protocol edges closes, with a protocol edge. Each names such a walk: distinct nodes from the
/// least one on, along edges that close from the last to the first. `Memory`: memory was refused.
pub fn tables(alloc: Global, program: &Program, edges: &Edges) -> Result<Tables, TablesFault>
    requires formed { IsFormed program.now }
    requires edges { edges.now ≡ program.now }
    ensures least { IfOk result (AreLeast program.now) }
    ensures budget { IfOk result (λ q. q.budget ≤ budget_limit) }
    ensures no_walk { IfOk result (λ _. HasNoWalk program.now) }
    ensures instant_loop { (walk : _) → result ≡ Err (InstantLoop walk) → IsInstantLoop program.now walk }
    ensures cyclic { (walk : _) → result ≡ Err (Cyclic walk) → IsOrderCycle program.now walk }
    ensures no_loop { (walk other : _) → result ≡ Err (Cyclic walk) → ¬ IsInstantLoop program.now other }
{
    let ends = least_ends(alloc, program)?;
    let going_on = Search::of_going_on(alloc, program, ends.as_slice())?;
    match going_on_ranks(alloc, program, ends.as_slice(), going_on.hints())? {
        Falling::Cycle(walk) => Err(TablesFault::InstantLoop(Items::from_vec(walk))),
        Falling::Table(_ranks) => {
            tables_in_order(alloc, program, edges, ends.as_slice(), going_on.order())
        }
    }
}

// The least end bits. Err: memory was refused.
fn least_ends(alloc: Global, program: &Program) -> Result<Vec<u32>, AllocError>
    ensures { IfOk result (λ ends. IsLeast (BitKept program.now) (length program.now.nodes) ends.items) }
{
    let order = end_order(alloc, program)?;
    end_bits(alloc, program, order.as_slice())
}

// The least priorities, or a cycle. Err: memory was refused.
fn least_priorities(alloc: Global, program: &Program, edges: &Edges) -> Result<Falling, AllocError>
    requires formed { IsFormed program.now }
    requires edges { edges.now ≡ program.now }
    ensures { IfOk result (IsFalling (InOrder program.now) (length program.now.nodes)) }
{
    let search = Search::of_order(alloc, program, edges)?;
    priorities(alloc, program, edges, search.hints())
}

// The tables of a program without instant loops, by its end bits. The order is a hint for weights.
fn tables_in_order(
    alloc: Global,
    program: &Program,
    edges: &Edges,
    ends: &[u32],
    order: &[NodeId],
) -> Result<Tables, TablesFault>
    requires formed { IsFormed program.now }
    requires edges { edges.now ≡ program.now }
    requires ends { IsLeast (BitKept program.now) (length program.now.nodes) ends.now }
    requires ranks { HasRanks (LeadsOn program.now (slice_index ends.now)) (length program.now.nodes) }
    requires no_loop { (walk : _) → ¬ IsInstantLoop program.now walk }
    ensures least { IfOk result (AreLeast program.now) }
    ensures budget { IfOk result (λ q. q.budget ≤ budget_limit) }
    ensures no_walk { IfOk result (λ _. HasNoWalk program.now) }
    ensures instant_loop { (walk : _) → result ≡ Err (InstantLoop walk) → IsInstantLoop program.now walk }
    ensures cyclic { (walk : _) → result ≡ Err (Cyclic walk) → IsOrderCycle program.now walk }
    ensures no_loop { (walk other : _) → result ≡ Err (Cyclic walk) → ¬ IsInstantLoop program.now other }
{
    match least_priorities(alloc, program, edges)? {
        Falling::Cycle(walk) => Err(TablesFault::Cyclic(Items::from_vec(walk))),
        Falling::Table(priorities) => {
            Ok(weighed(alloc, program, ends, order, priorities.as_slice())?)
        }
    }
}

// The tables of these end bits and priorities. Err: memory was refused.
fn weighed(
    alloc: Global,
    program: &Program,
    ends: &[u32],
    order: &[NodeId],
    priorities: &[u32],
) -> Result<Tables, AllocError>
    requires formed { IsFormed program.now }
    requires ends { IsLeast (BitKept program.now) (length program.now.nodes) ends.now }
    requires ranks { HasRanks (LeadsOn program.now (slice_index ends.now)) (length program.now.nodes) }
    requires order { IsLeast (Falls (InOrder program.now)) (length program.now.nodes) priorities.now }
    requires within { IsWithin (length program.now.nodes) (length program.now.nodes) (slice_index priorities.now) }
    ensures least { IfOk result (AreLeast program.now) }
    ensures budget { IfOk result (λ q. q.budget ≤ budget_limit) }
{
    let weights = weights(alloc, program, ends, order)?;
    let bounds = bounds(alloc, program, weights.as_slice())?;
    assembled(alloc, program, ends, priorities, weights.as_slice(), bounds)
}
