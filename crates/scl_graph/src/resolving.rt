//! The labels of a program are resolved: each goto's way is followed to its end.

ghost use Rattle.std.specs.Prelude.{◌≡◌, [], IfOk, MatchResult, map};
ghost use Rattle.scl_graph.specs.Inside.Gathering.{IsThreadGathered};
ghost use Rattle.scl_graph.specs.Inside.Resolving.{IsResolved, IsUnresolved, last_node, small, start};
ghost use Rattle.scl_graph.specs.Inside.Settling.{least_name, node_at, node_behind};
ghost use Rattle.scl_graph.specs.Inside.Tallies.{tally_of};
ghost use Rattle.scl_graph.specs.Inside.Totals.{AreCounted, totals_of_all};

use crate::fault::GraphFault;
use crate::gathering::{gather, gather_forked};
use crate::hops::{Hop, at_place, least_goto, settled};
use crate::labels::Labels;
use crate::landing::Landing;
use crate::numbers_ahead::NumbersAhead;
use crate::places::LabelPlaces;
use crate::tallies::Tally;
use crate::totals::Totals;
use crate::way::{Targets, Way};
use sc_graph::{COUNT_LIMIT, NodeId};
use sc_values::Name;
use scl::Statement;
use std::alloc::{AllocError, Global};

/// The labels of a program, and the node behind each.
#[derive(Drop)]
pub(crate) struct Resolved {
    places: LabelPlaces,
    table: Vec<Hop>,
}

impl Targets for Resolved {
    ghost use Rattle.scl_graph.specs.Inside.Resolving.{leads_by};

    ghost target = { λ r w. leads_by r.places.labels r.table.items w };

    fn target(&self, way: &Way) -> NodeId {
        match way {
            Way::At(node) => *node,
            Way::Jumps(name) => small(self.node_behind(name)),
        }
    }
}

impl Resolved {
    // The node behind a label.
    fn node_behind(&self, name: &Name) -> u64
        ensures { result ≡ node_behind self.now.places.labels self.now.table.items name.now }
    {
        match self.places.place(name) {
            Some(place) => node_at(at_place(self.table.as_slice(), place)),
            None => 0,
        }
    }
}

// The node that stands there, and 0 for a goto.
fn node_at(hop: Hop) -> u64
    ensures { result ≡ node_at hop }
{
    match hop {
        Hop::Node(node) => node,
        Hop::Goto { .. } => 0,
    }
}

// This number of a node, if it is one.
fn small(node: u64) -> NodeId
    ensures { result ≡ small node }
{
    if node <= COUNT_LIMIT as u64 {
        node as NodeId
    } else {
        0
    }
}

/// The labels of a program of these statements, which count this, and the node behind each. Err: a goto
/// leads back to itself, or memory was refused.
pub(crate) fn resolve(
    alloc: Global,
    body: &[Statement],
    tallies: &[Tally],
    totals: Totals,
) -> Result<Resolved, GraphFault>
    requires counted { AreCounted (totals_of_all body.now) }
    requires totals { totals ≡ totals_of_all body.now }
    requires tallied { tallies.now ≡ map tally_of body.now }
    ensures { MatchResult result (λ r. IsResolved body.now (last_node totals) r.places.labels r.table.items)
        (IsUnresolved body.now) }
{
    let labels = labels_of(alloc, body, tallies, totals)?;
    let places = LabelPlaces::of(alloc, labels, totals.jumps > 0)?;
    let table = settled(alloc, places.hops(alloc)?)?;
    match least_name(&places.labels, table.as_slice()) {
        Some(label) => Err(GraphFault::EmptyLoop(label)),
        None => Ok(Resolved { places, table }),
    }
}

// The labels of a program of these statements, which count this.
#[tactic(auto, using(crate::proofs::GatheredBelow::thread_gathered))]
fn labels_of(
    alloc: Global,
    body: &[Statement],
    tallies: &[Tally],
    totals: Totals,
) -> Result<Labels, AllocError>
    requires counted { AreCounted (totals_of_all body.now) }
    requires totals { totals ≡ totals_of_all body.now }
    requires tallied { tallies.now ≡ map tally_of body.now }
    ensures { IfOk result (λ labels. IsThreadGathered body.now (start totals) [] labels) }
{
    let at = NumbersAhead {
        node: 0,
        thread: 1,
        base: totals.nodes + 1,
        goto: 0,
    };
    let mut labels = Labels::none(alloc);
    let end = Landing::Node(totals.nodes);
    gather(body, tallies, at, &end, &mut labels)?;
    gather_forked(body, tallies, at, &mut labels)?;
    Ok(labels)
}

// The label of the goto with the least number in a table.
fn least_name(labels: &Labels, table: &[Hop]) -> Option<Name>
    ensures { result ≡ least_name labels.now table.now }
{
    let (_, place) = least_goto(table)?;
    labels.name(place)
}
