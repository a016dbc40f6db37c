//! The places of labels, by their names.

ghost use Rattle.std.specs.Prelude.{◌≡◌, ℕ, List, IfOk};
ghost use Rattle.std.specs.BTreeMap as tree;
ghost use Rattle.std.specs.Cmp.Lexicographic.{slice_cmp};
ghost use Rattle.std.specs.Ordering.{nat_cmp};
ghost use Rattle.scl_graph.specs.Inside.Gathering.{place_of};
ghost use Rattle.scl_graph.specs.Inside.Settling.{ArePlaces, hop_of, hop_to, hops_of};

use crate::hops::Hop;
use crate::labels::Labels;
use crate::landing::Landing;
use sc_values::Name;
use std::alloc::{AllocError, Global};
use std::collections::BTreeMap;

/// Labels, and a table of their places by their names, where one was made. It is in the order of the names, so that
/// no names can crowd it.
#[derive(Drop)]
pub(crate) struct LabelPlaces {
    pub(crate) labels: Labels,
    table: Option<BTreeMap<Name, usize>>,
    ghost same: { ArePlaces labels table },
}

impl LabelPlaces {
    /// The places of these labels. Where none is looked up, no table is made.
    pub(crate) fn of(
        alloc: Global,
        labels: Labels,
        are_sought: bool,
    ) -> Result<LabelPlaces, AllocError>
        ensures { IfOk result (λ places. places.labels ≡ labels) }
    {
        let table = if are_sought {
            Some(in_order(alloc, labels.as_slice())?)
        } else {
            None
        };
        Ok(LabelPlaces { labels, table })
    }

    /// What stands at each place.
    pub(crate) fn hops(&self, alloc: Global) -> Result<Vec<Hop>, AllocError>
        ensures { IfOk result (λ hops. hops.items ≡ hops_of self.now.labels) }
    {
        let labels = self.labels.as_slice();
        let mut hops = Vec::with_capacity(alloc, labels.len())?;
        for label in labels {
            hops.push(self.hop(&label.1))?;
        }
        Ok(hops)
    }

    // A goto leads to the place of its label, and to node 0 where there is no such label.
    fn hop(&self, landing: &Landing) -> Hop
        ensures { result ≡ hop_of self.now.labels landing.now }
    {
        match landing {
            Landing::Node(node) => Hop::Node(*node),
            Landing::Goto { number, label } => hop_to(*number, self.place(label)),
        }
    }

    /// The place of a label.
    pub(crate) fn place(&self, name: &Name) -> Option<usize>
        ensures { result ≡ place_of self.now.labels name.now }
    {
        match &self.table {
            Some(table) => table.get(name).copied(),
            None => place_among(self.labels.as_slice(), name),
        }
    }
}

// The goto of this number to a place.
fn hop_to(number: u64, place: Option<usize>) -> Hop
    ensures { result ≡ hop_to number place }
{
    match place {
        Some(place) => Hop::Goto { number, place },
        None => Hop::Node(0),
    }
}

// The place of a label, of which each is looked at in turn.
fn place_among(labels: &[(Name, Landing)], name: &Name) -> Option<usize>
    ensures { result ≡ place_of labels.now name.now }
{
    for (place, label) in labels.iter().enumerate() {
        if *name == label.0 {
            return Some(place);
        }
    }
    None
}

// Of equal labels the first has the last word, so the last goes in first.
fn in_order(alloc: Global, labels: &[(Name, Landing)]) -> Result<BTreeMap<Name, usize>, AllocError>
    ensures { IfOk result (λ table. (q : List ℕ) → tree.get (slice_cmp nat_cmp) table q ≡ place_of labels.now q) }
{
    let mut table = BTreeMap::new(alloc);
    let mut left = labels.len();
    while left > 0 {
        left -= 1;
        table.insert(labels[left].0, left)?;
    }
    Ok(table)
}
