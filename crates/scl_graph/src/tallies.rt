//! What statements count, tallied once, from below: no list is counted again where it stands in another.

ghost use Rattle.std.specs.Prelude.{◌≡◌, [], IfOk, map};
ghost use Rattle.scl_graph.specs.Counting.{AreSmall, counts_of, counts_of_all};
ghost use Rattle.scl_graph.specs.Inside.Tallies.{branches_total, fork_tally, if_tally, of_nodes, tallied, total};
ghost use Rattle.scl_graph.specs.Inside.Tallies.{part, sizes_of, tally_of};
ghost use Rattle.scl_graph.specs.Inside.Totals.{AreCounted, sum, totals_of, totals_of_all};
ghost use Rattle.scl_graph.specs.declared.tallies.Tally.TheViews.{out-Tally};

use crate::numbers::NodeCounts;
use crate::totals::Totals;
use scl::Statement;
use sqlite_items::Items;
use std::alloc::{AllocError, Global};

/// What a statement counts, and the tallies of the statements in each of its lists.
#[derive(Drop)]
pub(crate) struct Tally {
    totals: Totals,
    parts: Items<Items<Tally>>,
}

impl Tally {
    /// The tallies of the list of this number; none where there is no such list.
    pub(crate) fn part(&self, at: usize) -> &[Tally]
        ensures { result.now ≡ part self.now at }
    {
        match self.parts.get(at) {
            Some(part) => part.as_slice(),
            None => &[],
        }
    }
}

/// The tallies of statements. Err: memory was refused.
#[cycle(tallying)]
pub(crate) fn tallies_of(
    alloc: Global,
    statements: &[Statement],
) -> Result<Items<Tally>, AllocError>
    requires { AreCounted (totals_of_all statements.now) }
    ensures { IfOk result (λ tallies. tallies ≡ map tally_of statements.now) }
{
    let mut tallies = Vec::with_capacity(alloc, statements.len())?;
    for statement in statements {
        tallies.push(tally_of(alloc, statement)?)?;
    }
    Ok(Items::from_vec(tallies))
}

// The tally of a statement.
#[cycle(tallying)]
fn tally_of(alloc: Global, statement: &Statement) -> Result<Tally, AllocError>
    requires { AreCounted (totals_of statement.now) }
    ensures { IfOk result (λ tally. tally ≡ tally_of statement.now) }
{
    match statement {
        Statement::Label(_) => Ok(single(alloc, Totals::none())),
        Statement::Goto(_) => Ok(single(alloc, Totals::goto())),
        Statement::Assign { .. } => Ok(single(alloc, Totals::nodes(1))),
        Statement::Pause => Ok(single(alloc, Totals::nodes(2))),
        Statement::If {
            test: _,
            first,
            second,
        } => {
            let first = tallies_of(alloc, first.as_slice())?;
            let second = tallies_of(alloc, second.as_slice())?;
            tally_of_if(alloc, first, second)
        }
        Statement::Fork { branches } => {
            let mut parts = Items::new(alloc);
            for branch in branches.as_slice() {
                parts.push(tallies_of(alloc, branch.as_slice())?)?;
            }
            Ok(tally_of_fork(parts))
        }
    }
}

// That of a statement without lists.
fn single(alloc: Global, totals: Totals) -> Tally
    ensures { result ≡ tallied totals [] }
{
    Tally {
        totals,
        parts: Items::new(alloc),
    }
}

// That of an if of these lists.
fn tally_of_if(
    alloc: Global,
    first: Items<Tally>,
    second: Items<Tally>,
) -> Result<Tally, AllocError>
    requires { AreCounted (sum (of_nodes 1) (sum (total first) (total second))) }
    ensures { IfOk result (λ tally. tally ≡ if_tally first second) }
{
    let inside = total(first.as_slice()).and(total(second.as_slice()));
    let totals = Totals::nodes(1).and(inside);
    let mut parts = Items::new(alloc);
    parts.push(first)?;
    parts.push(second)?;
    Ok(Tally { totals, parts })
}

// That of a fork of these branches.
fn tally_of_fork(parts: Items<Items<Tally>>) -> Tally
    requires { AreCounted (sum (of_nodes 2) (branches_total parts)) }
    ensures { result ≡ fork_tally parts }
{
    let totals = Totals::nodes(2).and(branches_total(parts.as_slice()));
    Tally { totals, parts }
}

// What the branches of a fork count.
fn branches_total(branches: &[Items<Tally>]) -> Totals
    requires { AreCounted (branches_total branches.now) }
    ensures { result ≡ branches_total branches.now }
{
    let mut counted = Totals::none();
    for branch in branches {
        counted = counted.and(total(branch.as_slice()).of_branch());
    }
    counted
}

// What statements count that have these tallies.
fn total(tallies: &[Tally]) -> Totals
    requires { AreCounted (total tallies.now) }
    ensures { result ≡ total tallies.now }
{
    let mut counted = Totals::none();
    for tally in tallies {
        counted = counted.and(tally.totals);
    }
    counted
}

// The same, in the numbers that the graph has room for.
fn sizes(tallies: &[Tally]) -> NodeCounts
    requires { AreSmall (sizes_of (total tallies.now)) }
    ensures { result ≡ sizes_of (total tallies.now) }
{
    let mut counted = NodeCounts::none();
    for tally in tallies {
        counted = counted.and(NodeCounts::of(tally.totals));
    }
    counted
}

/// What these statements count, by their tallies. The statements are named for the contract alone, which says again
/// what it asks for, since callers go on with both.
#[tactic(auto, using(crate::proofs::Tallied::total_is))]
pub(crate) fn known_totals(_statements: &[Statement], tallies: &[Tally]) -> Totals
    requires tallied { tallies.now ≡ map tally_of _statements.now }
    requires counted { AreCounted (totals_of_all _statements.now) }
    ensures totals { result ≡ totals_of_all _statements.now }
    ensures tallied { tallies.now ≡ map tally_of _statements.now }
{
    total(tallies)
}

/// What a statement counts, by its tally.
#[tactic(auto, using(crate::proofs::Tallied::tally_totals))]
pub(crate) fn known_statement_totals(_statement: &Statement, tally: &Tally) -> Totals
    requires { tally.now ≡ tally_of _statement.now }
    ensures { result ≡ totals_of _statement.now }
{
    tally.totals
}

/// What these statements count, which is small, by their tallies; and again what is asked for.
#[tactic(auto, using(crate::proofs::Tallied::total_is))]
pub(crate) fn known_counts(_statements: &[Statement], tallies: &[Tally]) -> NodeCounts
    requires tallied { tallies.now ≡ map tally_of _statements.now }
    requires small { AreSmall (counts_of_all _statements.now) }
    ensures counts { result ≡ counts_of_all _statements.now }
    ensures tallied { tallies.now ≡ map tally_of _statements.now }
{
    sizes(tallies)
}

/// What a statement counts, which is small, by its tally.
#[tactic(auto, using(crate::proofs::Tallied::tally_totals))]
pub(crate) fn known_statement_counts(_statement: &Statement, tally: &Tally) -> NodeCounts
    requires tallied { tally.now ≡ tally_of _statement.now }
    requires small { AreSmall (counts_of _statement.now) }
    ensures { result ≡ counts_of _statement.now }
{
    NodeCounts::of(tally.totals)
}
