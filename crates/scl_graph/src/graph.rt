//! The graph of an SCL program.

ghost use Rattle.std.specs.Prelude.{◌≡◌, [], IfOk, MatchResult, map};
ghost use Rattle.scl_graph.specs.Answers.{IsGraph, LacksGraph};
ghost use Rattle.scl_graph.specs.Counting.{counts_of_all};
ghost use Rattle.scl_graph.specs.Graph.{program_by};
ghost use Rattle.scl_graph.specs.Inside.Laying.{HasRoom};
ghost use Rattle.scl_graph.specs.Inside.Resolving.{AreThreadsLaid, numbered_of, small_start};
ghost use Rattle.scl_graph.specs.Inside.Tallies.{tally_of};

use crate::fault::GraphFault;
use crate::forking::{lay_forked, lay_thread};
use crate::laid_threads::Laid;
use crate::numbers::NodeNumbers;
use crate::resolving::resolve;
use crate::tallies::{Tally, known_counts, tallies_of};
use crate::totals::totals_of;
use crate::way::Targets;
use sc_graph::{Program, Variable};
use scl::{Scl, Statement};
use sqlite_items::Items;
use std::alloc::Global;

/// The graph of a program. Err: E14 with the label of the first goto that leads through labels and gotos alone
/// back to itself; else E07, where the graph has more nodes or threads than an image may; E52.
pub fn graph_of(alloc: Global, scl: &Scl) -> Result<Program, GraphFault>
    ensures { MatchResult result (IsGraph scl.now) (LacksGraph scl.now) }
{
    let body = scl.body.as_slice();
    let Some(totals) = totals_of(body) else {
        return Err(GraphFault::Memory);
    };
    let tallies = tallies_of(alloc, body)?;
    let targets = resolve(alloc, body, tallies.as_slice(), totals)?;
    if !totals.fit_an_image() {
        return Err(GraphFault::Limit);
    }
    let variables = scl.variables.as_slice();
    match lay_program(alloc, variables, body, tallies.as_slice(), &targets) {
        Ok(program) => Ok(program),
        Err(_) => Err(GraphFault::Memory),
    }
}

// The program of these variables and statements, by the targets of its ways.
fn lay_program<T: Targets>(
    alloc: Global,
    variables: &[Variable],
    body: &[Statement],
    tallies: &[Tally],
    targets: &T,
) -> Result<Program, GraphFault>
    requires tallied { tallies.now ≡ map tally_of body.now }
    requires room { HasRoom (small_start (counts_of_all body.now)) (counts_of_all body.now) }
    ensures { IfOk result (λ p. p ≡ program_by (T.target targets.now) (numbered_of variables.now body.now)) }
{
    let mut laid = Laid {
        threads: Items::new(alloc),
        nodes: Items::new(alloc),
    };
    match lay_threads(alloc, body, tallies, targets, &mut laid) {
        Ok(()) => program_of(alloc, variables, laid),
        Err(fault) => {
            drop(laid);
            Err(fault)
        }
    }
}

// Lays the first thread and those below it, each with its nodes.
fn lay_threads<T: Targets>(
    alloc: Global,
    body: &[Statement],
    tallies: &[Tally],
    targets: &T,
    laid: &mut Laid,
) -> Result<(), GraphFault>
    requires tallied { tallies.now ≡ map tally_of body.now }
    requires room { HasRoom (small_start (counts_of_all body.now)) (counts_of_all body.now) }
    requires none { laid.old ≡ record { threads = []; nodes = [] } }
    ensures { IfOk result (λ _. AreThreadsLaid (T.target targets.now) body.now laid.new.threads laid.new.nodes) }
{
    let at = NodeNumbers {
        node: 0,
        thread: 1,
        base: known_counts(body, tallies).nodes + 1,
    };
    lay_thread(alloc, body, tallies, None, 0, at, targets, laid)?;
    lay_forked(alloc, body, tallies, 0, at, targets, laid)
}

// The program of these variables, and of what was laid.
fn program_of(alloc: Global, variables: &[Variable], laid: Laid) -> Result<Program, GraphFault>
    ensures { IfOk result
        (λ p. p ≡ record { variables = variables.now; threads = laid.threads; nodes = laid.nodes }) }
{
    let Laid { threads, nodes } = laid;
    match Items::from_slice(alloc, variables) {
        Ok(variables) => match Program::of(variables, threads, nodes) {
            Ok(program) => Ok(program),
            Err(_) => Err(GraphFault::Limit),
        },
        Err(_) => {
            drop(threads);
            drop(nodes);
            Err(GraphFault::Memory)
        }
    }
}
