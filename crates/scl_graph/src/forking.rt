//! The threads that a text forks, each with its nodes.

ghost use Rattle.std.specs.Prelude.{◌≡◌, [], ◌∷◌, IfOk, map};
ghost use Rattle.scl_graph.specs.Counting.{counts_of, counts_of_all};
ghost use Rattle.scl_graph.specs.Inside.Forking.{AreForkedLaid, IsThreadLaid};
ghost use Rattle.scl_graph.specs.Inside.Laying.{HasRoom};
ghost use Rattle.scl_graph.specs.Inside.Tallies.{tally_of};

use crate::fault::GraphFault;
use crate::laid_threads::Laid;
use crate::laying::lay;
use crate::numbers::NodeNumbers;
use crate::steps::lay_end;
use crate::tallies::{Tally, known_counts, known_statement_counts};
use crate::way::{Targets, Way, way_of};
use sc_graph::{Thread, ThreadId};
use scl::Statement;
use std::alloc::Global;

/// Puts the threads that a thread forks in these statements behind the others, and their nodes. Err:
/// memory was refused, or an expression has more than 64 operations.
#[cycle(forking)]
#[tactic(auto, using(crate::proofs::Tallied::tally_at, crate::proofs::Tallied::within_tallies))]
pub(crate) fn lay_forked<T: Targets>(
    alloc: Global,
    statements: &[Statement],
    tallies: &[Tally],
    owner: ThreadId,
    at: NodeNumbers,
    targets: &T,
    laid: &mut Laid,
) -> Result<(), GraphFault>
    requires room { HasRoom at (counts_of_all statements.now) }
    requires tallied { tallies.now ≡ map tally_of statements.now }
    ensures { IfOk result (λ _. AreForkedLaid (T.target targets.now) owner statements.now at
        laid.old.threads laid.new.threads laid.old.nodes laid.new.nodes) }
{
    let mut here = at;
    for (i, statement) in statements.iter().enumerate() {
        let tally = &tallies[i];
        lay_forked_by(alloc, statement, tally, owner, here, targets, laid)?;
        here = here.past(known_statement_counts(statement, tally));
    }
    Ok(())
}

// Puts the threads that a statement forks behind the others, and their nodes.
#[cycle(forking)]
#[tactic(auto, using(crate::proofs::Tallied::first_part, crate::proofs::Tallied::second_part))]
fn lay_forked_by<T: Targets>(
    alloc: Global,
    statement: &Statement,
    tally: &Tally,
    owner: ThreadId,
    at: NodeNumbers,
    targets: &T,
    laid: &mut Laid,
) -> Result<(), GraphFault>
    requires room { HasRoom at (counts_of statement.now) }
    requires tallied { tally.now ≡ tally_of statement.now }
    ensures { IfOk result (λ _. AreForkedLaid (T.target targets.now) owner
        (statement.now ∷ []) at laid.old.threads laid.new.threads laid.old.nodes laid.new.nodes) }
{
    match statement {
        Statement::Assign { .. } => Ok(()),
        Statement::Label(_) => Ok(()),
        Statement::Goto(_) => Ok(()),
        Statement::Pause => Ok(()),
        Statement::If {
            test: _,
            first,
            second,
        } => {
            let first = first.as_slice();
            let second = second.as_slice();
            let inside = at.after_a_node();
            let further = inside.past(known_counts(first, tally.part(0)));
            lay_forked(alloc, first, tally.part(0), owner, inside, targets, laid)?;
            lay_forked(alloc, second, tally.part(1), owner, further, targets, laid)
        }
        Statement::Fork { branches } => {
            let bodies = branches.as_slice();
            let mut here = at;
            for (place, branch) in bodies.iter().enumerate() {
                let body = branch.as_slice();
                let tallies = tally.part(place);
                let counts = known_counts(body, tallies);
                let inside = here.inside(counts);
                let thread = here.thread;
                lay_thread(
                    alloc,
                    body,
                    tallies,
                    Some(owner),
                    thread,
                    inside,
                    targets,
                    laid,
                )?;
                lay_forked(alloc, body, tallies, thread, inside, targets, laid)?;
                here = here.past_branch(counts);
            }
            Ok(())
        }
    }
}

/// Puts a thread with this text behind the others, and its nodes, without the threads that it forks.
pub(crate) fn lay_thread<T: Targets>(
    alloc: Global,
    body: &[Statement],
    tallies: &[Tally],
    parent: Option<ThreadId>,
    thread: ThreadId,
    at: NodeNumbers,
    targets: &T,
    laid: &mut Laid,
) -> Result<(), GraphFault>
    requires room { HasRoom at (counts_of_all body.now) }
    requires tallied { tallies.now ≡ map tally_of body.now }
    ensures { IfOk result (λ _. IsThreadLaid (T.target targets.now) parent thread body.now at
        laid.old.threads laid.new.threads laid.old.nodes laid.new.nodes) }
{
    let end = at.node + known_counts(body, tallies).nodes;
    let behind = Way::At(end);
    let entry = targets.target(&way_of(body, at.node, &behind));
    laid.threads.push(Thread { parent, entry })?;
    lay(
        alloc,
        body,
        tallies,
        thread,
        at,
        &behind,
        targets,
        &mut laid.nodes,
    )?;
    lay_end(thread, &mut laid.nodes)
}
