//! The nodes of a thread, in the order of its text.

ghost use Rattle.std.specs.Prelude.{◌≡◌, ◌+◌, ◌≤◌, ◌∷◌, [], IfOk, map};
ghost use Rattle.sc_graph.specs.Limits.{count_limit};
ghost use Rattle.scl_graph.specs.Counting.{AreSmall, branches_counts, counts_of, counts_of_all};
ghost use Rattle.scl_graph.specs.Inside.Laying.{HasRoom, IsLaid, children};
ghost use Rattle.scl_graph.specs.Inside.Tallies.{fork_tally, tally_of};

use crate::fault::GraphFault;
use crate::numbers::NodeNumbers;
use crate::steps::{lay_assignment, lay_fork, lay_pause, lay_test};
use crate::tallies::{Tally, known_counts, known_statement_counts};
use crate::way::{Targets, Way, way_behind, way_of};
use sc_graph::{Node, ThreadId};
use scl::Statement;
use sqlite_items::Items;
use std::alloc::{AllocError, Global};

/// Puts the nodes of a thread for these statements behind the others. Behind them it goes on the way
/// `behind`. A row of labels is looked past once. Err: memory was refused, or an expression has more than 64
/// operations.
#[cycle(laying)]
#[tactic(auto, using(crate::proofs::Tallied::tally_at, crate::proofs::Tallied::within_tallies))]
pub(crate) fn lay<T: Targets>(
    alloc: Global,
    statements: &[Statement],
    tallies: &[Tally],
    owner: ThreadId,
    at: NodeNumbers,
    behind: &Way,
    targets: &T,
    nodes: &mut Items<Node>,
) -> Result<(), GraphFault>
    requires room { HasRoom at (counts_of_all statements.now) }
    requires tallied { tallies.now ≡ map tally_of statements.now }
    ensures { IfOk result
        (λ _. IsLaid (T.target targets.now) owner statements.now at behind.now nodes.old nodes.new) }
{
    let mut here = at;
    let mut ahead = way_of(statements, at.node, behind);
    for (i, statement) in statements.iter().enumerate() {
        let tally = &tallies[i];
        let next = here.past(known_statement_counts(statement, tally));
        let leads = way_behind(statement, &statements[i + 1..], next.node, &ahead, behind);
        lay_statement(alloc, statement, tally, owner, here, &leads, targets, nodes)?;
        ahead = leads;
        here = next;
    }
    Ok(())
}

// Puts the nodes of a thread for a statement behind the others.
#[cycle(laying)]
#[tactic(auto, using(crate::proofs::Tallied::first_part, crate::proofs::Tallied::second_part))]
fn lay_statement<T: Targets>(
    alloc: Global,
    statement: &Statement,
    tally: &Tally,
    owner: ThreadId,
    at: NodeNumbers,
    behind: &Way,
    targets: &T,
    nodes: &mut Items<Node>,
) -> Result<(), GraphFault>
    requires room { HasRoom at (counts_of statement.now) }
    requires tallied { tally.now ≡ tally_of statement.now }
    ensures { IfOk result (λ _. IsLaid (T.target targets.now) owner
        (statement.now ∷ []) at behind.now nodes.old nodes.new) }
{
    match statement {
        Statement::Label(_) => Ok(()),
        Statement::Goto(_) => Ok(()),
        Statement::Assign { variable, value } => {
            lay_assignment(*variable, value, owner, targets.target(behind), nodes)
        }
        Statement::Pause => lay_pause(at.node, owner, targets.target(behind), nodes),
        Statement::If {
            test,
            first,
            second,
        } => {
            let first = first.as_slice();
            let second = second.as_slice();
            let inside = at.after_a_node();
            let further = inside.past(known_counts(first, tally.part(0)));
            let then = targets.target(&way_of(first, inside.node, behind));
            let other = targets.target(&way_of(second, further.node, behind));
            lay_test(test, owner, then, other, nodes)?;
            lay(
                alloc,
                first,
                tally.part(0),
                owner,
                inside,
                behind,
                targets,
                nodes,
            )?;
            lay(
                alloc,
                second,
                tally.part(1),
                owner,
                further,
                behind,
                targets,
                nodes,
            )
        }
        Statement::Fork { branches } => {
            let forked = children_of(alloc, branches.as_slice(), tally, at.thread)?;
            lay_fork(at.node, owner, forked, targets.target(behind), nodes)
        }
    }
}

// The threads of a fork's branches, of which the first has this number.
fn children_of(
    alloc: Global,
    branches: &[Items<Statement>],
    tally: &Tally,
    first: ThreadId,
) -> Result<Items<ThreadId>, AllocError>
    requires small { AreSmall (branches_counts branches.now) }
    requires room { first + (branches_counts branches.now).threads ≤ count_limit }
    requires tallied { tally.now ≡ fork_tally (map (map tally_of) branches.now) }
    ensures { IfOk result (λ threads. threads ≡ children branches.now first) }
{
    let mut threads = Items::new(alloc);
    let mut thread = first;
    for (place, branch) in branches.iter().enumerate() {
        threads.push(thread)?;
        thread += known_counts(branch.as_slice(), tally.part(place)).threads + 1;
    }
    Ok(threads)
}
