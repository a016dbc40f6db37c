//! The labels of a text are gathered, each with what stands behind it.

ghost use Rattle.std.specs.Prelude.{◌≡◌, [], ◌∷◌, IfOk, map};
ghost use Rattle.scl.specs.declared.statement.Statement.TheViews.{out-Statement};
ghost use Rattle.scl_graph.specs.Inside.Gathering.{AreForkedGathered, IsGathered, landing_behind};
ghost use Rattle.scl_graph.specs.Inside.Tallies.{tally_of};
ghost use Rattle.scl_graph.specs.Inside.Totals.{HasRoom, totals_of, totals_of_all};

use crate::labels::Labels;
use crate::landing::{Landing, landing_of};
use crate::numbers_ahead::NumbersAhead;
use crate::tallies::{Tally, known_statement_totals, known_totals};
use scl::Statement;
use std::alloc::AllocError;

/// Notes the labels of a thread in these statements, behind which `behind` stands. A row of labels is
/// looked past once.
#[cycle(gathering)]
#[tactic(auto, using(crate::proofs::Tallied::tally_at, crate::proofs::Tallied::within_tallies))]
pub(crate) fn gather(
    statements: &[Statement],
    tallies: &[Tally],
    at: NumbersAhead,
    behind: &Landing,
    labels: &mut Labels,
) -> Result<(), AllocError>
    requires room { HasRoom at (totals_of_all statements.now) }
    requires tallied { tallies.now ≡ map tally_of statements.now }
    ensures { IfOk result (λ _. IsGathered statements.now at behind.now labels.old labels.new) }
{
    let mut here = at;
    let mut ahead = landing_of(statements, at.node, at.goto, behind);
    for (i, statement) in statements.iter().enumerate() {
        let tally = &tallies[i];
        let next = here.past(known_statement_totals(statement, tally));
        let leads = landing_behind(statement, &statements[i + 1..], next, &ahead, behind);
        gather_statement(statement, tally, here, &leads, labels)?;
        ahead = leads;
        here = next;
    }
    Ok(())
}

// What stands behind a statement, at which `ahead` stands: at the rest, whose first numbers are `next`.
fn landing_behind(
    statement: &Statement,
    rest: &[Statement],
    next: NumbersAhead,
    ahead: &Landing,
    behind: &Landing,
) -> Landing
    ensures { result ≡ landing_behind (out-Statement statement.now) rest.now next ahead.now behind.now }
{
    match statement {
        Statement::Label(_) => *ahead,
        _ => landing_of(rest, next.node, next.goto, behind),
    }
}

// Notes the labels of a thread in a statement, behind which `behind` stands.
#[cycle(gathering)]
#[tactic(auto, using(crate::proofs::Tallied::first_part, crate::proofs::Tallied::second_part))]
fn gather_statement(
    statement: &Statement,
    tally: &Tally,
    at: NumbersAhead,
    behind: &Landing,
    labels: &mut Labels,
) -> Result<(), AllocError>
    requires room { HasRoom at (totals_of statement.now) }
    requires tallied { tally.now ≡ tally_of statement.now }
    ensures { IfOk result (λ _. IsGathered (statement.now ∷ []) at behind.now labels.old labels.new) }
{
    match statement {
        Statement::Assign { .. } => Ok(()),
        Statement::Label(name) => labels.note(*name, *behind),
        Statement::Goto(_) => Ok(()),
        Statement::Pause => Ok(()),
        Statement::If {
            test: _,
            first,
            second,
        } => {
            let first = first.as_slice();
            let second = second.as_slice();
            let inside = at.after_a_node();
            let further = inside.past(known_totals(first, tally.part(0)));
            gather(first, tally.part(0), inside, behind, labels)?;
            gather(second, tally.part(1), further, behind, labels)
        }
        Statement::Fork { .. } => Ok(()),
    }
}

/// Notes the labels of the threads that are forked in these statements.
#[cycle(gathering_forked)]
#[tactic(auto, using(crate::proofs::Tallied::tally_at, crate::proofs::Tallied::within_tallies))]
pub(crate) fn gather_forked(
    statements: &[Statement],
    tallies: &[Tally],
    at: NumbersAhead,
    labels: &mut Labels,
) -> Result<(), AllocError>
    requires room { HasRoom at (totals_of_all statements.now) }
    requires tallied { tallies.now ≡ map tally_of statements.now }
    ensures { IfOk result (λ _. AreForkedGathered statements.now at labels.old labels.new) }
{
    let mut here = at;
    for (i, statement) in statements.iter().enumerate() {
        let tally = &tallies[i];
        gather_forked_by(statement, tally, here, labels)?;
        here = here.past(known_statement_totals(statement, tally));
    }
    Ok(())
}

// Notes the labels of the threads that a statement forks.
#[cycle(gathering_forked)]
#[tactic(auto, using(crate::proofs::Tallied::first_part, crate::proofs::Tallied::second_part))]
fn gather_forked_by(
    statement: &Statement,
    tally: &Tally,
    at: NumbersAhead,
    labels: &mut Labels,
) -> Result<(), AllocError>
    requires room { HasRoom at (totals_of statement.now) }
    requires tallied { tally.now ≡ tally_of statement.now }
    ensures { IfOk result (λ _. AreForkedGathered (statement.now ∷ []) at labels.old labels.new) }
{
    match statement {
        Statement::Assign { .. } => Ok(()),
        Statement::Label(_) => Ok(()),
        Statement::Goto(_) => Ok(()),
        Statement::Pause => Ok(()),
        Statement::If {
            test: _,
            first,
            second,
        } => {
            let first = first.as_slice();
            let second = second.as_slice();
            let inside = at.after_a_node();
            let further = inside.past(known_totals(first, tally.part(0)));
            gather_forked(first, tally.part(0), inside, labels)?;
            gather_forked(second, tally.part(1), further, labels)
        }
        Statement::Fork { branches } => {
            let bodies = branches.as_slice();
            let mut here = at;
            for (place, branch) in bodies.iter().enumerate() {
                let body = branch.as_slice();
                let tallies = tally.part(place);
                let totals = known_totals(body, tallies);
                let inside = here.inside(totals);
                let end = Landing::Node(inside.node + totals.nodes);
                gather(body, tallies, inside, &end, labels)?;
                gather_forked(body, tallies, inside, labels)?;
                here = here.past_branch(totals);
            }
            Ok(())
        }
    }
}
