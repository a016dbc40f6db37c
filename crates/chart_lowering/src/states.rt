//! The text of states, without what is inside them.

ghost use Rattle.std.specs.Prelude.{◌≡◌, ◌∷◌, IfOk};
ghost use Rattle.scl.specs.declared.statement.Statement.TheVariants as statement;
ghost use Rattle.core_charts.specs.Tests.{terminations};
ghost use Rattle.chart_lowering.specs.Lowering.{label, final, simple, depth, behind};

use crate::labels::{goto, label, past};
use crate::targets::Targets;
use crate::transitions::{all_transitions, immediate_transitions, taken};
use core_charts::Transition;
use scl::Statement;
use sqlite_items::Items;
use std::alloc::{AllocError, Global};

/// A final state: its label, and the goto to the region's end.
pub(crate) fn final_state(
    alloc: Global,
    at: &Targets,
    number: u64,
) -> Result<Items<Statement>, AllocError>
    ensures { IfOk result (λ text. text ≡ final at.now number) }
{
    let mut text = Items::new(alloc);
    text.push(label(number))?;
    text.push(Statement::Goto(at.end))?;
    Ok(text)
}

/// A simple state: its label, its immediate transitions, and its depth.
pub(crate) fn simple_state(
    alloc: Global,
    at: &Targets,
    transitions: &[Transition],
    number: u64,
) -> Result<Items<Statement>, AllocError>
    ensures { IfOk result (λ text. text ≡ simple at.now transitions.now number) }
{
    let depth = depth(alloc, at, transitions, past(number, 1)?)?;
    let mut text = Items::new(alloc);
    text.push(label(number))?;
    text.append(immediate_transitions(alloc, at, transitions, depth)?)?;
    Ok(text)
}

// A second label, the pause, all transitions, and the goto to the second label.
fn depth(
    alloc: Global,
    at: &Targets,
    transitions: &[Transition],
    number: u64,
) -> Result<Items<Statement>, AllocError>
    ensures { IfOk result (λ text. text ≡ depth at.now transitions.now number) }
{
    let mut again = Items::new(alloc);
    again.push(goto(number))?;
    let mut text = Items::new(alloc);
    text.push(label(number))?;
    text.push(Statement::Pause)?;
    text.append(all_transitions(alloc, at, transitions, again)?)?;
    Ok(text)
}

/// A superstate, whose fork has these branches and behind it a label of the number `next`.
pub(crate) fn superstate(
    alloc: Global,
    at: &Targets,
    transitions: &[Transition],
    number: u64,
    branches: Items<Items<Statement>>,
    next: u64,
) -> Result<Items<Statement>, AllocError>
    ensures { IfOk result (λ text. text ≡ label number ∷ statement.Fork branches ∷ behind at.now
        (terminations transitions.now) next) }
{
    let mut text = Items::new(alloc);
    text.push(label(number))?;
    text.push(Statement::Fork { branches })?;
    text.append(behind(alloc, at, transitions, next)?)?;
    Ok(text)
}

// What is behind the fork of a superstate.
fn behind(
    alloc: Global,
    at: &Targets,
    transitions: &[Transition],
    next: u64,
) -> Result<Items<Statement>, AllocError>
    ensures { IfOk result (λ text. text ≡ behind at.now (terminations transitions.now) next) }
{
    for transition in transitions {
        if transition.kind.is_join() {
            return taken(alloc, at, transition);
        }
    }
    depth(alloc, at, &[], next)
}
