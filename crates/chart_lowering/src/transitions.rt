//! The text of transitions.

ghost use Rattle.std.specs.Prelude.{◌≡◌, ◌++◌, [], List, IfOk, if◌then◌else◌};
ghost use Rattle.scl.specs.declared.statement.Statement.{Statement};
ghost use Rattle.core_charts.specs.Tests.{at_once};
ghost use Rattle.chart_lowering.specs.Lowering.{taken, tested, transitions};

use crate::targets::Targets;
use core_charts::Transition;
use scl::Statement;
use sqlite_items::Items;
use std::alloc::{AllocError, Global};

/// What a transition does where it is taken: its effects, and the goto to its target.
pub(crate) fn taken(
    alloc: Global,
    at: &Targets,
    transition: &Transition,
) -> Result<Items<Statement>, AllocError>
    ensures { IfOk result (λ text. text ≡ taken at.now transition.now) }
{
    let mut text = Items::new(alloc);
    for effect in transition.effects.as_slice() {
        text.push(Statement::Assign {
            variable: effect.variable,
            value: effect.value.copied(alloc)?,
        })?;
    }
    text.push(Statement::Goto(at.label_at(transition.target)))?;
    Ok(text)
}

// Puts a transition behind a text: the answer is whether anything follows it.
fn put_transition(
    alloc: Global,
    at: &Targets,
    transition: &Transition,
    text: &mut Items<Statement>,
) -> Result<bool, AllocError>
    ensures { IfOk result (λ goes_on. (rest : List Statement)
        → text.old ++ tested transition.now.trigger (taken at.now transition.now) rest ≡ text.new ++
        (if goes_on then rest else [])) }
{
    let does = taken(alloc, at, transition)?;
    match &transition.trigger {
        Some(trigger) => {
            text.push(Statement::If {
                test: trigger.copied(alloc)?,
                first: does,
                second: Items::new(alloc),
            })?;
            Ok(true)
        }
        None => {
            text.append(does)?;
            Ok(false)
        }
    }
}

/// Transitions in their order, and what follows them.
pub(crate) fn all_transitions(
    alloc: Global,
    at: &Targets,
    all: &[Transition],
    rest: Items<Statement>,
) -> Result<Items<Statement>, AllocError>
    ensures { IfOk result (λ text. text ≡ transitions at.now all.now rest) }
{
    let mut text = Items::new(alloc);
    for transition in all {
        if !put_transition(alloc, at, transition, &mut text)? {
            return Ok(text);
        }
    }
    text.append(rest)?;
    Ok(text)
}

/// The immediate transitions in their order, and what follows them.
pub(crate) fn immediate_transitions(
    alloc: Global,
    at: &Targets,
    all: &[Transition],
    rest: Items<Statement>,
) -> Result<Items<Statement>, AllocError>
    ensures { IfOk result (λ text. text ≡ transitions at.now (at_once all.now) rest) }
{
    let mut text = Items::new(alloc);
    for transition in all {
        if transition.immediate && !put_transition(alloc, at, transition, &mut text)? {
            return Ok(text);
        }
    }
    text.append(rest)?;
    Ok(text)
}
