//! The transitions of a draft with what is new of them, their names looked up.

ghost use Rattle.std.specs.Prelude.{◌≡◌, ◌≤◌, [], ◌∷◌, ◌++◌, IfOk, OnOk, Some, length};
ghost use Rattle.sc_values.specs.declared.expression.Expr.TheVariants as expr;
ghost use Rattle.sc_values.specs.declared.operator.BinaryOperator.TheVariants as operator;
ghost use Rattle.std.specs.Option.{option_copied};
ghost use Rattle.sc_graph.specs.Limits.{variable_limit};
ghost use Rattle.sc_text.specs.Flaws.{variable_names};
ghost use Rattle.chart_reader.specs.Flaws.{state_names};
ghost use Rattle.extended_reader.specs.Inside.{rows_in};
ghost use Rattle.extended_reader.specs.Resolved.{waited, waited_trigger, until_trigger, trigger_of, delayed_transition};
ghost use Rattle.extended_reader.specs.Resolved.{condition_of, all_transitions, behind_transition, behind_transitions};

use crate::counts::{at_least, binary, counted};
use crate::rows::RowsLeft;
use crate::targets::target;
use crate::text_drafts::{DraftCount, DraftDelay};
use chart_reader::{DraftTransition, StateScope, effects, trigger};
use core_charts::Transition;
use extended_charts::ELAPSED;
use sc_text::{Scope, TextExpression};
use sc_values::{BinaryOperator, Expr};
use sqlite_items::Items;
use std::alloc::{AllocError, Global};

/// Puts the transitions of a state of a region with these states, over these variables, which take their rows off those
/// that are left, behind others. Err: memory was refused.
pub(crate) fn put_transitions(
    alloc: Global,
    scope: &Scope,
    states: &StateScope,
    rows: &mut RowsLeft,
    texts: &[DraftTransition],
    made: &mut Items<Transition>,
) -> Result<(), AllocError>
    requires { length scope.now.variables.now ≤ variable_limit }
    ensures made { OnOk result (made.new ≡ made.old ++ all_transitions (variable_names scope.now.variables.now)
        (state_names states.now.states.now) (rows_in rows.old) texts.now) }
    ensures left { OnOk result (rows_in rows.new ≡ behind_transitions (rows_in rows.old) texts.now) }
{
    for text in texts {
        put_transition(alloc, scope, states, rows, text, made)?;
    }
    Ok(())
}

// Puts a transition, which takes its row off those that are left, behind others.
fn put_transition(
    alloc: Global,
    scope: &Scope,
    states: &StateScope,
    rows: &mut RowsLeft,
    text: &DraftTransition,
    made: &mut Items<Transition>,
) -> Result<(), AllocError>
    requires { length scope.now.variables.now ≤ variable_limit }
    ensures made { OnOk result (made.new ≡ made.old ++ delayed_transition (variable_names scope.now.variables.now)
        (state_names states.now.states.now) rows.old.ways.now text.now ∷ []) }
    ensures left { OnOk result (rows_in rows.new ≡ behind_transition (rows_in rows.old)) }
{
    let number = rows.number();
    let (delay, by_history) = rows.way();
    let trigger = trigger_of(alloc, scope, number, delay, &text.trigger)?;
    match effects(alloc, scope, text.effects.as_slice()) {
        Ok(effects) => made.push(Transition {
            kind: text.kind,
            immediate: text.immediate,
            trigger,
            effects,
            target: target(states, by_history, text.target.name),
        }),
        Err(error) => {
            drop(trigger);
            Err(error)
        }
    }
}

// The trigger of a transition that waits, or not.
fn trigger_of(
    alloc: Global,
    scope: &Scope,
    number: u16,
    delay: Option<&DraftDelay>,
    text: &Option<TextExpression>,
) -> Result<Option<Expr>, AllocError>
    requires { length scope.now.variables.now ≤ variable_limit }
    ensures { IfOk result (λ one. one ≡ trigger_of (variable_names scope.now.variables.now) number
        (option_copied delay.entry) text.now) }
{
    match delay {
        Some(delay) => until_trigger(alloc, scope, number, delay, text),
        None => trigger(alloc, scope, text),
    }
}

// The trigger of a transition that waits for ticks behind a word, or of a termination.
fn until_trigger(
    alloc: Global,
    scope: &Scope,
    number: u16,
    delay: &DraftDelay,
    text: &Option<TextExpression>,
) -> Result<Option<Expr>, AllocError>
    requires { length scope.now.variables.now ≤ variable_limit }
    ensures { IfOk result (λ one. one ≡
        until_trigger (variable_names scope.now.variables.now) number delay.now.word delay.now text.now) }
{
    match delay.word {
        Some(_) => waited_trigger(alloc, scope, number, delay, text),
        None => Ok(Some(scope.resolved(alloc, &delay.until)?)),
    }
}

// The trigger of a transition that waits so many ticks.
fn waited_trigger(
    alloc: Global,
    scope: &Scope,
    number: u16,
    delay: &DraftDelay,
    text: &Option<TextExpression>,
) -> Result<Option<Expr>, AllocError>
    requires { length scope.now.variables.now ≤ variable_limit }
    ensures { IfOk result (λ one. one ≡
        waited_trigger (variable_names scope.now.variables.now) number delay.now text.now) }
{
    let ticks = scope.resolved(alloc, &delay.until)?;
    let waited = waited(alloc, scope, number, ticks, &delay.count)?;
    match text {
        Some(condition) => both(alloc, scope, waited, condition),
        None => Ok(Some(waited)),
    }
}

// That it waited, and that the condition is true.
fn both(
    alloc: Global,
    scope: &Scope,
    waited: Expr,
    condition: &TextExpression,
) -> Result<Option<Expr>, AllocError>
    requires { length scope.now.variables.now ≤ variable_limit }
    ensures { IfOk result (λ one. one ≡ Some (expr.Binary operator.And waited
        (condition_of (variable_names scope.now.variables.now) condition.now))) }
{
    match scope.resolved(alloc, condition) {
        Ok(condition) => {
            let both = binary(alloc, BinaryOperator::And, waited, condition)?;
            Ok(Some(both))
        }
        Err(error) => {
            drop(waited);
            Err(error)
        }
    }
}

// That so many ticks went by since the state was entered, all or those of a count.
fn waited(
    alloc: Global,
    scope: &Scope,
    number: u16,
    ticks: Expr,
    count: &Option<DraftCount>,
) -> Result<Expr, AllocError>
    requires { length scope.now.variables.now ≤ variable_limit }
    ensures { IfOk result (λ one. one ≡
        waited (variable_names scope.now.variables.now) number ticks count.now) }
{
    match count {
        Some(count) => match scope.resolved(alloc, &count.condition) {
            Ok(condition) => counted(alloc, number, condition, ticks),
            Err(error) => {
                drop(ticks);
                Err(error)
            }
        },
        None => at_least(alloc, ELAPSED, ticks),
    }
}
