//! The transitions of a draft, with their names looked up.

ghost use Rattle.std.specs.Prelude.{◌≡◌, ◌≤◌, [], ◌∷◌, ◌++◌, IfOk, OnOk, length, map, option_map};
ghost use Rattle.sc_graph.specs.Limits.{variable_limit};
ghost use Rattle.sc_text.specs.Flaws.{variable_names};
ghost use Rattle.sc_text.specs.Resolved.{expression_of};
ghost use Rattle.chart_reader.specs.Flaws.{state_names};
ghost use Rattle.chart_reader.specs.Resolved.{effect_of, transition_of};

use crate::states::StateScope;
use crate::text_drafts::{DraftEffect, DraftTransition};
use core_charts::{Effect, Transition};
use sc_text::{Scope, TextExpression};
use sc_values::Expr;
use sqlite_items::Items;
use std::alloc::{AllocError, Global};

/// Puts the transitions of a state of a region with these states, over these variables, behind others. Err: memory was
/// refused.
pub(crate) fn put_transitions(
    alloc: Global,
    scope: &Scope,
    states: &StateScope,
    texts: &[DraftTransition],
    made: &mut Items<Transition>,
) -> Result<(), AllocError>
    requires { length scope.now.variables.now ≤ variable_limit }
    ensures { OnOk result (made.new ≡ made.old ++
        map (transition_of (variable_names scope.now.variables.now) (state_names states.now.states.now)) texts.now) }
{
    for text in texts {
        put_transition(alloc, scope, states, text, made)?;
    }
    Ok(())
}

fn put_transition(
    alloc: Global,
    scope: &Scope,
    states: &StateScope,
    text: &DraftTransition,
    made: &mut Items<Transition>,
) -> Result<(), AllocError>
    requires { length scope.now.variables.now ≤ variable_limit }
    ensures { OnOk result (made.new ≡ made.old ++
        transition_of (variable_names scope.now.variables.now) (state_names states.now.states.now) text.now ∷ []) }
{
    let trigger = trigger(alloc, scope, &text.trigger)?;
    match effects(alloc, scope, text.effects.as_slice()) {
        Ok(effects) => made.push(Transition {
            kind: text.kind,
            immediate: text.immediate,
            trigger,
            effects,
            target: states.number(text.target.name),
        }),
        Err(error) => {
            drop(trigger);
            Err(error)
        }
    }
}

/// A trigger, over these variables. Err: memory was refused.
pub fn trigger(
    alloc: Global,
    scope: &Scope,
    text: &Option<TextExpression>,
) -> Result<Option<Expr>, AllocError>
    requires { length scope.now.variables.now ≤ variable_limit }
    ensures { IfOk result (λ one. one ≡
        option_map (λ e. expression_of (variable_names scope.now.variables.now) e.operations) text.now) }
{
    match text {
        Some(condition) => Ok(Some(scope.resolved(alloc, condition)?)),
        None => Ok(None),
    }
}

/// Effects, over these variables. Err: memory was refused.
pub fn effects(
    alloc: Global,
    scope: &Scope,
    texts: &[DraftEffect],
) -> Result<Items<Effect>, AllocError>
    requires { length scope.now.variables.now ≤ variable_limit }
    ensures { IfOk result (λ all. all ≡ map (effect_of (variable_names scope.now.variables.now)) texts.now) }
{
    let mut made = Items::new(alloc);
    match put_effects(alloc, scope, texts, &mut made) {
        Ok(()) => Ok(made),
        Err(error) => {
            drop(made);
            Err(error)
        }
    }
}

/// Puts effects, over these variables, behind others. Err: memory was refused.
pub fn put_effects(
    alloc: Global,
    scope: &Scope,
    texts: &[DraftEffect],
    made: &mut Items<Effect>,
) -> Result<(), AllocError>
    requires { length scope.now.variables.now ≤ variable_limit }
    ensures { OnOk result (made.new ≡
        made.old ++ map (effect_of (variable_names scope.now.variables.now)) texts.now) }
{
    for text in texts {
        put_effect(alloc, scope, text, made)?;
    }
    Ok(())
}

fn put_effect(
    alloc: Global,
    scope: &Scope,
    text: &DraftEffect,
    made: &mut Items<Effect>,
) -> Result<(), AllocError>
    requires { length scope.now.variables.now ≤ variable_limit }
    ensures { OnOk result (made.new ≡
        made.old ++ effect_of (variable_names scope.now.variables.now) text.now ∷ []) }
{
    match scope.resolved(alloc, &text.value) {
        Ok(value) => made.push(Effect {
            variable: scope.number(text.variable.name),
            value,
        }),
        Err(error) => Err(error),
    }
}
