//! What is wrong with the transitions of a state.

ghost use Rattle.std.specs.Prelude.{◌≡◌, ◌||◌, OnOk, false};
ghost use Rattle.core_charts.specs.Rules.{fits_state};
ghost use Rattle.core_charts.specs.Tests.{is_join};
ghost use Rattle.sc_text.specs.Told.{told_behind};
ghost use Rattle.chart_reader.specs.Flaws.{effect_flaws, trigger_flaws, kind_flaws, transition_flaws};

use crate::text_drafts::draft::{DraftEffect, DraftTransition};
use crate::text_drafts::names::Names;
use core_charts::{EFFECT_LIMIT, TRANSITION_LIMIT, TransitionKind};
use sc_text::{FaultKind, Flaw, Scope, is_full, note_told};
use sc_values::Kind;
use sqlite_items::Items;
use std::alloc::{AllocError, Global};

/// Tells the flaws of the transitions of a state, a superstate or a simple one, of a region with these states. Err:
/// memory was refused.
#[tactic(auto, using(crate::proofs::Flawed::transitions_over))]
pub(crate) fn transition_flaws(
    alloc: Global,
    scope: &Scope,
    states: &Names,
    is_superstate: bool,
    transitions: &[DraftTransition],
    found: &mut Items<Flaw>,
) -> Result<(), AllocError>
    ensures { OnOk result (found.new ≡ told_behind found.old
        (transition_flaws scope.now.variables.now states.now.names is_superstate false 0 transitions.now)) }
{
    let mut is_behind_join = false;
    for (at, transition) in transitions.iter().enumerate() {
        let is_past = is_full(TRANSITION_LIMIT, at);
        note_told(alloc, found, is_past, FaultKind::Limit, transition.at)?;
        kind_flaws(alloc, is_superstate, is_behind_join, transition, found)?;
        trigger_flaws(alloc, scope, transition, found)?;
        effect_flaws(alloc, scope, transition.effects.as_slice(), found)?;
        let is_unknown = !states.has(transition.target.name);
        note_told(
            alloc,
            found,
            is_unknown,
            FaultKind::Unknown,
            transition.target.at,
        )?;
        is_behind_join = is_past_join(is_behind_join, transition);
    }
    Ok(())
}

// Whether a termination stands before what follows.
fn is_past_join(is_behind_join: bool, transition: &DraftTransition) -> bool
    ensures { result ≡ (is_behind_join || is_join transition.now.kind) }
{
    is_behind_join || transition.kind.is_join()
}

fn kind_flaws(
    alloc: Global,
    is_superstate: bool,
    is_behind_join: bool,
    transition: &DraftTransition,
    found: &mut Items<Flaw>,
) -> Result<(), AllocError>
    ensures { OnOk result (found.new ≡ told_behind found.old
        (kind_flaws is_superstate is_behind_join transition.now)) }
{
    let is_second = transition.kind.is_join() && is_behind_join;
    let is_broken = !fits_state(is_superstate, transition.kind) || is_second;
    note_told(alloc, found, is_broken, FaultKind::Rule, transition.at)
}

// Simple states have transitions by `go`, superstates aborts and terminations.
fn fits_state(is_superstate: bool, kind: TransitionKind) -> bool
    ensures { result ≡ fits_state is_superstate kind }
{
    match kind {
        TransitionKind::Go => !is_superstate,
        TransitionKind::Strong | TransitionKind::Weak | TransitionKind::Join => is_superstate,
    }
}

fn trigger_flaws(
    alloc: Global,
    scope: &Scope,
    transition: &DraftTransition,
    found: &mut Items<Flaw>,
) -> Result<(), AllocError>
    ensures { OnOk result (found.new ≡ told_behind found.old
        (trigger_flaws scope.now.variables.now transition.now.trigger)) }
{
    match &transition.trigger {
        Some(trigger) => scope.tell_expression(alloc, Some(Kind::Bool), trigger, found),
        None => Ok(()),
    }
}

/// Tells the flaws of some effects. Err: memory was refused.
#[tactic(auto, using(crate::proofs::Flawed::effects_over))]
pub fn effect_flaws(
    alloc: Global,
    scope: &Scope,
    effects: &[DraftEffect],
    found: &mut Items<Flaw>,
) -> Result<(), AllocError>
    ensures { OnOk result (found.new ≡ told_behind found.old (effect_flaws scope.now.variables.now 0 effects.now)) }
{
    for (at, effect) in effects.iter().enumerate() {
        let is_past = is_full(EFFECT_LIMIT, at);
        note_told(alloc, found, is_past, FaultKind::Limit, effect.variable.at)?;
        scope.tell_assignment(alloc, effect.variable, &effect.value, found)?;
    }
    Ok(())
}
