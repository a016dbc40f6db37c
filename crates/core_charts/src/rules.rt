//! Whether parts make a chart.

ghost use Rattle.std.specs.Prelude.{◌≡◌, ◌↔◌, ◌≤◌, ◌<◌, ℕ, false, IfOk, IsTrue, Some, None, [], map, slice_get, length};
ghost use Rattle.std.specs.Prelude.{count_by};
ghost use Rattle.sc_values.specs.declared.expression.Expr.{Expr};
ghost use Rattle.sc_values.specs.declared.value.Kind.TheVariants as of_kind;
ghost use Rattle.sc_text.specs.Parts.{IsExpression};
ghost use Rattle.core_charts.specs.declared.region.Effect.{Effect};
ghost use Rattle.core_charts.specs.declared.region.Transition.{Transition};
ghost use Rattle.core_charts.specs.declared.region.TransitionKind.TheVariants as kind;
ghost use Rattle.core_charts.specs.declared.region.State.{State};
ghost use Rattle.core_charts.specs.declared.region.Region.{Region};
ghost use Rattle.core_charts.specs.declared.region.Region.TheViews.{out-Region, out-State};
ghost use Rattle.core_charts.specs.Tests.{is_join};
ghost use Rattle.core_charts.specs.Rules.{IsWithin, kinds_of, IsEffect, IsBareIfFinal, fits_state, IsTransition};
ghost use Rattle.core_charts.specs.Rules.{IsState, IsRegion, AreRegions, IsChart};

use crate::features::{DEPTH_LIMIT, Features};
use crate::region::{Effect, Region, State, Transition, TransitionKind};
use sc_graph::{Role, Variable};
use sc_text::{are_distinct, is_expression};
use sc_values::{Expr, Kind, Name};
use std::alloc::{AllocError, Global};

/// What the parts of a chart are held against: which features it may have, its variables, and their kinds.
#[derive(Clone, Copy)]
pub(crate) struct Frame<'a> {
    features: Features,
    variables: &'a [Variable],
    kinds: &'a [Kind],
    ghost same: { kinds.now ≡ kinds_of variables.now },
}

/// Whether these parts make a chart with these features. Err: memory was refused.
pub(crate) fn is_chart(
    alloc: Global,
    features: Features,
    name: &Name,
    variables: &[Variable],
    regions: &[Region],
) -> Result<bool, AllocError>
    ensures { IfOk result (λ yes. IsTrue yes ↔ IsChart features
        (record { name = name.now; variables = variables.now; regions = regions.now })) }
{
    let language = features.language();
    if !language.takes_name(name) {
        return Ok(false);
    }
    if !language.takes_variables(alloc, variables)? {
        return Ok(false);
    }
    if regions.is_empty() {
        return Ok(false);
    }
    let kinds = kinds_of(alloc, variables)?;
    let frame = Frame {
        features,
        variables,
        kinds: &kinds,
    };
    frame.are_regions(alloc, DEPTH_LIMIT, regions)
}

fn kinds_of(alloc: Global, variables: &[Variable]) -> Result<Vec<Kind>, AllocError>
    ensures { IfOk result (λ kinds. kinds.items ≡ kinds_of variables.now) }
{
    let mut kinds = Vec::with_capacity(alloc, variables.len())?;
    for variable in variables {
        kinds.push(variable.kind)?;
    }
    Ok(kinds)
}

impl<'a> Frame<'a> {
    // Whether these are regions of one superstate that nest this many levels deep at most.
    #[cycle(regions)]
    fn are_regions(self, alloc: Global, levels: u8, regions: &[Region]) -> Result<bool, AllocError>
        ensures { IfOk result (λ yes. IsTrue yes
            ↔ AreRegions self.entry.features self.entry.variables.now levels regions.now) }
    {
        if levels == 0 {
            return Ok(regions.is_empty());
        }
        if regions.len() > self.features.region_limit() {
            return Ok(false);
        }
        if !are_distinct(&region_names(alloc, regions)?) {
            return Ok(false);
        }
        for region in regions {
            if !self.is_region(alloc, levels - 1, region)? {
                return Ok(false);
            }
        }
        Ok(true)
    }

    // Whether this is a region with this many levels inside at most.
    #[cycle(regions)]
    fn is_region(self, alloc: Global, levels: u8, region: &Region) -> Result<bool, AllocError>
        ensures { IfOk result (λ yes. IsTrue yes ↔ IsRegion self.entry.features self.entry.variables.now
            (AreRegions self.entry.features self.entry.variables.now levels) region.now) }
    {
        let states = region.states.as_slice();
        if !self.features.language().takes_name(&region.name) {
            return Ok(false);
        }
        if !is_within(self.features.state_limit(), states.len()) || initial_count(states) != 1 {
            return Ok(false);
        }
        if !are_distinct(&state_names(alloc, states)?) {
            return Ok(false);
        }
        let all_keep = self.are_states(alloc, levels, states)?;
        Ok(all_keep)
    }

    // Whether these are the states of a region with this many levels inside at most.
    #[cycle(regions)]
    fn are_states(self, alloc: Global, levels: u8, states: &[State]) -> Result<bool, AllocError>
        ensures { IfOk result (λ yes. IsTrue yes ↔ ((i : ℕ) (s : State) → slice_get states.now i ≡ Some s
            → IsState self.entry.features self.entry.variables.now
            (AreRegions self.entry.features self.entry.variables.now levels) (length states.now) s)) }
    {
        for state in states {
            if !self.is_state(alloc, levels, states.len(), state)? {
                return Ok(false);
            }
        }
        Ok(true)
    }

    // Whether this is a state, of a region with this many states, with this many levels inside at most.
    #[cycle(regions)]
    fn is_state(
        self,
        alloc: Global,
        levels: u8,
        states: usize,
        state: &State,
    ) -> Result<bool, AllocError>
        ensures { IfOk result (λ yes. IsTrue yes ↔ IsState self.entry.features self.entry.variables.now
            (AreRegions self.entry.features self.entry.variables.now levels) states state.now) }
    {
        let transitions = state.transitions.as_slice();
        if !self.features.language().takes_name(&state.name) {
            return Ok(false);
        }
        if !is_bare_if_final(state) {
            return Ok(false);
        }
        if !is_within(self.features.transition_limit(), transitions.len()) {
            return Ok(false);
        }
        if join_count(transitions) > 1 {
            return Ok(false);
        }
        if !self.are_transitions(states, state.is_superstate(), transitions) {
            return Ok(false);
        }
        let inside_keeps = self.are_regions(alloc, levels, state.regions.as_slice())?;
        Ok(inside_keeps)
    }

    fn are_transitions(self, states: usize, is_superstate: bool, transitions: &[Transition]) -> bool
        ensures { IsTrue result ↔ ((i : ℕ) (t : Transition) → slice_get transitions.now i ≡ Some t
            → IsTransition self.entry.features self.entry.variables.now states is_superstate t) }
    {
        for transition in transitions {
            if !self.is_transition(states, is_superstate, transition) {
                return false;
            }
        }
        true
    }

    fn is_transition(self, states: usize, is_superstate: bool, transition: &Transition) -> bool
        ensures { IsTrue result
            ↔ IsTransition self.entry.features self.entry.variables.now states is_superstate transition.now }
    {
        self.features.allows(transition.kind)
            && fits_state(is_superstate, transition.kind)
            && is_plain_join(transition)
            && self.is_trigger(&transition.trigger)
            && is_within(self.features.effect_limit(), transition.effects.len())
            && self.are_effects(transition.effects.as_slice())
            && (transition.target as usize) < states
    }

    fn is_trigger(self, trigger: &Option<Expr>) -> bool
        ensures { IsTrue result ↔ ((e : Expr) → trigger.now ≡ Some e
            → IsExpression (kinds_of self.entry.variables.now) of_kind.Bool e) }
    {
        match trigger {
            Some(condition) => is_expression(condition, self.kinds, Kind::Bool),
            None => true,
        }
    }

    fn are_effects(self, effects: &[Effect]) -> bool
        ensures { IsTrue result ↔ ((i : ℕ) (e : Effect) → slice_get effects.now i ≡ Some e
            → IsEffect self.entry.variables.now e) }
    {
        for effect in effects {
            if !self.is_effect(effect) {
                return false;
            }
        }
        true
    }

    fn is_effect(self, effect: &Effect) -> bool
        ensures { IsTrue result ↔ IsEffect self.entry.variables.now effect.now }
    {
        match self.variables.get(effect.variable as usize) {
            Some(target) => {
                target.role != Role::Input && is_expression(&effect.value, self.kinds, target.kind)
            }
            None => false,
        }
    }
}

// Whether it has neither regions nor transitions, or is no final state.
fn is_bare_if_final(state: &State) -> bool
    ensures { IsTrue result ↔ IsBareIfFinal state.now }
{
    !state.is_final || (state.regions.is_empty() && state.transitions.is_empty())
}

fn region_names(alloc: Global, regions: &[Region]) -> Result<Vec<Name>, AllocError>
    ensures { IfOk result (λ names. names.items ≡ map (λ r. (out-Region r).name) regions.now) }
{
    let mut names = Vec::with_capacity(alloc, regions.len())?;
    for region in regions {
        names.push(region.name)?;
    }
    Ok(names)
}

fn state_names(alloc: Global, states: &[State]) -> Result<Vec<Name>, AllocError>
    ensures { IfOk result (λ names. names.items ≡ map (λ s. (out-State s).name) states.now) }
{
    let mut names = Vec::with_capacity(alloc, states.len())?;
    for state in states {
        names.push(state.name)?;
    }
    Ok(names)
}

// How many of the states are initial.
fn initial_count(states: &[State]) -> usize
    ensures { result ≡ count_by (λ s. (out-State s).is_initial) states.now }
{
    let mut count = 0;
    for state in states {
        if state.is_initial {
            count += 1;
        }
    }
    count
}

// How many of the transitions are terminations.
fn join_count(transitions: &[Transition]) -> usize
    ensures { result ≡ count_by (λ t. is_join t.kind) transitions.now }
{
    let mut count = 0;
    for transition in transitions {
        if transition.kind.is_join() {
            count += 1;
        }
    }
    count
}

fn is_within(limit: Option<usize>, count: usize) -> bool
    ensures { IsTrue result ↔ IsWithin limit count }
{
    match limit {
        Some(limit) => count <= limit,
        None => true,
    }
}

fn fits_state(is_superstate: bool, kind: TransitionKind) -> bool
    ensures { result ≡ fits_state is_superstate kind }
{
    match kind {
        TransitionKind::Go => !is_superstate,
        TransitionKind::Strong | TransitionKind::Weak | TransitionKind::Join => is_superstate,
    }
}

// Whether it is no termination, or one that is tested with nothing but the end of all regions.
fn is_plain_join(transition: &Transition) -> bool
    ensures { IsTrue result ↔ (transition.now.kind ≡ kind.Join → (transition.now.immediate ≡ false)
        × (transition.now.trigger ≡ None)) }
{
    !transition.kind.is_join() || (!transition.immediate && transition.trigger.is_none())
}
