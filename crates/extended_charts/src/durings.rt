//! During actions: one more region of a state makes them in each tick.

ghost use Rattle.std.specs.Prelude.{◌≡◌, [], ◌∷◌, ◌++◌, IfOk, OnOk, map};
ghost use Rattle.extended_charts.specs.Durings.{ways_on, step, steps, immediate_ones, during_states};
ghost use Rattle.extended_charts.specs.Durings.{with_region, weak_for, weakened, tested_behind};
ghost use Rattle.extended_charts.specs.Durings.{acting_region, acting_state, with_durings};
ghost use Rattle.extended_charts.specs.Inside.{acts_where, fill_acting};

use crate::copies::copied_during;
use crate::extended::{During, ExtendedChart, ExtendedRegion, ExtendedState};
use crate::making::{always, bare, count, has_some, made_state, passing, sum};
use core_charts::{Effect, Transition, TransitionKind, copied_effects, copied_transitions, next};
use sc_text::{numbered, plain};
use sc_values::Expr;
use sqlite_items::Items;
use std::alloc::{AllocError, Global};

/// The chart whose regions make the during actions. Err: memory was refused.
pub fn with_durings(alloc: Global, chart: ExtendedChart) -> Result<ExtendedChart, AllocError>
    ensures { IfOk result (λ made. made ≡ with_durings chart) }
{
    let mut chart = chart;
    put_durings(alloc, &mut chart)?;
    Ok(chart)
}

// The chart is behind a reference, so that no `?` has to drop its parts.
fn put_durings(alloc: Global, chart: &mut ExtendedChart) -> Result<(), AllocError>
    ensures { OnOk result (chart.new ≡ with_durings chart.old) }
{
    let mut regions = Items::new(alloc);
    put_regions(alloc, chart.regions.as_slice(), &mut regions)?;
    chart.regions = regions;
    Ok(())
}

/// Puts what makes an action and goes on at once. Err: memory was refused.
pub fn put_ways_on(
    alloc: Global,
    trigger: &Option<Expr>,
    effects: &[Effect],
    target: u32,
    made: &mut Items<Transition>,
) -> Result<(), AllocError>
    ensures { OnOk result (made.new ≡ made.old ++ ways_on trigger.now effects.now target) }
{
    let Some(condition) = trigger else {
        return made.push(always(true, copied_effects(alloc, effects)?, target));
    };
    made.push(acts_where(alloc, condition, effects, target)?)?;
    made.push(always(true, Items::new(alloc), target))
}

// The transition that makes an action where the condition is true.
fn acts_where(
    alloc: Global,
    condition: &Expr,
    effects: &[Effect],
    target: u32,
) -> Result<Transition, AllocError>
    ensures { IfOk result (λ made. made ≡ acts_where condition.now effects.now target) }
{
    let trigger = condition.copied(alloc)?;
    let effects = copied_effects(alloc, effects)?;
    Ok(Transition {
        kind: TransitionKind::Go,
        immediate: true,
        trigger: Some(trigger),
        effects,
        target,
    })
}

// The state of this place, which makes an action and leads to the place behind it.
fn step(alloc: Global, place: u32, during: &During) -> Result<ExtendedState, AllocError>
    ensures { IfOk result (λ made. made ≡ step place during.now) }
{
    let name = numbered("step__", place as u64);
    let behind = next(place)?;
    let mut ways = Items::new(alloc);
    put_ways_on(
        alloc,
        &during.trigger,
        during.effects.as_slice(),
        behind,
        &mut ways,
    )?;
    Ok(made_state(alloc, name, place == 0, Items::new(alloc), ways))
}

/// Puts states from this place on that make these actions. Err: memory was refused.
pub fn put_steps(
    alloc: Global,
    first: u32,
    durings: &[During],
    made: &mut Items<ExtendedState>,
) -> Result<(), AllocError>
    ensures { OnOk result (made.new ≡ made.old ++ steps first durings.now) }
{
    let mut place = first;
    for during in durings {
        made.push(step(alloc, place, during)?)?;
        place = next(place)?;
    }
    Ok(())
}

/// Puts copies of those that are immediate. Err: memory was refused.
pub fn put_immediate_ones(
    alloc: Global,
    durings: &[During],
    made: &mut Items<During>,
) -> Result<(), AllocError>
    ensures { OnOk result (made.new ≡ made.old ++ immediate_ones durings.now) }
{
    for during in durings {
        if during.immediate {
            made.push(copied_during(alloc, during)?)?;
        }
    }
    Ok(())
}

fn put_during_states(
    alloc: Global,
    wait: u32,
    first: &[During],
    all: &[During],
    made: &mut Items<ExtendedState>,
) -> Result<(), AllocError>
    ensures { OnOk result (made.new ≡ made.old ++ during_states wait first.now all.now) }
{
    let again = next(wait)?;
    let last = sum(again, count(all)?)?;
    put_steps(alloc, 0, first, made)?;
    made.push(passing(alloc, false, wait, Items::new(alloc), again)?)?;
    put_steps(alloc, again, all, made)?;
    made.push(passing(alloc, false, last, Items::new(alloc), again)?)
}

// Puts the region of these actions, where there are some.
fn put_during_region(
    alloc: Global,
    durings: &[During],
    made: &mut Items<ExtendedRegion>,
) -> Result<(), AllocError>
    ensures { OnOk result (made.new ≡ with_region durings.now made.old) }
{
    if !has_some(durings) {
        return Ok(());
    }
    let mut first = Items::new(alloc);
    put_immediate_ones(alloc, durings, &mut first)?;
    let wait = count(first.as_slice())?;
    let mut states = Items::new(alloc);
    put_during_states(alloc, wait, first.as_slice(), durings, &mut states)?;
    made.push(ExtendedRegion {
        name: plain("during__1"),
        states,
    })
}

fn weak_for(kind: TransitionKind) -> TransitionKind
    ensures { result ≡ weak_for kind }
{
    match kind {
        TransitionKind::Go => TransitionKind::Weak,
        _ => kind,
    }
}

fn weakened(alloc: Global, transition: &Transition) -> Result<Transition, AllocError>
    ensures { IfOk result (λ made. made ≡ weakened transition.now) }
{
    let mut weak = transition.copied(alloc)?;
    weak.kind = weak_for(transition.kind);
    Ok(weak)
}

fn put_weakened(
    alloc: Global,
    transitions: &[Transition],
    made: &mut Items<Transition>,
) -> Result<(), AllocError>
    ensures { OnOk result (made.new ≡ made.old ++ map weakened transitions.now) }
{
    for transition in transitions {
        made.push(weakened(alloc, transition)?)?;
    }
    Ok(())
}

// Puts the transitions of a state with these actions.
fn put_tested_behind(
    alloc: Global,
    durings: &[During],
    transitions: &[Transition],
    made: &mut Items<Transition>,
) -> Result<(), AllocError>
    ensures { OnOk result (made.new ≡ made.old ++ tested_behind durings.now transitions.now) }
{
    if has_some(durings) {
        put_weakened(alloc, transitions, made)
    } else {
        made.append(copied_transitions(alloc, transitions)?)
    }
}

// Puts what is made of regions behind others.
#[cycle(acting)]
fn put_regions(
    alloc: Global,
    regions: &[ExtendedRegion],
    made: &mut Items<ExtendedRegion>,
) -> Result<(), AllocError>
    ensures { OnOk result (made.new ≡ made.old ++ map acting_region regions.now) }
{
    for region in regions {
        put_region(alloc, region, made)?;
    }
    Ok(())
}

#[cycle(acting)]
fn put_region(
    alloc: Global,
    region: &ExtendedRegion,
    made: &mut Items<ExtendedRegion>,
) -> Result<(), AllocError>
    ensures { OnOk result (made.new ≡ made.old ++ acting_region region.now ∷ []) }
{
    let mut states = Items::new(alloc);
    put_states(alloc, region.states.as_slice(), &mut states)?;
    made.push(ExtendedRegion {
        name: region.name,
        states,
    })
}

#[cycle(acting)]
fn put_states(
    alloc: Global,
    states: &[ExtendedState],
    made: &mut Items<ExtendedState>,
) -> Result<(), AllocError>
    ensures { OnOk result (made.new ≡ made.old ++ map acting_state states.now) }
{
    for state in states {
        put_state(alloc, state, made)?;
    }
    Ok(())
}

#[cycle(acting)]
#[tactic(auto, using(crate::proofs::ActingStates::state_acts))]
fn put_state(
    alloc: Global,
    state: &ExtendedState,
    made: &mut Items<ExtendedState>,
) -> Result<(), AllocError>
    ensures { OnOk result (made.new ≡ made.old ++ acting_state state.now ∷ []) }
{
    let mut acting = bare(alloc, state);
    fill_acting(alloc, state, &mut acting)?;
    made.push(acting)
}

// Puts what a state holds into a bare one, which is behind a reference so that no `?` has to drop its parts.
#[cycle(acting)]
fn fill_acting(
    alloc: Global,
    state: &ExtendedState,
    acting: &mut ExtendedState,
) -> Result<(), AllocError>
    ensures { OnOk result (acting.new ≡ fill_acting state.now acting.old) }
{
    let durings = state.during.as_slice();
    acting
        .entry
        .append(copied_effects(alloc, state.entry.as_slice())?)?;
    acting
        .exit
        .append(copied_effects(alloc, state.exit.as_slice())?)?;
    put_regions(alloc, state.regions.as_slice(), &mut acting.regions)?;
    put_during_region(alloc, durings, &mut acting.regions)?;
    put_tested_behind(
        alloc,
        durings,
        state.transitions.as_slice(),
        &mut acting.transitions,
    )
}
