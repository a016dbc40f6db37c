//! Terminations with triggers: behind the regions of a superstate a state waits for the trigger.

ghost use Rattle.std.specs.Prelude.{◌≡◌, Some, [], ◌∷◌, ◌++◌, IfOk, OnOk, map};
ghost use Rattle.extended_charts.specs.Holds.{condition, untested, body, tested, hold, ended, held};
ghost use Rattle.extended_charts.specs.Holds.{held_region, held_state, held_inside, with_holds};
ghost use Rattle.extended_charts.specs.Inside.{fill_held};

use crate::extended::{ExtendedChart, ExtendedRegion, ExtendedState};
use crate::making::{alone, always, bare, made_state};
use core_charts::{Transition, TransitionKind, copied_effects, copied_trigger};
use sc_text::plain;
use sc_values::Expr;
use sqlite_items::Items;
use std::alloc::{AllocError, Global};

/// The chart whose terminations have no triggers: states wait for these. Err: memory was refused.
pub fn with_holds(alloc: Global, chart: ExtendedChart) -> Result<ExtendedChart, AllocError>
    ensures { IfOk result (λ made. made ≡ with_holds chart) }
{
    let mut chart = chart;
    put_holds(alloc, &mut chart)?;
    Ok(chart)
}

// The chart is behind a reference, so that no `?` has to drop its parts.
fn put_holds(alloc: Global, chart: &mut ExtendedChart) -> Result<(), AllocError>
    ensures { OnOk result (chart.new ≡ with_holds chart.old) }
{
    let mut regions = Items::new(alloc);
    put_regions(alloc, chart.regions.as_slice(), &mut regions)?;
    chart.regions = regions;
    Ok(())
}

/// The trigger of the termination, if it has one. Err: memory was refused.
pub fn condition(alloc: Global, transitions: &[Transition]) -> Result<Option<Expr>, AllocError>
    ensures { IfOk result (λ trigger. trigger ≡ condition transitions.now) }
{
    for transition in transitions {
        if transition.kind.is_join() {
            return copied_trigger(alloc, &transition.trigger);
        }
    }
    Ok(None)
}

// A copy of a transition; that of a termination has no trigger.
fn untested(alloc: Global, transition: &Transition) -> Result<Transition, AllocError>
    ensures { IfOk result (λ made. made ≡ untested transition.now) }
{
    let mut copy = transition.copied(alloc)?;
    if transition.kind.is_join() {
        copy.trigger = None;
    }
    Ok(copy)
}

/// Puts copies of transitions; that of a termination has no trigger. Err: memory was refused.
pub fn put_untested(
    alloc: Global,
    transitions: &[Transition],
    made: &mut Items<Transition>,
) -> Result<(), AllocError>
    ensures { OnOk result (made.new ≡ made.old ++ map untested transitions.now) }
{
    for transition in transitions {
        made.push(untested(alloc, transition)?)?;
    }
    Ok(())
}

// The state that has the regions, and is left when these have ended.
fn body(alloc: Global, regions: Items<ExtendedRegion>) -> Result<ExtendedState, AllocError>
    ensures { IfOk result (λ made. made ≡ body regions) }
{
    let mut join = always(false, Items::new(alloc), 1);
    join.kind = TransitionKind::Join;
    let transitions = alone(alloc, join)?;
    Ok(made_state(alloc, plain("body__1"), true, regions, transitions))
}

fn tested(alloc: Global, immediate: bool, trigger: Expr) -> Transition
    ensures { result ≡ tested immediate trigger }
{
    let mut made = always(immediate, Items::new(alloc), 2);
    made.trigger = Some(trigger);
    made
}

// The state that waits for a trigger.
fn hold(alloc: Global, trigger: Expr) -> Result<ExtendedState, AllocError>
    ensures { IfOk result (λ made. made ≡ hold trigger) }
{
    let later = trigger.copied(alloc)?;
    let mut transitions = alone(alloc, tested(alloc, true, trigger))?;
    transitions.push(tested(alloc, false, later))?;
    let regions = Items::new(alloc);
    Ok(made_state(alloc, plain("hold__1"), false, regions, transitions))
}

/// The state in which such a region has ended.
pub fn ended(alloc: Global) -> ExtendedState
    ensures { result ≡ ended }
{
    ExtendedState {
        name: plain("end__1"),
        is_own: false,
        is_initial: false,
        is_final: true,
        entry: Items::new(alloc),
        exit: Items::new(alloc),
        during: Items::new(alloc),
        regions: Items::new(alloc),
        transitions: Items::new(alloc),
    }
}

// Puts the states of the region that has these regions, and waits for the trigger behind them.
fn put_held_states(
    alloc: Global,
    trigger: Expr,
    regions: Items<ExtendedRegion>,
    made: &mut Items<ExtendedState>,
) -> Result<(), AllocError>
    ensures { OnOk result (made.new ≡ made.old ++ body regions ∷ hold trigger ∷ ended ∷ []) }
{
    made.push(body(alloc, regions)?)?;
    made.push(hold(alloc, trigger)?)?;
    made.push(ended(alloc))
}

// Puts what a superstate with this trigger has instead of these regions.
fn put_held(
    alloc: Global,
    trigger: Expr,
    regions: Items<ExtendedRegion>,
    made: &mut Items<ExtendedRegion>,
) -> Result<(), AllocError>
    ensures { OnOk result (made.new ≡ made.old ++ held (Some trigger) regions) }
{
    let mut states = Items::new(alloc);
    put_held_states(alloc, trigger, regions, &mut states)?;
    made.push(ExtendedRegion {
        name: plain("body__1"),
        states,
    })
}

// Puts what is made of regions behind others.
#[cycle(held)]
fn put_regions(
    alloc: Global,
    regions: &[ExtendedRegion],
    made: &mut Items<ExtendedRegion>,
) -> Result<(), AllocError>
    ensures { OnOk result (made.new ≡ made.old ++ map held_region regions.now) }
{
    for region in regions {
        put_region(alloc, region, made)?;
    }
    Ok(())
}

#[cycle(held)]
fn put_region(
    alloc: Global,
    region: &ExtendedRegion,
    made: &mut Items<ExtendedRegion>,
) -> Result<(), AllocError>
    ensures { OnOk result (made.new ≡ made.old ++ held_region region.now ∷ []) }
{
    let mut states = Items::new(alloc);
    put_states(alloc, region.states.as_slice(), &mut states)?;
    made.push(ExtendedRegion {
        name: region.name,
        states,
    })
}

#[cycle(held)]
fn put_states(
    alloc: Global,
    states: &[ExtendedState],
    made: &mut Items<ExtendedState>,
) -> Result<(), AllocError>
    ensures { OnOk result (made.new ≡ made.old ++ map held_state states.now) }
{
    for state in states {
        put_state(alloc, state, made)?;
    }
    Ok(())
}

#[cycle(held)]
#[tactic(auto, using(crate::proofs::HeldStates::state_held))]
fn put_state(
    alloc: Global,
    state: &ExtendedState,
    made: &mut Items<ExtendedState>,
) -> Result<(), AllocError>
    ensures { OnOk result (made.new ≡ made.old ++ held_state state.now ∷ []) }
{
    let mut changed = bare(alloc, state);
    fill_held(alloc, state, &mut changed)?;
    made.push(changed)
}

// Puts what the state has instead of its regions.
#[cycle(held)]
fn put_held_inside(
    alloc: Global,
    state: &ExtendedState,
    made: &mut Items<ExtendedRegion>,
) -> Result<(), AllocError>
    ensures { OnOk result (made.new ≡ made.old ++ held_inside state.now) }
{
    let Some(trigger) = condition(alloc, state.transitions.as_slice())? else {
        return put_regions(alloc, state.regions.as_slice(), made);
    };
    let mut regions = Items::new(alloc);
    put_regions(alloc, state.regions.as_slice(), &mut regions)?;
    put_held(alloc, trigger, regions, made)
}

// Puts what a state holds into a bare one, which is behind a reference so that no `?` has to drop its parts.
#[cycle(held)]
fn fill_held(
    alloc: Global,
    state: &ExtendedState,
    changed: &mut ExtendedState,
) -> Result<(), AllocError>
    ensures { OnOk result (changed.new ≡ fill_held state.now changed.old) }
{
    changed
        .entry
        .append(copied_effects(alloc, state.entry.as_slice())?)?;
    changed
        .exit
        .append(copied_effects(alloc, state.exit.as_slice())?)?;
    put_held_inside(alloc, state, &mut changed.regions)?;
    put_untested(
        alloc,
        state.transitions.as_slice(),
        &mut changed.transitions,
    )
}
