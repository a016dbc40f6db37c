//! During actions of superstates that are left by `join`: they end when what is inside has ended.

ghost use Rattle.std.specs.Prelude.{◌≡◌, [], ◌∷◌, ◌++◌, IfOk, OnOk, map};
ghost use Rattle.chart_reduction.specs.Endings.{is_ending, endings_in, all_regions, all_states};
ghost use Rattle.chart_reduction.specs.Endings.{beginning, left_durings, inside, left_transitions};
ghost use Rattle.chart_reduction.specs.Endings.{ending_in_region, ending_in_state, endings_told, with_endings};
ghost use Rattle.extended_charts.specs.declared.extended.ExtendedRegion.TheViews.{out-ExtendedState};
ghost use Rattle.chart_reduction.specs.Inside.Values.{deeper, fill_ending};

use crate::values::beginnings::{all_at_once, is_joined};
use crate::values::ending_regions::{put_body_region, put_ending_region};
use core_charts::{Effect, Transition, copied_transitions};
use extended_charts::{
    Declared, During, ExtendedChart, ExtendedRegion, ExtendedState, bare, condition, has_some,
    local, one, put_copied_durings, put_copied_effects, put_untested, reset, sum, variable,
};
use sc_graph::VariableId;
use sc_text::numbered;
use sc_values::Kind;
use sqlite_items::Items;
use std::alloc::{AllocError, Global};

/// The chart in which no state with during actions is left by a termination. Err: memory was refused, or there are more
/// than 65535 variables.
pub fn with_endings(alloc: Global, chart: ExtendedChart) -> Result<ExtendedChart, AllocError>
    ensures { IfOk result (λ made. made ≡ with_endings chart) }
{
    let mut chart = chart;
    match put_endings(alloc, &mut chart) {
        Ok(()) => Ok(chart),
        Err(error) => {
            drop(chart);
            Err(error)
        }
    }
}

// The chart is behind a reference, so that no `?` has to drop its parts.
fn put_endings(alloc: Global, chart: &mut ExtendedChart) -> Result<(), AllocError>
    ensures { OnOk result (chart.new ≡ with_endings chart.old) }
{
    let first = u32::from(variable(chart.variables.len())?);
    let count = endings_in(chart.regions.as_slice())?;
    if count == 0 {
        return Ok(());
    }
    let mut regions = Items::new(alloc);
    put_regions(alloc, first, chart.regions.as_slice(), &mut regions)?;
    chart.regions = regions;
    put_endings_told(count, &mut chart.variables)
}

// Puts as many variables that tell whether something has ended.
fn put_endings_told(count: u32, made: &mut Items<Declared>) -> Result<(), AllocError>
    ensures { OnOk result (made.new ≡ made.old ++ endings_told count) }
{
    for before in 0..count {
        made.push(local(numbered("done__", (before + 1) as u64), Kind::Bool, None))?;
    }
    Ok(())
}

// Whether a state with these actions is left by a termination.
fn is_ending(durings: &[During], transitions: &[Transition]) -> bool
    ensures { result ≡ is_ending durings.now transitions.now }
{
    has_some(durings) && is_joined(transitions)
}

// Puts that what is inside has not ended as the superstate is entered.
fn put_beginning(ends: bool, done: VariableId, made: &mut Items<Effect>) -> Result<(), AllocError>
    ensures { OnOk result (made.new ≡ made.old ++ beginning ends done) }
{
    if ends { made.push(reset(done)) } else { Ok(()) }
}

fn put_left_durings(
    alloc: Global,
    ends: bool,
    durings: &[During],
    made: &mut Items<During>,
) -> Result<(), AllocError>
    ensures { OnOk result (made.new ≡ made.old ++ left_durings ends durings.now) }
{
    if ends {
        Ok(())
    } else {
        put_copied_durings(alloc, durings, made)
    }
}

// Puts what a state has instead of these regions, by whether it is such a one.
fn put_inside(
    alloc: Global,
    ends: bool,
    done: VariableId,
    state: &ExtendedState,
    regions: Items<ExtendedRegion>,
    made: &mut Items<ExtendedRegion>,
) -> Result<(), AllocError>
    ensures { OnOk result (made.new ≡ made.old
        ++ inside ends done (out-ExtendedState state.now).during (out-ExtendedState state.now).transitions regions) }
{
    if !ends {
        return made.append(regions);
    }
    let at_once = all_at_once(regions.as_slice());
    let trigger = condition(alloc, state.transitions.as_slice())?;
    put_body_region(alloc, done, trigger, regions, made)?;
    put_ending_region(alloc, done, state.during.as_slice(), at_once, made)
}

fn put_left_transitions(
    alloc: Global,
    ends: bool,
    transitions: &[Transition],
    made: &mut Items<Transition>,
) -> Result<(), AllocError>
    ensures { OnOk result (made.new ≡ made.old ++ left_transitions ends transitions.now) }
{
    if ends {
        put_untested(alloc, transitions, made)
    } else {
        match copied_transitions(alloc, transitions) {
            Ok(copies) => made.append(copies),
            Err(error) => Err(error),
        }
    }
}

// How many superstates in these regions have such during actions.
#[cycle(counting)]
fn endings_in(regions: &[ExtendedRegion]) -> Result<u32, AllocError>
    ensures { IfOk result (λ count. count ≡ endings_in (map ending_in_region regions.now)) }
{
    let mut count = 0;
    for region in regions {
        count = sum(count, region_endings(region)?)?;
    }
    Ok(count)
}

#[cycle(counting)]
fn region_endings(region: &ExtendedRegion) -> Result<u32, AllocError>
    ensures { IfOk result (λ count. count ≡ (ending_in_region region.now).endings) }
{
    let mut count = 0;
    for state in region.states.as_slice() {
        count = sum(count, state_endings(state)?)?;
    }
    Ok(count)
}

#[cycle(counting)]
#[tactic(auto, using(crate::proofs::EndingStates::state_endings))]
fn state_endings(state: &ExtendedState) -> Result<u32, AllocError>
    ensures { IfOk result (λ count. count ≡ (ending_in_state state.now).endings) }
{
    let own = one(is_ending(state.during.as_slice(), state.transitions.as_slice()));
    sum(own, endings_in(state.regions.as_slice())?)
}

// Puts what is made of regions behind others.
#[cycle(ending)]
fn put_regions(
    alloc: Global,
    first: u32,
    regions: &[ExtendedRegion],
    made: &mut Items<ExtendedRegion>,
) -> Result<(), AllocError>
    ensures { OnOk result (made.new ≡ made.old ++ all_regions first (map ending_in_region regions.now)) }
{
    let mut x = first;
    for region in regions {
        put_region(alloc, x, region, made)?;
        x = sum(x, region_endings(region)?)?;
    }
    Ok(())
}

#[cycle(ending)]
fn put_region(
    alloc: Global,
    x: u32,
    region: &ExtendedRegion,
    made: &mut Items<ExtendedRegion>,
) -> Result<(), AllocError>
    ensures { OnOk result (made.new ≡ made.old ++ (ending_in_region region.now).made x ∷ []) }
{
    let mut states = Items::new(alloc);
    match put_states(alloc, x, region.states.as_slice(), &mut states) {
        Ok(()) => made.push(ExtendedRegion {
            name: region.name,
            states,
        }),
        Err(error) => {
            drop(states);
            Err(error)
        }
    }
}

#[cycle(ending)]
fn put_states(
    alloc: Global,
    first: u32,
    states: &[ExtendedState],
    made: &mut Items<ExtendedState>,
) -> Result<(), AllocError>
    ensures { OnOk result (made.new ≡ made.old ++ all_states first (map ending_in_state states.now)) }
{
    let mut x = first;
    for state in states {
        put_state(alloc, x, state, made)?;
        x = sum(x, state_endings(state)?)?;
    }
    Ok(())
}

#[cycle(ending)]
#[tactic(auto, using(crate::proofs::EndingStates::state_ends))]
fn put_state(
    alloc: Global,
    x: u32,
    state: &ExtendedState,
    made: &mut Items<ExtendedState>,
) -> Result<(), AllocError>
    ensures { OnOk result (made.new ≡ made.old ++ (ending_in_state state.now).made x ∷ []) }
{
    let mut changed = bare(alloc, state);
    match fill_ending(alloc, x, state, &mut changed) {
        Ok(()) => made.push(changed),
        Err(error) => {
            drop(changed);
            Err(error)
        }
    }
}

// Puts what a state holds into a bare one, which is behind a reference so that no `?` has to drop its parts.
#[cycle(ending)]
fn fill_ending(
    alloc: Global,
    x: u32,
    state: &ExtendedState,
    changed: &mut ExtendedState,
) -> Result<(), AllocError>
    ensures { OnOk result (changed.new ≡ fill_ending x state.now changed.old) }
{
    let own = state.transitions.as_slice();
    let ends = is_ending(state.during.as_slice(), own);
    let done = variable(x as usize)?;
    put_beginning(ends, done, &mut changed.entry)?;
    put_copied_effects(alloc, state.entry.as_slice(), &mut changed.entry)?;
    put_copied_effects(alloc, state.exit.as_slice(), &mut changed.exit)?;
    put_left_durings(alloc, ends, state.during.as_slice(), &mut changed.during)?;
    put_deeper(alloc, ends, done, x, state, &mut changed.regions)?;
    put_left_transitions(alloc, ends, own, &mut changed.transitions)
}

// Puts the regions of a state, one level deeper where it is such a one.
#[cycle(ending)]
fn put_deeper(
    alloc: Global,
    ends: bool,
    done: VariableId,
    x: u32,
    state: &ExtendedState,
    made: &mut Items<ExtendedRegion>,
) -> Result<(), AllocError>
    ensures { OnOk result (made.new ≡ made.old ++ deeper ends done x state.now) }
{
    let inner = sum(x, one(ends))?;
    let mut regions = Items::new(alloc);
    put_regions(alloc, inner, state.regions.as_slice(), &mut regions)?;
    put_inside(alloc, ends, done, state, regions, made)
}
