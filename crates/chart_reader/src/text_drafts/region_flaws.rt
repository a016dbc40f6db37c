//! What is wrong with states and regions, which stand in one another.

ghost use Rattle.std.specs.Prelude.{◌≡◌, [], OnOk, IfOk, false, count_by};
ghost use Rattle.sc_text.specs.declared.read_fault.FaultKind.TheVariants as broken;
ghost use Rattle.sc_text.specs.Flaws.{flaw_if, is_full, is_repeated};
ghost use Rattle.sc_text.specs.Told.{told_behind};
ghost use Rattle.chart_reader.specs.declared.text_drafts.draft.DraftRegion.TheViews.{out-DraftRegion, out-DraftState};
ghost use Rattle.chart_reader.specs.Flaws.{is_filled, final_flaws, transition_flaws, state_names, state_flaws};
ghost use Rattle.chart_reader.specs.Flaws.{initial_flaws, region_names, region_flaws, nested_flaws};

use crate::text_drafts::draft::{DraftRegion, DraftState};
use crate::text_drafts::names::Names;
use crate::text_drafts::transition_flaws::transition_flaws;
use core_charts::{REGION_LIMIT, STATE_LIMIT};
use sc_text::{FaultKind, Flaw, Named, Scope, is_full, note_told};
use sc_values::Name;
use sqlite_items::Items;
use std::alloc::{AllocError, Global};

/// Tells the flaws of the regions of one superstate, which nest so many levels deep at most. Err: memory was
/// refused.
#[cycle(flaws)]
pub(crate) fn region_flaws(
    alloc: Global,
    scope: &Scope,
    levels: u8,
    regions: &[DraftRegion],
    found: &mut Items<Flaw>,
) -> Result<(), AllocError>
    ensures { OnOk result (found.new ≡ told_behind found.old
        (nested_flaws scope.now.variables.now levels regions.now)) }
{
    if levels == 0 {
        return deeper_flaws(alloc, regions, found);
    }
    let names = Names::of(alloc, region_names(alloc, regions)?)?;
    each_region_flaws(alloc, scope, levels - 1, &names, regions, found)
}

// The same, by the names of the regions, inside which so many levels more may nest.
#[cycle(flaws)]
fn each_region_flaws(
    alloc: Global,
    scope: &Scope,
    levels: u8,
    names: &Names,
    regions: &[DraftRegion],
    found: &mut Items<Flaw>,
) -> Result<(), AllocError>
    ensures { OnOk result (found.new ≡ told_behind found.old
        (region_flaws scope.now.variables.now (nested_flaws scope.now.variables.now levels) names.now.names 0
        regions.now)) }
{
    for (at, region) in regions.iter().enumerate() {
        place_flaws(alloc, names, REGION_LIMIT, at, region.named, found)?;
        initial_flaws(alloc, region, found)?;
        let states = region.states.as_slice();
        state_flaws(alloc, scope, levels, states, found)?;
    }
    Ok(())
}

// Tells the flaws of the states of a region, whose own regions nest so many levels deep at most.
#[cycle(flaws)]
fn state_flaws(
    alloc: Global,
    scope: &Scope,
    levels: u8,
    states: &[DraftState],
    found: &mut Items<Flaw>,
) -> Result<(), AllocError>
    ensures { OnOk result (found.new ≡ told_behind found.old
        (state_flaws scope.now.variables.now (nested_flaws scope.now.variables.now levels)
        (state_names states.now) 0 states.now)) }
{
    let names = Names::of(alloc, state_names(alloc, states)?)?;
    each_state_flaws(alloc, scope, levels, &names, states, found)
}

// The same, by the names of the states.
#[cycle(flaws)]
fn each_state_flaws(
    alloc: Global,
    scope: &Scope,
    levels: u8,
    names: &Names,
    states: &[DraftState],
    found: &mut Items<Flaw>,
) -> Result<(), AllocError>
    ensures { OnOk result (found.new ≡ told_behind found.old
        (state_flaws scope.now.variables.now (nested_flaws scope.now.variables.now levels) names.now.names 0
        states.now)) }
{
    for (at, state) in states.iter().enumerate() {
        place_flaws(alloc, names, STATE_LIMIT, at, state.named, found)?;
        final_flaws(alloc, state, found)?;
        own_transition_flaws(alloc, scope, names, state, found)?;
        region_flaws(alloc, scope, levels, state.regions.as_slice(), found)?;
    }
    Ok(())
}

// The flaws of regions where none may stand.
fn deeper_flaws(
    alloc: Global,
    regions: &[DraftRegion],
    found: &mut Items<Flaw>,
) -> Result<(), AllocError>
    ensures { OnOk result (found.new ≡ told_behind found.old (nested_flaws [] 0 regions.now)) }
{
    match regions {
        [] => Ok(()),
        [region, ..] => note_told(alloc, found, true, FaultKind::Limit, region.named.at),
    }
}

// The flaws of a state or a region by its place among those beside it, which have these names, where so many may stand.
fn place_flaws(
    alloc: Global,
    names: &Names,
    limit: usize,
    at: usize,
    named: Named,
    found: &mut Items<Flaw>,
) -> Result<(), AllocError>
    ensures { OnOk result (found.new ≡ told_behind (told_behind found.old
        (flaw_if (is_repeated names.now.names at named.name) broken.Repeated named.at))
        (flaw_if (is_full limit at) broken.Limit named.at)) }
{
    let is_repeated = names.is_repeated(at, named.name);
    note_told(alloc, found, is_repeated, FaultKind::Repeated, named.at)?;
    let is_past = is_full(limit, at);
    note_told(alloc, found, is_past, FaultKind::Limit, named.at)
}

fn final_flaws(alloc: Global, state: &DraftState, found: &mut Items<Flaw>) -> Result<(), AllocError>
    ensures { OnOk result (found.new ≡ told_behind found.old (final_flaws state.now)) }
{
    let is_bare = state.regions.is_empty() && state.transitions.is_empty();
    let is_broken = state.is_final && !is_bare;
    note_told(alloc, found, is_broken, FaultKind::Rule, state.named.at)
}

fn own_transition_flaws(
    alloc: Global,
    scope: &Scope,
    names: &Names,
    state: &DraftState,
    found: &mut Items<Flaw>,
) -> Result<(), AllocError>
    ensures { OnOk result (found.new ≡ told_behind found.old
        (transition_flaws scope.now.variables.now names.now.names (is_filled (out-DraftState state.now).regions) false 0
        (out-DraftState state.now).transitions)) }
{
    let is_superstate = !state.regions.is_empty();
    transition_flaws(
        alloc,
        scope,
        names,
        is_superstate,
        state.transitions.as_slice(),
        found,
    )
}

// A region has exactly one initial state.
fn initial_flaws(
    alloc: Global,
    region: &DraftRegion,
    found: &mut Items<Flaw>,
) -> Result<(), AllocError>
    ensures { OnOk result (found.new ≡ told_behind found.old (initial_flaws region.now)) }
{
    let count = initial_count(region.states.as_slice());
    note_told(alloc, found, count != 1, FaultKind::Rule, region.named.at)
}

fn initial_count(states: &[DraftState]) -> usize
    ensures { result ≡ count_by (λ s. (out-DraftState s).is_initial) states.now }
{
    let mut count = 0;
    for state in states {
        if state.is_initial {
            count += 1;
        }
    }
    count
}

/// The names of these states, in their order. Err: memory was refused.
pub fn state_names(alloc: Global, states: &[DraftState]) -> Result<Items<Name>, AllocError>
    ensures { IfOk result (λ names. names ≡ state_names states.now) }
{
    let mut names = Items::new(alloc);
    for state in states {
        names.push(state.named.name)?;
    }
    Ok(names)
}

fn region_names(alloc: Global, regions: &[DraftRegion]) -> Result<Items<Name>, AllocError>
    ensures { IfOk result (λ names. names ≡ region_names regions.now) }
{
    let mut names = Items::new(alloc);
    for region in regions {
        names.push(region.named.name)?;
    }
    Ok(names)
}
