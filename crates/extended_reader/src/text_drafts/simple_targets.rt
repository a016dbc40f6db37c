//! Where the targets of transitions stand that are states without regions.

ghost use Rattle.std.specs.Prelude.{◌≡◌, ◌++◌, IfOk, OnOk, map, not};
ghost use Rattle.sc_values.specs.Code.{some_if};
ghost use Rattle.sc_text.specs.Flaws.{is_among};
ghost use Rattle.sc_text.specs.Index.{IsIndex};
ghost use Rattle.chart_reader.specs.declared.text_drafts.draft.DraftRegion.TheViews.{out-DraftState};
ghost use Rattle.chart_reader.specs.Flaws.{is_filled};
ghost use Rattle.extended_reader.specs.Targets.{target_among, simple_name, simple_names, places_in};
ghost use Rattle.extended_reader.specs.Targets.{region_targets, state_targets, simple_targets};

use chart_reader::{DraftRegion, DraftState, DraftTransition};
use sc_text::{Index, Named};
use sc_values::Name;
use sqlite_items::Items;
use std::alloc::{AllocError, Global};

/// The names of the states of a region that have no regions, and a table of their places by name.
#[derive(Drop)]
struct SimpleStates {
    names: Items<Name>,
    index: Index,
    ghost same: { IsIndex names index },
}

impl SimpleStates {
    // Those of these states. Err: memory was refused.
    fn of(alloc: Global, states: &[DraftState]) -> Result<SimpleStates, AllocError>
        ensures { IfOk result (λ simple. simple.names ≡ simple_names (map state_targets states.now)) }
    {
        let names = simple_names(alloc, states)?;
        let index = Index::of(alloc, names.as_slice())?;
        Ok(SimpleStates { names, index })
    }

    // The place of this target, where it is one of them.
    fn place(&self, target: Named) -> Option<usize>
        ensures { result ≡ some_if (is_among self.now.names target.name) target.at }
    {
        if self.index.has(target.name) {
            Some(target.at)
        } else {
            None
        }
    }
}

fn simple_names(alloc: Global, states: &[DraftState]) -> Result<Items<Name>, AllocError>
    ensures { IfOk result (λ names. names ≡ simple_names (map state_targets states.now)) }
{
    let mut names = Items::new(alloc);
    for state in states {
        put_name(state, &mut names)?;
    }
    Ok(names)
}

fn is_simple(state: &DraftState) -> bool
    ensures { result ≡ not (is_filled (out-DraftState state.now).regions) }
{
    state.regions.is_empty()
}

// Puts the name of a state behind others, where it has no regions.
#[tactic(auto, using(crate::proofs::SimplePlaces::name_put, crate::proofs::SimplePlaces::none_put))]
fn put_name(state: &DraftState, names: &mut Items<Name>) -> Result<(), AllocError>
    ensures { OnOk result (names.new ≡ names.old ++ simple_name (state_targets state.now)) }
{
    if is_simple(state) {
        names.push(state.named.name)?;
    }
    Ok(())
}

/// Puts the places of the targets without regions behind others: one for each transition in these regions. Err: memory
/// was refused.
#[cycle(targets)]
pub(crate) fn put_targets(
    alloc: Global,
    regions: &[DraftRegion],
    found: &mut Items<Option<usize>>,
) -> Result<(), AllocError>
    ensures { OnOk result (found.new ≡ found.old ++ simple_targets regions.now) }
{
    for region in regions {
        put_region(alloc, region, found)?;
    }
    Ok(())
}

#[cycle(targets)]
#[tactic(auto, using(crate::proofs::SimplePlaces::region_is))]
fn put_region(
    alloc: Global,
    region: &DraftRegion,
    found: &mut Items<Option<usize>>,
) -> Result<(), AllocError>
    ensures { OnOk result (found.new ≡ found.old ++ region_targets region.now) }
{
    let simple = SimpleStates::of(alloc, region.states.as_slice())?;
    put_states(alloc, &simple, region.states.as_slice(), found)
}

#[cycle(targets)]
fn put_states(
    alloc: Global,
    simple: &SimpleStates,
    states: &[DraftState],
    found: &mut Items<Option<usize>>,
) -> Result<(), AllocError>
    ensures { OnOk result (found.new ≡ found.old ++ places_in simple.now.names (map state_targets states.now)) }
{
    for state in states {
        put_state(alloc, simple, state, found)?;
    }
    Ok(())
}

#[cycle(targets)]
#[tactic(auto, using(crate::proofs::SimplePlaces::state_put))]
fn put_state(
    alloc: Global,
    simple: &SimpleStates,
    state: &DraftState,
    found: &mut Items<Option<usize>>,
) -> Result<(), AllocError>
    ensures { OnOk result (found.new ≡ found.old ++ (state_targets state.now).places simple.now.names) }
{
    put_targets(alloc, state.regions.as_slice(), found)?;
    put_own(simple, state.transitions.as_slice(), found)
}

// Those of the transitions of one state.
fn put_own(
    simple: &SimpleStates,
    transitions: &[DraftTransition],
    found: &mut Items<Option<usize>>,
) -> Result<(), AllocError>
    ensures { OnOk result (found.new ≡ found.old ++ map (target_among simple.now.names) transitions.now) }
{
    for transition in transitions {
        found.push(simple.place(transition.target))?;
    }
    Ok(())
}
