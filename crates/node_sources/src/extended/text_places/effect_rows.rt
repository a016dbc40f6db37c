//! The effects of each transition of a draft, by their numbers: one walk over it, in the order of the text.

ghost use Rattle.std.specs.Prelude.{◌≡◌, ◌+◌, ◌++◌, IfOk, OnOk, map};
ghost use Rattle.core_charts.specs.Elements.{row};
ghost use Rattle.node_sources.specs.EffectRows.{effect_rows, of_region, of_state, of_transitions, rows_from};

use crate::extended::text_places::author::EffectRow;
use chart_reader::{DraftRegion, DraftState, DraftTransition};
use sqlite_items::Items;
use std::alloc::{AllocError, Global};

/// The effects of each transition of these regions. Err: memory was refused.
pub(crate) fn effect_rows(
    alloc: Global,
    regions: &[DraftRegion],
) -> Result<Items<EffectRow>, AllocError>
    ensures { IfOk result (λ rows. rows ≡ effect_rows regions.now) }
{
    let mut counts = Items::new(alloc);
    put_regions(regions, &mut counts)?;
    rows_of(alloc, counts.as_slice())
}

// The rows of transitions with so many effects.
fn rows_of(alloc: Global, counts: &[usize]) -> Result<Items<EffectRow>, AllocError>
    ensures { IfOk result (λ rows. rows ≡ rows_from 0 counts.now) }
{
    let mut rows = Items::new(alloc);
    let mut first: u32 = 0;
    for count in counts {
        rows.push(EffectRow {
            first,
            count: *count,
        })?;
        first = behind(first, *count)?;
    }
    Ok(rows)
}

// The number behind so many. Err: no memory holds a chart with so many.
fn behind(first: u32, count: usize) -> Result<u32, AllocError>
    ensures { IfOk result (λ number. number ≡ first + count) }
{
    let Ok(count) = u32::try_from(count) else {
        return Err(AllocError);
    };
    match first.checked_add(count) {
        Some(number) => Ok(number),
        None => Err(AllocError),
    }
}

// Puts those of regions, with all that is in them, behind the others.
#[cycle(draft)]
fn put_regions(regions: &[DraftRegion], counts: &mut Items<usize>) -> Result<(), AllocError>
    ensures { OnOk result (counts.new ≡ counts.old ++ row (map of_region regions.now)) }
{
    for region in regions {
        put_region(region, counts)?;
    }
    Ok(())
}

#[cycle(draft)]
#[tactic(auto, using(crate::proofs::ExtendedParts::counts_in_region))]
fn put_region(region: &DraftRegion, counts: &mut Items<usize>) -> Result<(), AllocError>
    ensures { OnOk result (counts.new ≡ counts.old ++ of_region region.now) }
{
    put_states(region.states.as_slice(), counts)
}

// Puts those of states, with all that is in them, behind the others.
#[cycle(draft)]
fn put_states(states: &[DraftState], counts: &mut Items<usize>) -> Result<(), AllocError>
    ensures { OnOk result (counts.new ≡ counts.old ++ row (map of_state states.now)) }
{
    for state in states {
        put_state(state, counts)?;
    }
    Ok(())
}

#[cycle(draft)]
fn put_state(state: &DraftState, counts: &mut Items<usize>) -> Result<(), AllocError>
    ensures { OnOk result (counts.new ≡ counts.old ++ of_state state.now) }
{
    put_transitions(state.transitions.as_slice(), counts)?;
    put_regions(state.regions.as_slice(), counts)
}

fn put_transitions(
    transitions: &[DraftTransition],
    counts: &mut Items<usize>,
) -> Result<(), AllocError>
    ensures { OnOk result (counts.new ≡ counts.old ++ of_transitions transitions.now) }
{
    for transition in transitions {
        counts.push(transition.effects.len())?;
    }
    Ok(())
}
