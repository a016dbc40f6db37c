//! What is wrong inside regions with what charts don't have: names that reductions make, and emissions.

ghost use Rattle.std.specs.Prelude.{◌≡◌, OnOk, map};
ghost use Rattle.sc_text.specs.Told.{told_behind};
ghost use Rattle.extended_reader.specs.Flaws.{joined, region_inside_flaws, state_inside_flaws};

use crate::text_drafts::emission_flaws::ways_flaws;
use crate::text_drafts::name_flaws::name_flaws;
use chart_reader::{DraftRegion, DraftState};
use sc_text::{Flaw, Scope};
use sqlite_items::Items;
use std::alloc::{AllocError, Global};

/// Tells what is wrong with the names of regions, of all that is in them, and with what is emitted there, where the
/// scope is that of the signals. Err: memory was refused.
#[cycle(inside)]
pub(crate) fn regions_inside_flaws(
    alloc: Global,
    signals: &Scope,
    regions: &[DraftRegion],
    found: &mut Items<Flaw>,
) -> Result<(), AllocError>
    ensures { OnOk result (found.new ≡ told_behind found.old
        (joined (map (region_inside_flaws signals.now.variables.now) regions.now))) }
{
    for region in regions {
        region_inside_flaws(alloc, signals, region, found)?;
    }
    Ok(())
}

#[cycle(inside)]
#[tactic(auto, using(crate::proofs::Told::region_told))]
fn region_inside_flaws(
    alloc: Global,
    signals: &Scope,
    region: &DraftRegion,
    found: &mut Items<Flaw>,
) -> Result<(), AllocError>
    ensures { OnOk result (found.new ≡ told_behind found.old
        (region_inside_flaws signals.now.variables.now region.now)) }
{
    name_flaws(alloc, region.named, found)?;
    states_inside_flaws(alloc, signals, region.states.as_slice(), found)
}

#[cycle(inside)]
fn states_inside_flaws(
    alloc: Global,
    signals: &Scope,
    states: &[DraftState],
    found: &mut Items<Flaw>,
) -> Result<(), AllocError>
    ensures { OnOk result (found.new ≡ told_behind found.old
        (joined (map (state_inside_flaws signals.now.variables.now) states.now))) }
{
    for state in states {
        state_inside_flaws(alloc, signals, state, found)?;
    }
    Ok(())
}

#[cycle(inside)]
#[tactic(auto, using(crate::proofs::Told::state_told))]
fn state_inside_flaws(
    alloc: Global,
    signals: &Scope,
    state: &DraftState,
    found: &mut Items<Flaw>,
) -> Result<(), AllocError>
    ensures { OnOk result (found.new ≡ told_behind found.old
        (state_inside_flaws signals.now.variables.now state.now)) }
{
    name_flaws(alloc, state.named, found)?;
    regions_inside_flaws(alloc, signals, state.regions.as_slice(), found)?;
    ways_flaws(alloc, signals, state.transitions.as_slice(), found)
}
