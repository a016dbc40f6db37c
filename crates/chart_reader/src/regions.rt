//! The regions and states of a draft, which stand in one another, with their names looked up.

ghost use Rattle.std.specs.Prelude.{◌≡◌, ◌≤◌, [], ◌∷◌, ◌++◌, IfOk, OnOk, length};
ghost use Rattle.sc_graph.specs.Limits.{variable_limit};
ghost use Rattle.sc_text.specs.Flaws.{variable_names};
ghost use Rattle.chart_reader.specs.declared.text_drafts.draft.DraftRegion.TheViews.{out-DraftRegion, out-DraftState};
ghost use Rattle.chart_reader.specs.Flaws.{state_names};
ghost use Rattle.chart_reader.specs.Narrow.{AreNarrow, AreStatesFew};
ghost use Rattle.chart_reader.specs.Resolved.{region_of, regions_of, state_of, states_of};
ghost use Rattle.chart_reader.specs.Inside.{fill_state};

use crate::states::StateScope;
use crate::text_drafts::{DraftRegion, DraftState};
use crate::transitions::put_transitions;
use core_charts::{Region, State};
use sc_text::Scope;
use sqlite_items::Items;
use std::alloc::{AllocError, Global};

/// The regions, over these variables, which nest so many levels deep at most. Err: memory was refused.
pub(crate) fn regions(
    alloc: Global,
    scope: &Scope,
    levels: u8,
    texts: &[DraftRegion],
) -> Result<Items<Region>, AllocError>
    requires few_variables { length scope.now.variables.now ≤ variable_limit }
    requires narrow { AreNarrow levels texts.now }
    ensures { IfOk result (λ all. all ≡ regions_of (variable_names scope.now.variables.now) texts.now) }
{
    let mut made = Items::new(alloc);
    match put_regions(alloc, scope, levels, texts, &mut made) {
        Ok(()) => Ok(made),
        Err(error) => {
            drop(made);
            Err(error)
        }
    }
}

// Puts these regions behind others.
#[cycle(resolving)]
fn put_regions(
    alloc: Global,
    scope: &Scope,
    levels: u8,
    texts: &[DraftRegion],
    made: &mut Items<Region>,
) -> Result<(), AllocError>
    requires few_variables { length scope.now.variables.now ≤ variable_limit }
    requires narrow { AreNarrow levels texts.now }
    ensures { OnOk result (made.new ≡ made.old ++ regions_of (variable_names scope.now.variables.now) texts.now) }
{
    if levels == 0 {
        return Ok(());
    }
    for text in texts {
        put_region(alloc, scope, levels - 1, text, made)?;
    }
    Ok(())
}

// Puts a region behind others, in whose states regions nest so many levels deep at most.
#[cycle(resolving)]
#[tactic(auto, using(crate::proofs::Looking::region_is))]
fn put_region(
    alloc: Global,
    scope: &Scope,
    levels: u8,
    text: &DraftRegion,
    made: &mut Items<Region>,
) -> Result<(), AllocError>
    requires few_variables { length scope.now.variables.now ≤ variable_limit }
    requires few_states { AreStatesFew (AreNarrow levels) (out-DraftRegion text.now).states }
    ensures { OnOk result (made.new
        ≡ made.old ++ region_of (variable_names scope.now.variables.now) text.now ∷ []) }
{
    let mut states = Items::new(alloc);
    match put_states(alloc, scope, levels, text.states.as_slice(), &mut states) {
        Ok(()) => made.push(Region {
            name: text.named.name,
            states,
        }),
        Err(error) => {
            drop(states);
            Err(error)
        }
    }
}

// Puts the states of one region behind others.
#[cycle(resolving)]
fn put_states(
    alloc: Global,
    scope: &Scope,
    levels: u8,
    texts: &[DraftState],
    made: &mut Items<State>,
) -> Result<(), AllocError>
    requires few_variables { length scope.now.variables.now ≤ variable_limit }
    requires few_states { AreStatesFew (AreNarrow levels) texts.now }
    ensures { OnOk result (made.new ≡ made.old
        ++ states_of (variable_names scope.now.variables.now) (state_names texts.now) texts.now) }
{
    let own = StateScope::of(alloc, texts)?;
    put_own_states(alloc, scope, &own, levels, texts, made)
}

// Puts states behind others, whose transitions lead to the states of this scope.
#[cycle(resolving)]
fn put_own_states(
    alloc: Global,
    scope: &Scope,
    own: &StateScope,
    levels: u8,
    texts: &[DraftState],
    made: &mut Items<State>,
) -> Result<(), AllocError>
    requires few_variables { length scope.now.variables.now ≤ variable_limit }
    requires few_states { AreStatesFew (AreNarrow levels) texts.now }
    ensures { OnOk result (made.new ≡ made.old
        ++ states_of (variable_names scope.now.variables.now) (state_names own.now.states.now) texts.now) }
{
    for text in texts {
        put_state(alloc, scope, own, levels, text, made)?;
    }
    Ok(())
}

#[cycle(resolving)]
#[tactic(auto, using(crate::proofs::Looking::state_is))]
fn put_state(
    alloc: Global,
    scope: &Scope,
    own: &StateScope,
    levels: u8,
    text: &DraftState,
    made: &mut Items<State>,
) -> Result<(), AllocError>
    requires few_variables { length scope.now.variables.now ≤ variable_limit }
    requires narrow { AreNarrow levels (out-DraftState text.now).regions }
    ensures { OnOk result (made.new ≡ made.old
        ++ state_of (variable_names scope.now.variables.now) (state_names own.now.states.now) text.now ∷ []) }
{
    let mut state = State {
        name: text.named.name,
        is_initial: text.is_initial,
        is_final: text.is_final,
        regions: Items::new(alloc),
        transitions: Items::new(alloc),
    };
    match fill_state(alloc, scope, own, levels, text, &mut state) {
        Ok(()) => made.push(state),
        Err(error) => {
            drop(state);
            Err(error)
        }
    }
}

// Puts what is in a state into it, which is behind a reference so that no `?` has to drop its parts.
#[cycle(resolving)]
fn fill_state(
    alloc: Global,
    scope: &Scope,
    own: &StateScope,
    levels: u8,
    text: &DraftState,
    state: &mut State,
) -> Result<(), AllocError>
    requires few_variables { length scope.now.variables.now ≤ variable_limit }
    requires narrow { AreNarrow levels (out-DraftState text.now).regions }
    ensures { OnOk result (state.new ≡ fill_state (variable_names scope.now.variables.now)
        (state_names own.now.states.now) text.now state.old) }
{
    let inside = text.regions.as_slice();
    put_regions(alloc, scope, levels, inside, &mut state.regions)?;
    let leaving = text.transitions.as_slice();
    put_transitions(alloc, scope, own, leaving, &mut state.transitions)
}
