//! The regions and states of a draft, which stand in one another, with their names looked up. Each takes its rows off
//! those that are left.

ghost use Rattle.std.specs.Prelude.{◌≡◌, ◌≤◌, [], ◌∷◌, ◌++◌, OnOk, length, map};
ghost use Rattle.sc_graph.specs.Limits.{variable_limit};
ghost use Rattle.sc_text.specs.Flaws.{variable_names};
ghost use Rattle.chart_reader.specs.declared.text_drafts.draft.DraftRegion.TheViews.{out-DraftRegion, out-DraftState};
ghost use Rattle.chart_reader.specs.Flaws.{state_names};
ghost use Rattle.chart_reader.specs.Narrow.{AreNarrow, AreStatesFew};
ghost use Rattle.extended_reader.specs.Inside.{rows_in, fill_state};
ghost use Rattle.extended_reader.specs.Resolved.{region_of, state_of, all_regions, behind_regions};
ghost use Rattle.extended_reader.specs.Resolved.{all_states, behind_states};

use crate::actions::put_actions;
use crate::rows::RowsLeft;
use crate::transitions::put_transitions;
use chart_reader::{DraftRegion, DraftState, StateScope};
use extended_charts::{ExtendedRegion, ExtendedState};
use sc_text::Scope;
use sqlite_items::Items;
use std::alloc::{AllocError, Global};

/// Puts the regions, over these variables, which nest so many levels deep at most, behind others. Err: memory was
/// refused.
#[cycle(resolving)]
#[tactic(auto, using(crate::proofs::Looking::none_put, crate::proofs::Looking::none_taken))]
pub(crate) fn put_regions(
    alloc: Global,
    scope: &Scope,
    rows: &mut RowsLeft,
    levels: u8,
    texts: &[DraftRegion],
    made: &mut Items<ExtendedRegion>,
) -> Result<(), AllocError>
    requires few_variables { length scope.now.variables.now ≤ variable_limit }
    requires narrow { AreNarrow levels texts.now }
    ensures made { OnOk result (made.new ≡ made.old ++ all_regions (rows_in rows.old)
        (map (region_of (variable_names scope.now.variables.now)) texts.now)) }
    ensures left { OnOk result (rows_in rows.new ≡ behind_regions (rows_in rows.old)
        (map (region_of (variable_names scope.now.variables.now)) texts.now)) }
{
    if levels == 0 {
        return Ok(());
    }
    for text in texts {
        put_region(alloc, scope, rows, levels - 1, text, made)?;
    }
    Ok(())
}

// Puts a region behind others, in whose states regions nest so many levels deep at most.
#[cycle(resolving)]
#[tactic(auto, using(crate::proofs::Looking::region_is))]
fn put_region(
    alloc: Global,
    scope: &Scope,
    rows: &mut RowsLeft,
    levels: u8,
    text: &DraftRegion,
    made: &mut Items<ExtendedRegion>,
) -> Result<(), AllocError>
    requires few_variables { length scope.now.variables.now ≤ variable_limit }
    requires few_states { AreStatesFew (AreNarrow levels) (out-DraftRegion text.now).states }
    ensures made { OnOk result (made.new ≡ made.old ++
        (region_of (variable_names scope.now.variables.now) text.now).made (rows_in rows.old) ∷ []) }
    ensures left { OnOk result (rows_in rows.new ≡
        (region_of (variable_names scope.now.variables.now) text.now).behind (rows_in rows.old)) }
{
    let mut states = Items::new(alloc);
    match put_states(
        alloc,
        scope,
        rows,
        levels,
        text.states.as_slice(),
        &mut states,
    ) {
        Ok(()) => made.push(ExtendedRegion {
            name: text.named.name,
            states,
        }),
        Err(error) => {
            drop(states);
            Err(error)
        }
    }
}

// Puts the states of one region behind others.
#[cycle(resolving)]
fn put_states(
    alloc: Global,
    scope: &Scope,
    rows: &mut RowsLeft,
    levels: u8,
    texts: &[DraftState],
    made: &mut Items<ExtendedState>,
) -> Result<(), AllocError>
    requires few_variables { length scope.now.variables.now ≤ variable_limit }
    requires few_states { AreStatesFew (AreNarrow levels) texts.now }
    ensures made { OnOk result (made.new ≡ made.old ++ all_states (state_names texts.now) (rows_in rows.old)
        (map (state_of (variable_names scope.now.variables.now)) texts.now)) }
    ensures left { OnOk result (rows_in rows.new ≡ behind_states (rows_in rows.old)
        (map (state_of (variable_names scope.now.variables.now)) texts.now)) }
{
    let own = StateScope::of(alloc, texts)?;
    put_own_states(alloc, scope, rows, &own, levels, texts, made)
}

// Puts states behind others, whose transitions lead to the states of this scope.
#[cycle(resolving)]
fn put_own_states(
    alloc: Global,
    scope: &Scope,
    rows: &mut RowsLeft,
    own: &StateScope,
    levels: u8,
    texts: &[DraftState],
    made: &mut Items<ExtendedState>,
) -> Result<(), AllocError>
    requires few_variables { length scope.now.variables.now ≤ variable_limit }
    requires few_states { AreStatesFew (AreNarrow levels) texts.now }
    ensures made { OnOk result (made.new ≡ made.old ++ all_states (state_names own.now.states.now) (rows_in rows.old)
        (map (state_of (variable_names scope.now.variables.now)) texts.now)) }
    ensures left { OnOk result (rows_in rows.new ≡ behind_states (rows_in rows.old)
        (map (state_of (variable_names scope.now.variables.now)) texts.now)) }
{
    for text in texts {
        put_state(alloc, scope, rows, own, levels, text, made)?;
    }
    Ok(())
}

#[cycle(resolving)]
#[tactic(auto, using(crate::proofs::Looking::state_is))]
fn put_state(
    alloc: Global,
    scope: &Scope,
    rows: &mut RowsLeft,
    own: &StateScope,
    levels: u8,
    text: &DraftState,
    made: &mut Items<ExtendedState>,
) -> Result<(), AllocError>
    requires few_variables { length scope.now.variables.now ≤ variable_limit }
    requires narrow { AreNarrow levels (out-DraftState text.now).regions }
    ensures made { OnOk result (made.new ≡ made.old ++
        (state_of (variable_names scope.now.variables.now) text.now).made
        (state_names own.now.states.now) (rows_in rows.old) ∷ []) }
    ensures left { OnOk result (rows_in rows.new ≡
        (state_of (variable_names scope.now.variables.now) text.now).behind (rows_in rows.old)) }
{
    let mut state = ExtendedState {
        name: text.named.name,
        is_own: true,
        is_initial: text.is_initial,
        is_final: text.is_final,
        entry: Items::new(alloc),
        exit: Items::new(alloc),
        during: Items::new(alloc),
        regions: Items::new(alloc),
        transitions: Items::new(alloc),
    };
    match fill_state(alloc, scope, rows, own, levels, text, &mut state) {
        Ok(()) => made.push(state),
        Err(error) => {
            drop(state);
            Err(error)
        }
    }
}

// Puts what a state holds into it, which is behind a reference so that no `?` has to drop its parts.
#[cycle(resolving)]
#[tactic(auto, using(crate::proofs::Looking::state_leaves))]
fn fill_state(
    alloc: Global,
    scope: &Scope,
    rows: &mut RowsLeft,
    own: &StateScope,
    levels: u8,
    text: &DraftState,
    state: &mut ExtendedState,
) -> Result<(), AllocError>
    requires few_variables { length scope.now.variables.now ≤ variable_limit }
    requires narrow { AreNarrow levels (out-DraftState text.now).regions }
    ensures made { OnOk result (state.new ≡ fill_state (variable_names scope.now.variables.now)
        (state_names own.now.states.now) text.now (rows_in rows.old) state.old) }
    ensures left { OnOk result (rows_in rows.new ≡
        (state_of (variable_names scope.now.variables.now) text.now).behind (rows_in rows.old)) }
{
    put_actions(alloc, scope, rows.actions(), state)?;
    let inside = text.regions.as_slice();
    let leaving = text.transitions.as_slice();
    put_regions(alloc, scope, rows, levels, inside, &mut state.regions)?;
    put_transitions(alloc, scope, own, rows, leaving, &mut state.transitions)
}
