//! The table of a chart.

ghost use Rattle.std.specs.Prelude.{◌≡◌, ◌∷◌, ◌++◌, [], IfOk, OnOk, map};
ghost use Rattle.chart_machine.specs.Table.{both, nothing, alone, next_behind, side_by_side, in_region};
ghost use Rattle.chart_machine.specs.Table.{state_numbers, subtree_of_region, subtree_of_state, table_of, table};
ghost use Rattle.chart_machine.specs.Inside.{HaveStates, row_of};

use crate::entering::put_entered;
use crate::numbering::{past_initial, past_regions, region_numbers, state_numbers};
use crate::standing::Move;
use crate::table::{RegionRow, StateRow, SubtreeRows, Table, TablePosition};
use core_charts::{Chart, CoreChart, Region, State, copied_transitions};
use sc_graph::Variable;
use sqlite_items::Items;
use std::alloc::{AllocError, Global};

impl Table {
    /// The table of a chart. Err: memory was refused, or there are more states or regions than any memory holds.
    pub fn of_chart(alloc: Global, chart: &Chart) -> Result<Table, AllocError>
        ensures { IfOk result (λ k. k ≡ table chart.now) }
    {
        table_of(alloc, chart.variables(), chart.regions())
    }

    /// The table of a core chart. Err: memory was refused, or there are more states or regions than any memory holds.
    pub fn of_core_chart(alloc: Global, chart: &CoreChart) -> Result<Table, AllocError>
        ensures { IfOk result (λ k. k ≡ table chart.now) }
    {
        table_of(alloc, chart.variables(), chart.regions())
    }
}

// The table of a chart of these variables and regions.
fn table_of(alloc: Global, variables: &[Variable], regions: &[Region]) -> Result<Table, AllocError>
    ensures { IfOk result (λ k. k ≡ table_of variables.now regions.now) }
{
    let whole = TablePosition {
        state: 0,
        region: 1,
        holder: 0,
        around: Items::new(alloc),
    };
    let mut rows = SubtreeRows::none(alloc);
    put_side_by_side(alloc, regions, whole, &mut rows)?;
    let variables = Items::from_slice(alloc, variables)?;
    Ok(Table {
        variables,
        states: rows.states,
        regions: rows.regions,
        opened: rows.entered,
    })
}

impl SubtreeRows {
    fn none(alloc: Global) -> SubtreeRows
        ensures { result ≡ nothing }
    {
        SubtreeRows {
            states: Items::new(alloc),
            regions: Items::new(alloc),
            entered: Items::new(alloc),
        }
    }
}

// Puts what regions of a superstate give, side by side from this position on, behind other rows.
#[cycle(parts)]
fn put_side_by_side(
    alloc: Global,
    regions: &[Region],
    at: TablePosition,
    rows: &mut SubtreeRows,
) -> Result<(), AllocError>
    ensures { OnOk result (rows.new ≡ both rows.old (side_by_side (map subtree_of_region regions.now) at)) }
{
    let mut here = at;
    for region in regions {
        put_region(alloc, region, &here, rows)?;
        here.pass_region(region)?;
    }
    Ok(())
}

// Puts what a state gives behind other rows.
#[cycle(parts)]
fn put_state(
    alloc: Global,
    state: &State,
    at: &TablePosition,
    rows: &mut SubtreeRows,
) -> Result<(), AllocError>
    ensures { OnOk result (rows.new ≡ both rows.old ((subtree_of_state state.now).parts at.now)) }
{
    let mut inside = SubtreeRows::none(alloc);
    put_side_by_side(
        alloc,
        state.regions.as_slice(),
        at.within(alloc)?,
        &mut inside,
    )?;
    put_entered(
        alloc,
        state,
        at,
        inside.entered.as_slice(),
        &mut rows.entered,
    )?;
    put_row(alloc, state, at, inside.entered, &mut rows.states)?;
    rows.states.append(inside.states)?;
    rows.regions.append(inside.regions)
}

// Puts the row of a state behind others.
fn put_row(
    alloc: Global,
    state: &State,
    at: &TablePosition,
    opened: Items<Move>,
    rows: &mut Items<StateRow>,
) -> Result<(), AllocError>
    ensures { OnOk result (rows.new ≡ rows.old ++ row_of state.now at.now opened ∷ []) }
{
    let mut entered = Items::new(alloc);
    put_entered(alloc, state, at, opened.as_slice(), &mut entered)?;
    rows.push(StateRow {
        holder: at.holder,
        regions: region_numbers(alloc, state.regions.as_slice(), at.region)?,
        transitions: copied_transitions(alloc, state.transitions.as_slice())?,
        entered,
        opened,
    })
}

// Puts what a region gives behind other rows.
#[cycle(parts)]
fn put_region(
    alloc: Global,
    region: &Region,
    at: &TablePosition,
    rows: &mut SubtreeRows,
) -> Result<(), AllocError>
    ensures states { OnOk result (rows.new.states ≡
        rows.old.states ++ ((subtree_of_region region.now).parts at.now).states) }
    ensures regions { OnOk result (rows.new.regions ≡
        rows.old.regions ++ ((subtree_of_region region.now).parts at.now).regions) }
    ensures entered { OnOk result (rows.new.entered ≡
        rows.old.entered ++ ((subtree_of_region region.now).parts at.now).entered) }
{
    let states = region.states.as_slice();
    put_region_row(alloc, states, at, &mut rows.regions)?;
    let inside = at.inside_region(alloc)?;
    let next = past_initial(states, inside.region)?;
    let mut others = Items::new(alloc);
    put_states(alloc, states, next, inside, rows, &mut others)?;
    rows.regions.append(others)?;
    Ok(())
}

// Puts the row of a region of these states behind others.
fn put_region_row(
    alloc: Global,
    states: &[State],
    at: &TablePosition,
    rows: &mut Items<RegionRow>,
) -> Result<(), AllocError>
    ensures { OnOk result (rows.new ≡ rows.old ++
        record { around = at.now.around; states = state_numbers (map subtree_of_state states.now) at.now.state } ∷ []) }
{
    rows.push(RegionRow {
        around: Items::from_slice(alloc, at.around.as_slice())?,
        states: state_numbers(alloc, states, at.state)?,
    })
}

// Puts what the states of a region give, from this position on, behind other rows; the rows of the regions inside all
// but the initial one, which have the numbers from next on, behind others of these.
#[cycle(parts)]
fn put_states(
    alloc: Global,
    states: &[State],
    next: usize,
    at: TablePosition,
    rows: &mut SubtreeRows,
    others: &mut Items<RegionRow>,
) -> Result<(), AllocError>
    ensures { OnOk result (HaveStates (in_region (map subtree_of_state states.now) next at)
        rows.old rows.new others.old others.new) }
{
    let mut here = at;
    let mut next = next;
    for state in states {
        next = put_one(alloc, state, next, &here, rows, others)?;
        here.pass(state)?;
    }
    Ok(())
}

// Puts what one of them gives: the answer is the next number of a region.
#[cycle(parts)]
fn put_one(
    alloc: Global,
    state: &State,
    next: usize,
    here: &TablePosition,
    rows: &mut SubtreeRows,
    others: &mut Items<RegionRow>,
) -> Result<usize, AllocError>
    ensures next { IfOk result (λ n. n ≡ next_behind (subtree_of_state state.now) next) }
    ensures rows { OnOk result (HaveStates (alone (subtree_of_state state.now) next here.now)
        rows.old rows.new others.old others.new) }
{
    if state.is_initial {
        put_state(alloc, state, here, rows)?;
        return Ok(next);
    }
    put_other(alloc, state, here.with_region(alloc, next)?, rows, others)?;
    past_regions(state, next)
}

// Puts what a state that is not initial gives, at its position.
#[cycle(parts)]
fn put_other(
    alloc: Global,
    state: &State,
    at: TablePosition,
    rows: &mut SubtreeRows,
    others: &mut Items<RegionRow>,
) -> Result<(), AllocError>
    ensures states { OnOk result (rows.new.states ≡ rows.old.states ++ ((subtree_of_state state.now).parts at).states) }
    ensures regions { OnOk result (rows.new.regions ≡ rows.old.regions) }
    ensures others { OnOk result (others.new ≡ others.old ++ ((subtree_of_state state.now).parts at).regions) }
    ensures entered { OnOk result (rows.new.entered ≡ rows.old.entered) }
{
    let mut own = SubtreeRows::none(alloc);
    put_state(alloc, state, &at, &mut own)?;
    rows.states.append(own.states)?;
    others.append(own.regions)
}
