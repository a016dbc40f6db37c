//! Regions below one another, in columns: arrows that are not seen, from all that is in one region to the initial state
//! of the next.

use crate::drawn::{DrawnRegion, DrawnState};
use crate::sheet::{Place, Sheet};

// The number of the initial state.
fn initial_of(region: &DrawnRegion) -> u32 {
    let mut number: u32 = 0;
    for state in region.states.as_slice() {
        if state.is_initial {
            return number;
        }
        number = number.saturating_add(1);
    }
    0
}

// Puts an arrow that is not seen from what is put to the state of this place.
fn put_unseen(sheet: &mut Sheet, to: Place) {
    sheet.put("\"");
    sheet.put_path();
    sheet.put("\" -> \"");
    sheet.put_place(to);
    sheet.put("\" [style=\"invis\", weight=0];\n");
}

// Puts such arrows from all that is in these regions.
#[cycle(stacked)]
fn put_regions_above(regions: &[DrawnRegion], sheet: &mut Sheet, to: Place) {
    let mut number: u32 = 0;
    for region in regions {
        sheet.enter(number);
        put_states_above(region.states.as_slice(), sheet, to);
        sheet.leave();
        number = number.saturating_add(1);
    }
}

// Puts such arrows from these states, and from all in them.
#[cycle(stacked)]
fn put_states_above(states: &[DrawnState], sheet: &mut Sheet, to: Place) {
    let mut number: u32 = 0;
    for state in states {
        sheet.enter(number);
        put_unseen(sheet, to);
        put_regions_above(state.regions.as_slice(), sheet, to);
        sheet.leave();
        number = number.saturating_add(1);
    }
}

// How many states stand in a region, those of its superstates with it.
#[cycle(counted)]
fn count_in_region(region: &DrawnRegion) -> u32 {
    let mut count: u32 = 0;
    for state in region.states.as_slice() {
        count = count.saturating_add(count_in_state(state));
    }
    count
}

// How many states a state is, those in it with it.
#[cycle(counted)]
fn count_in_state(state: &DrawnState) -> u32 {
    let mut count: u32 = 1;
    for region in state.regions.as_slice() {
        count = count.saturating_add(count_in_region(region));
    }
    count
}

fn count_in_all(regions: &[DrawnRegion]) -> u32 {
    let mut count: u32 = 0;
    for region in regions {
        count = count.saturating_add(count_in_region(region));
    }
    count
}

// From how many states on regions stand in one column more: a column of 16 states is some four times as high as wide,
// so that k columns are for four times the square of k.
const MORE: [u32; 7] = [16, 36, 64, 100, 144, 196, 256];

// In how many columns regions with so many states stand, so that the drawing is about as wide as high.
fn columns_for(states: u32) -> u32 {
    let mut columns: u32 = 1;
    for least in &MORE {
        if states >= *least {
            columns = columns.saturating_add(1);
        }
    }
    columns
}

/// Puts the arrows by which regions stand above the next ones of their column. A column has its share of the states.
pub(crate) fn put_stacks(sheet: &mut Sheet, regions: &[DrawnRegion]) {
    let all = count_in_all(regions);
    let columns = columns_for(all);
    let mut above: Option<&DrawnRegion> = None;
    let mut filled: u32 = 0;
    let mut number: u32 = 0;
    for region in regions {
        if filled.saturating_mul(columns) >= all {
            above = None;
            filled = 0;
        }
        if let Some(upper) = above {
            put_above(sheet, upper, region, number);
        }
        above = Some(region);
        filled = filled.saturating_add(count_in_region(region));
        number = number.saturating_add(1);
    }
}

// Puts the arrows by which a region stands above the next one, which has this number.
fn put_above(sheet: &mut Sheet, upper: &DrawnRegion, region: &DrawnRegion, number: u32) {
    let to = Place {
        depth: sheet.depth(),
        region: number,
        state: initial_of(region),
    };
    sheet.enter(number.saturating_sub(1));
    put_states_above(upper.states.as_slice(), sheet, to);
    sheet.leave();
}
