//! What is drawn of a chart.

ghost use Rattle.std.specs.Prelude.{IfOk, string_bytes};
ghost use Rattle.drawing.specs.Drawing.{IsDrawing};

use crate::drawn::{Arrow, DrawnRegion, DrawnState};
use crate::labels::transition_text;
use crate::regions::drawing_of;
use crate::symbols::{Symbol, symbols_of};
use crate::variables::variable_lines;
use core_charts::{Chart, Region, State, Transition};
use sqlite_items::Items;
use std::alloc::{AllocError, Global};

// A text that was made. Where memory was refused to it, that is noted, and it is empty.
fn text_of(alloc: Global, made: Result<String, AllocError>, is_refused: &mut bool) -> String {
    match made {
        Ok(text) => text,
        Err(_) => {
            *is_refused = true;
            String::new(alloc)
        }
    }
}

// The arrows of these transitions of a state. It is noted where memory was refused.
fn arrows_of(
    transitions: &[Transition],
    alloc: Global,
    symbols: &[Symbol],
    is_refused: &mut bool,
) -> Items<Arrow> {
    let mut arrows = Items::new(alloc);
    let mut number: u32 = 1;
    for transition in transitions {
        let words = transition_text(alloc, symbols, number, transition);
        let arrow = Arrow {
            kind: transition.kind,
            immediate: transition.immediate,
            target: transition.target,
            words: text_of(alloc, words, is_refused),
        };
        if arrows.push(arrow).is_err() {
            *is_refused = true;
        }
        number = number.saturating_add(1);
    }
    arrows
}

// What is drawn of regions. It is noted where memory was refused.
#[cycle(charted)]
fn regions_of(
    regions: &[Region],
    alloc: Global,
    symbols: &[Symbol],
    is_refused: &mut bool,
) -> Items<DrawnRegion> {
    let mut drawn = Items::new(alloc);
    for region in regions {
        let region = DrawnRegion {
            name: region.name,
            states: states_of(region.states.as_slice(), alloc, symbols, is_refused),
        };
        if drawn.push(region).is_err() {
            *is_refused = true;
        }
    }
    drawn
}

// What is drawn of states. It is noted where memory was refused.
#[cycle(charted)]
fn states_of(
    states: &[State],
    alloc: Global,
    symbols: &[Symbol],
    is_refused: &mut bool,
) -> Items<DrawnState> {
    let mut drawn = Items::new(alloc);
    for state in states {
        let label = String::from_str(alloc, state.name.as_str());
        let state = DrawnState {
            label: text_of(alloc, label, is_refused),
            is_initial: state.is_initial,
            is_final: state.is_final,
            regions: regions_of(state.regions.as_slice(), alloc, symbols, is_refused),
            arrows: arrows_of(state.transitions.as_slice(), alloc, symbols, is_refused),
        };
        if drawn.push(state).is_err() {
            *is_refused = true;
        }
    }
    drawn
}

// What is drawn of the regions of a chart. Err: memory was refused.
fn drawn_of(alloc: Global, chart: &Chart) -> Result<Items<DrawnRegion>, AllocError> {
    let symbols = symbols_of(alloc, chart.variables())?;
    let mut is_refused = false;
    let drawn = regions_of(chart.regions(), alloc, symbols.as_slice(), &mut is_refused);
    if is_refused {
        drop(drawn);
        Err(AllocError)
    } else {
        Ok(drawn)
    }
}

/// A chart as Graphviz text: regions and superstates are clusters, simple states nodes, and each transition an arrow
/// through its words, which begin with its number, in the order in which its state tests them. Initial states have a
/// bold border, final ones two; strong aborts begin with a red disc, weak ones with an orange circle, terminations with
/// a green triangle; immediate transitions are dashed. The regions of a state stand below one another, and where there
/// is much in them, in several columns. Err: memory was refused.
pub fn chart_drawing(alloc: Global, chart: &Chart) -> Result<String, AllocError>
    ensures { IfOk result (λ text. IsDrawing chart.now.name (string_bytes text)) }
{
    let variables = variable_lines(alloc, chart.variables())?;
    let regions = drawn_of(alloc, chart)?;
    drawing_of(alloc, chart.name(), variables.as_str(), regions.as_slice())
}
