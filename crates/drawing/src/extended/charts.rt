//! What is drawn of an extended chart.

ghost use Rattle.std.specs.Prelude.{IfOk, string_bytes};
ghost use Rattle.drawing.specs.Drawing.{IsDrawing};

use crate::extended::actions::{actions_text, label_text};
use crate::extended::symbols::symbols_of;
use crate::extended::transitions::{Words, arrows};
use crate::extended::variables::variable_lines;
use crate::{DrawnRegion, DrawnState, drawing_of};
use extended_charts::{ExtendedChart, ExtendedRegion, ExtendedState};
use sqlite_items::Items;
use std::alloc::{AllocError, Global};

#[cycle(drawn)]
fn drawn_regions(
    regions: &[ExtendedRegion],
    alloc: Global,
    words: &Words<'_>,
) -> Result<Items<DrawnRegion>, AllocError> {
    let mut drawn = Items::new(alloc);
    for region in regions {
        drawn.push(DrawnRegion {
            name: region.name,
            states: drawn_states(region.states.as_slice(), alloc, words)?,
        })?;
    }
    Ok(drawn)
}

#[cycle(drawn)]
fn drawn_states(
    states: &[ExtendedState],
    alloc: Global,
    words: &Words<'_>,
) -> Result<Items<DrawnState>, AllocError> {
    // no memory holds more
    let Ok(count) = u32::try_from(states.len()) else {
        return Err(AllocError);
    };
    let mut drawn = Items::new(alloc);
    for state in states {
        drawn.push(drawn_state(state, alloc, words, count)?)?;
    }
    Ok(drawn)
}

// What is drawn of a state of a region with so many.
#[cycle(drawn)]
fn drawn_state(
    state: &ExtendedState,
    alloc: Global,
    words: &Words<'_>,
    count: u32,
) -> Result<DrawnState, AllocError> {
    Ok(DrawnState {
        label: label_of(alloc, words, state)?,
        is_initial: state.is_initial,
        is_final: state.is_final,
        regions: drawn_regions(state.regions.as_slice(), alloc, words)?,
        arrows: arrows(alloc, words, count, state.transitions.as_slice())?,
    })
}

// The name of a state, and its actions.
fn label_of(alloc: Global, words: &Words<'_>, state: &ExtendedState) -> Result<String, AllocError> {
    let actions = actions_text(
        alloc,
        words.symbols,
        words.signals,
        state.entry.as_slice(),
        state.exit.as_slice(),
        state.during.as_slice(),
    )?;
    label_text(alloc, state.name, actions.as_str())
}

/// An extended chart as Graphviz text, as its author wrote it: drawn as charts are, and the label of a state has its
/// entry, during and exit actions. Err: memory was refused.
pub fn extended_drawing(alloc: Global, chart: &ExtendedChart) -> Result<String, AllocError>
    ensures { IfOk result (λ text. IsDrawing chart.now.name (string_bytes text)) }
{
    let symbols = symbols_of(alloc, chart)?;
    let words = Words {
        symbols: symbols.as_slice(),
        signals: chart.signals.as_slice(),
        counts: chart.counts.len(),
    };
    let regions = drawn_regions(chart.regions.as_slice(), alloc, &words)?;
    let variables = variable_lines(alloc, chart)?;
    drawing_of(alloc, chart.name, variables.as_str(), regions.as_slice())
}
