//! The drawing of regions: a cluster for each region and each superstate, a node for each simple state, an arrow for
//! each transition. A superstate has a point inside, which is not seen, at which its arrows begin and end; they are cut
//! at its border.

ghost use Rattle.std.specs.Prelude.{IfOk, string_bytes};
ghost use Rattle.drawing.specs.Drawing.{IsDrawing};

use crate::arrows::put_transitions;
use crate::drawn::{DrawnRegion, DrawnState};
use crate::sheet::Sheet;
use crate::stacking::put_stacks;
use crate::text::graph_text;
use crate::variables::put_variables;
use sc_values::Name;
use std::alloc::{AllocError, Global};

const FONTS: &str =
    "ranksep=\"0.25\";\nnode [fontname=\"Helvetica\", fontsize=11];\nedge [fontname=\"Helvetica\", fontsize=10];\n";

// How a state's border is drawn.
fn border(state: &DrawnState) -> &'static str {
    if state.is_initial { "bold" } else { "solid" }
}

// How many lines go round a state.
fn rings(state: &DrawnState) -> &'static str {
    if state.is_final { "2" } else { "1" }
}

// Puts what begins the cluster of a region.
fn put_region_opening(sheet: &mut Sheet, name: &Name) {
    sheet.put("subgraph \"cluster_");
    sheet.put_path();
    sheet.put("\" {\nlabel=\"");
    sheet.put(name.as_str());
    sheet.put("\";\nstyle=\"dashed\";\n");
}

// Puts the clusters of regions.
#[cycle(put)]
fn put_regions(regions: &[DrawnRegion], sheet: &mut Sheet) {
    let mut number: u32 = 0;
    for region in regions {
        sheet.enter(number);
        put_region_opening(sheet, &region.name);
        put_states(region.states.as_slice(), sheet);
        put_transitions(sheet, region.states.as_slice());
        sheet.put("}\n");
        sheet.leave();
        number = number.saturating_add(1);
    }
}

// Puts the nodes of simple states, and the clusters of superstates.
#[cycle(put)]
fn put_states(states: &[DrawnState], sheet: &mut Sheet) {
    let mut number: u32 = 0;
    for state in states {
        sheet.enter(number);
        if state.is_superstate() {
            put_state_opening(sheet, state);
            put_regions(state.regions.as_slice(), sheet);
            sheet.put("}\n");
            put_stacks(sheet, state.regions.as_slice());
        } else {
            put_simple(sheet, state);
        }
        sheet.leave();
        number = number.saturating_add(1);
    }
}

// Puts the node of a simple state.
fn put_simple(sheet: &mut Sheet, state: &DrawnState) {
    sheet.put("\"");
    sheet.put_path();
    sheet.put("\" [label=\"");
    sheet.put(state.label.as_str());
    sheet.put("\", shape=\"box\", style=\"rounded,");
    sheet.put(border(state));
    sheet.put("\", peripheries=");
    sheet.put(rings(state));
    sheet.put("];\n");
}

// Puts what begins the cluster of a superstate.
fn put_state_opening(sheet: &mut Sheet, state: &DrawnState) {
    sheet.put("subgraph \"cluster_");
    sheet.put_path();
    sheet.put("\" {\nlabel=\"");
    sheet.put(state.label.as_str());
    sheet.put("\";\nstyle=\"rounded,");
    sheet.put(border(state));
    sheet.put("\";\n\"");
    sheet.put_path();
    sheet.put("\" [shape=\"point\", style=\"invis\", width=0];\n");
}

// Puts what stands in the drawing of a chart of this name: its title, the lines of its variables, and the clusters of
// its regions.
fn put_body(sheet: &mut Sheet, name: &Name, variables: &str, regions: &[DrawnRegion]) {
    sheet.put("label=\"");
    sheet.put(name.as_str());
    sheet.put("\";\ncompound=\"true\";\n");
    sheet.put(FONTS);
    put_variables(sheet, variables);
    put_regions(regions, sheet);
    put_stacks(sheet, regions);
}

/// The Graphviz text of a chart of this name, whose variables have these lines, and in which this is drawn. Err: memory
/// was refused.
pub fn drawing_of(
    alloc: Global,
    name: Name,
    variables: &str,
    regions: &[DrawnRegion],
) -> Result<String, AllocError>
    ensures { IfOk result (λ text. IsDrawing name (string_bytes text)) }
{
    let mut sheet = Sheet::new(alloc);
    put_body(&mut sheet, &name, variables, regions);
    graph_text(alloc, &name, sheet.text)
}
