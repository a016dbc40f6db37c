//! Whether transitions are strong or weak aborts, and whether a chart has such.

ghost use Rattle.std.specs.Prelude.{◌≡◌, map};
ghost use Rattle.core_charts.specs.Aborts.{has_strong, has_weak, has_aborts, some_of};
ghost use Rattle.core_charts.specs.Aborts.{region_has_aborts, state_has_aborts, chart_has_aborts};

use crate::chart::Chart;
use crate::region::{Region, State, Transition};

/// Whether one of these transitions is a strong abort.
pub fn has_strong(transitions: &[Transition]) -> bool
    ensures { result ≡ has_strong transitions.now }
{
    transitions
        .iter()
        .any(|transition| transition.kind.is_strong())
}

/// Whether one of these transitions is a weak abort.
pub fn has_weak(transitions: &[Transition]) -> bool
    ensures { result ≡ has_weak transitions.now }
{
    transitions
        .iter()
        .any(|transition| transition.kind.is_weak())
}

/// Whether one of these transitions is a strong or a weak abort.
pub fn has_aborts(transitions: &[Transition]) -> bool
    ensures { result ≡ has_aborts transitions.now }
{
    has_strong(transitions) || has_weak(transitions)
}

/// Whether a transition of the chart, however deep, is a strong or a weak abort.
pub fn chart_has_aborts(chart: &Chart) -> bool
    ensures { result ≡ chart_has_aborts chart.now }
{
    have_aborts(chart.regions())
}

// Whether one of these regions has aborts.
#[cycle(aborts)]
fn have_aborts(regions: &[Region]) -> bool
    ensures { result ≡ some_of (map region_has_aborts regions.now) }
{
    for region in regions {
        if region_has_aborts(region) {
            return true;
        }
    }
    false
}

#[cycle(aborts)]
fn region_has_aborts(region: &Region) -> bool
    ensures { result ≡ region_has_aborts region.now }
{
    for state in region.states.as_slice() {
        if state_has_aborts(state) {
            return true;
        }
    }
    false
}

#[cycle(aborts)]
fn state_has_aborts(state: &State) -> bool
    ensures { result ≡ state_has_aborts state.now }
{
    has_aborts(state.transitions.as_slice()) || have_aborts(state.regions.as_slice())
}
