//! Whether two charts are one and the same.

ghost use Rattle.std.specs.Prelude.{◌≡◌, ◌↔◌, IsTrue};
ghost use Rattle.chart_texts.specs.Inside.Same.{HasSameOwn};

use crate::printer::same_rows::are_same_rows;
use core_charts::{Chart, Region, State};

// Whether two states are the same but for what is inside them.
fn has_same_own(one: &State, other: &State) -> bool
    ensures { IsTrue result ↔ HasSameOwn one.now other.now }
{
    one.name == other.name
        && one.is_initial == other.is_initial
        && one.is_final == other.is_final
        && are_same_rows(one.transitions.as_slice(), other.transitions.as_slice())
}

#[cycle(comparing)]
fn are_same_regions(ones: &[Region], others: &[Region]) -> bool
    ensures { IsTrue result ↔ (ones.now ≡ others.now) }
{
    if ones.len() != others.len() {
        return false;
    }
    for i in 0..ones.len() {
        if !is_same_region(&ones[i], &others[i]) {
            return false;
        }
    }
    true
}

#[cycle(comparing)]
fn is_same_region(one: &Region, other: &Region) -> bool
    ensures { IsTrue result ↔ (one.now ≡ other.now) }
{
    one.name == other.name && are_same_states(one.states.as_slice(), other.states.as_slice())
}

#[cycle(comparing)]
fn are_same_states(ones: &[State], others: &[State]) -> bool
    ensures { IsTrue result ↔ (ones.now ≡ others.now) }
{
    if ones.len() != others.len() {
        return false;
    }
    for i in 0..ones.len() {
        if !is_same_state(&ones[i], &others[i]) {
            return false;
        }
    }
    true
}

#[cycle(comparing)]
#[tactic(auto, using(crate::proofs::Same::own_same))]
fn is_same_state(one: &State, other: &State) -> bool
    ensures { IsTrue result ↔ (one.now ≡ other.now) }
{
    has_same_own(one, other) && are_same_regions(one.regions.as_slice(), other.regions.as_slice())
}

/// Whether two charts have the same name, variables and regions.
pub fn are_same_charts(one: &Chart, other: &Chart) -> bool
    ensures { IsTrue result ↔ (one.now ≡ other.now) }
{
    one.name() == other.name()
        && are_same_rows(one.variables(), other.variables())
        && are_same_regions(one.regions(), other.regions())
}
