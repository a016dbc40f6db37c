//! The places of elements, by their numbers.

ghost use Rattle.std.specs.Prelude.{◌≡◌, OnOk, slice_get};
ghost use Rattle.node_sources.specs.Places.{beside, nothing, place_of, region, state_around, state};

use crate::chart_places::states_around::{StateAround, StatesAround};
use core_charts::Element;
use sqlite_items::{Items, at};
use std::alloc::{AllocError, Global};

/// Where elements of a chart stand in its text, of each sort in the order of their numbers: regions and states at their
/// names, transitions at their words, and effects at their variables.
#[derive(Drop)]
pub struct PlaceRows {
    pub regions: Items<usize>,
    pub states: Items<usize>,
    pub transitions: Items<usize>,
    pub effects: Items<usize>,
}

/// Where a chart stands in its text, by its name, where its elements do, and in which states.
#[derive(Drop)]
pub struct Places {
    pub chart: usize,
    pub rows: PlaceRows,
    pub states_around: StatesAround,
}

impl PlaceRows {
    /// Of no element yet.
    pub(crate) fn none(alloc: Global) -> PlaceRows
        ensures { result ≡ nothing }
    {
        PlaceRows {
            regions: Items::new(alloc),
            states: Items::new(alloc),
            transitions: Items::new(alloc),
            effects: Items::new(alloc),
        }
    }

    /// Puts the place of a region behind the others. Err: memory was refused.
    pub(crate) fn put_region(&mut self, place: usize) -> Result<(), AllocError>
        ensures { OnOk result (self.new ≡ beside self.old (region place)) }
    {
        self.regions.push(place)
    }

    /// Puts the place of a state behind the others. Err: memory was refused.
    pub(crate) fn put_state(&mut self, place: usize) -> Result<(), AllocError>
        ensures { OnOk result (self.new ≡ beside self.old (state place)) }
    {
        self.states.push(place)
    }
}

impl Places {
    /// Where an element stands. None: the chart has none of this number.
    pub fn place_of(&self, element: Element) -> Option<usize>
        ensures { result ≡ place_of self.now element }
    {
        match element {
            Element::Chart => Some(self.chart),
            Element::Region(number) => place_at(self.rows.regions.as_slice(), number),
            Element::State(number) => place_at(self.rows.states.as_slice(), number),
            Element::Transition(number) => place_at(self.rows.transitions.as_slice(), number),
            Element::Effect(number) => place_at(self.rows.effects.as_slice(), number),
        }
    }

    /// In which state of which region an element stands. None: in none, or the chart has none of this number.
    pub fn state_around(&self, element: Element) -> Option<StateAround>
        ensures { result ≡ state_around self.now element }
    {
        match element {
            Element::Chart => None,
            Element::Region(_) => None,
            Element::State(number) => around_at(self.states_around.states.as_slice(), number),
            Element::Transition(number) => around_at(
                self.states_around.transitions.as_slice(),
                number,
            ),
            Element::Effect(number) => around_at(self.states_around.effects.as_slice(), number),
        }
    }
}

fn around_at(states_around: &[StateAround], number: u32) -> Option<StateAround>
    ensures { result ≡ slice_get states_around.now number }
{
    match at(states_around, number as usize) {
        Some(around) => Some(*around),
        None => None,
    }
}

fn place_at(places: &[usize], number: u32) -> Option<usize>
    ensures { result ≡ slice_get places.now number }
{
    match at(places, number as usize) {
        Some(place) => Some(*place),
        None => None,
    }
}
