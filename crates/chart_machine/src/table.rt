//! A chart as a table of its states and regions.

use crate::standing::Move;
use core_charts::Transition;
use sc_graph::Variable;
use sqlite_items::Items;

/// A state.
#[derive(Drop)]
pub struct StateRow {
    /// The region that holds it.
    pub holder: usize,
    /// Its own regions.
    pub regions: Items<usize>,
    pub transitions: Items<Transition>,
    /// What entering it makes of the region that holds it, and of those inside.
    pub entered: Items<Move>,
    /// What entering its regions makes of these.
    pub opened: Items<Move>,
}

/// A region.
#[derive(Drop)]
pub struct RegionRow {
    /// The superstates around it, the innermost first.
    pub around: Items<usize>,
    /// Its states.
    pub states: Items<usize>,
}

/// A chart as a table. States are numbered from 0 in the order of the text. Regions are numbered from 1, each
/// before what lies inside it, and what lies inside its initial state before what lies inside its other states;
/// 0 stands for the chart, which counts as a superstate that no region holds.
#[derive(Drop)]
pub struct Table {
    pub variables: Items<Variable>,
    pub states: Items<StateRow>,
    /// From that of number 1 on.
    pub regions: Items<RegionRow>,
    /// What entering the chart's regions makes of them.
    pub opened: Items<Move>,
}

/// Where a subtree of a chart stands: the numbers of the next state and of the next region, the region that holds
/// it, and the superstates around it, the innermost first.
#[derive(Drop)]
pub struct TablePosition {
    pub state: usize,
    pub region: usize,
    pub holder: usize,
    pub around: Items<usize>,
}

/// What a subtree of a chart gives: the rows of its states and of its regions, and what entering it makes of
/// regions.
#[derive(Drop)]
pub struct SubtreeRows {
    pub states: Items<StateRow>,
    pub regions: Items<RegionRow>,
    pub entered: Items<Move>,
}
