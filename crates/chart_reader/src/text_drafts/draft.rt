//! What a chart's text spells: its parts with their places, before names are looked up.

use core_charts::TransitionKind;
use sc_text::{Declaration, Named, TextExpression};
use sqlite_items::Items;

/// An assignment of a transition.
#[derive(Drop)]
pub struct DraftEffect {
    pub variable: Named,
    pub value: TextExpression,
}

/// A transition. It stands at the word that tells its kind.
#[derive(Drop)]
pub struct DraftTransition {
    pub kind: TransitionKind,
    pub at: usize,
    pub immediate: bool,
    pub trigger: Option<TextExpression>,
    pub effects: Items<DraftEffect>,
    pub target: Named,
}

/// A region.
#[derive(Drop)]
#[cycle(draft)]
pub struct DraftRegion {
    pub named: Named,
    pub states: Items<DraftState>,
}

/// A state.
#[derive(Drop)]
#[cycle(draft)]
pub struct DraftState {
    pub is_initial: bool,
    pub is_final: bool,
    pub named: Named,
    pub regions: Items<DraftRegion>,
    pub transitions: Items<DraftTransition>,
}

/// A chart.
#[derive(Drop)]
pub struct DraftChart {
    pub named: Named,
    pub variables: Items<Declaration>,
    pub regions: Items<DraftRegion>,
}
