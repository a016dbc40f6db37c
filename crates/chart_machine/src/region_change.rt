//! What one step of a region does.

use crate::standing::Move;
use sc_graph::VariableId;
use sc_values::Value;
use sqlite_items::Items;

/// A variable becomes a value.
#[derive(Clone, Copy)]
pub struct Write {
    pub variable: VariableId,
    pub value: Value,
}

/// What a step does: it writes a variable or none, and regions come to stand elsewhere, from left to right.
#[derive(Drop)]
pub struct RegionChange {
    pub write: Option<Write>,
    pub moves: Items<Move>,
}
