//! Parts of drafts: names, variables and expressions with their places, before names are looked up.

use crate::TextOperation;
use sc_graph::Role;
use sc_values::{Kind, Name};
use sqlite_items::Items;

/// A name, and the place of its first byte in the text.
#[derive(Clone, Copy)]
pub struct Named {
    pub name: Name,
    pub at: usize,
}

/// A variable.
#[derive(Clone, Copy)]
pub struct Declaration {
    pub role: Role,
    pub kind: Kind,
    pub named: Named,
}

/// An expression: the place of its first byte, and its operations, each behind its operands.
#[derive(Drop)]
pub struct TextExpression {
    pub start: usize,
    pub operations: Items<TextOperation>,
}
