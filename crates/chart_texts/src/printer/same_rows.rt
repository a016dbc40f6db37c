//! Rows of which each item is compared.

ghost use Rattle.std.specs.Prelude.{◌≡◌, ◌↔◌, IsTrue};

use crate::printer::same_expressions::{is_same_expression, is_same_trigger};
use core_charts::{Effect, Transition};
use sc_graph::Variable;

/// What is compared item for item.
pub(crate) trait Same {
    /// Whether it is the other.
    fn is_same(&self, other: &Self) -> bool
        ensures { IsTrue result ↔ (self.now ≡ other.now) };
}

/// Whether two rows have the same items.
pub(crate) fn are_same_rows<T: Same>(ones: &[T], others: &[T]) -> bool
    ensures { IsTrue result ↔ (ones.now ≡ others.now) }
{
    if ones.len() != others.len() {
        return false;
    }
    for i in 0..ones.len() {
        if !ones[i].is_same(&others[i]) {
            return false;
        }
    }
    true
}

impl Same for Variable {
    fn is_same(&self, other: &Variable) -> bool {
        self.name == other.name && self.kind == other.kind && self.role == other.role
    }
}

impl Same for Effect {
    fn is_same(&self, other: &Effect) -> bool {
        self.variable == other.variable && is_same_expression(&self.value, &other.value)
    }
}

impl Same for Transition {
    fn is_same(&self, other: &Transition) -> bool {
        self.kind == other.kind
            && self.immediate == other.immediate
            && is_same_trigger(&self.trigger, &other.trigger)
            && are_same_rows(self.effects.as_slice(), other.effects.as_slice())
            && self.target == other.target
    }
}
