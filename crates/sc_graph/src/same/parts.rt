//! Variables, threads and nodes.

ghost use Rattle.std.specs.Prelude.{◌≡◌, ◌↔◌, IsTrue};

use crate::same::rows::Same;
use crate::same::steps::is_same_step;
use crate::{Node, Thread, Variable};

impl Same for Variable {
    fn is_same(&self, other: &Variable) -> bool {
        self.name == other.name && self.kind == other.kind && self.role == other.role
    }
}

impl Same for Thread {
    fn is_same(&self, other: &Thread) -> bool {
        self.parent == other.parent && self.entry == other.entry
    }
}

impl Same for Node {
    fn is_same(&self, other: &Node) -> bool {
        self.owner == other.owner && is_same_step(&self.step, &other.step)
    }
}
