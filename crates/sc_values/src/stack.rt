//! A stack of at most 16 values or kinds. Contracts see it as a list, the topmost first.

ghost use Rattle.std.specs.Prelude.{◌≡◌, ◌<◌, ◌≤◌, ◌↔◌, [], ◌∷◌, length, IsTrue, MatchOption};
ghost use Rattle.sc_values.specs.Limits.{operand_limit};

use crate::limits::OPERAND_LIMIT;
use arrayvec::ArrayVec;
use std::marker::Model;

#[derive(Drop)]
pub(crate) struct Stack<T> {
    items: ArrayVec<T, OPERAND_LIMIT>,
}

impl<T> Model for Stack<T> {
    ghost use Rattle.std.specs.Prelude.{List, reverse};
    ghost use Rattle.std.specs.Coded.{coded_list};

    ghost Value = { List T };

    ghost coded = { coded_list T.code };

    ghost view = { λ s. reverse s.items.items };
}

impl<T: Default> Stack<T> {
    pub(crate) fn new() -> Stack<T>
        ensures { result ≡ [] }
    {
        Stack {
            items: ArrayVec::new(),
        }
    }
}

impl<T: Default + Drop> Stack<T> {
    pub(crate) fn is_empty(&self) -> bool
        ensures { IsTrue result ↔ (self.now ≡ []) }
    {
        self.items.is_empty()
    }

    pub(crate) fn is_full(&self) -> bool
        ensures full { IsTrue result ↔ (length self.now ≡ operand_limit) }
        ensures within { length self.now ≤ operand_limit }
    {
        self.items.is_full()
    }

    pub(crate) fn push(&mut self, item: T)
        requires { length self.old < operand_limit }
        ensures { self.new ≡ item ∷ self.old }
    {
        self.items.push(item);
    }

    pub(crate) fn pop(&mut self) -> Option<T>
        ensures { MatchOption result ((self.old ≡ []) × (self.new ≡ [])) (λ top. self.old ≡ top ∷ self.new) }
    {
        self.items.pop()
    }
}
