//! The kinds of the operands that stand while an expression is read.

ghost use Rattle.std.specs.Prelude.{◌≡◌, [], ◌∷◌, Some, OnOk, MatchOption};
ghost use Rattle.sc_text.specs.Flaws.{is_alone};

use sc_values::Kind;
use std::alloc::{AllocError, Global};
use std::marker::Model;

/// Some kinds. Contracts see them as a list, the last one first.
#[derive(Drop)]
pub struct Kinds {
    kinds: Vec<Kind>,
}

impl Model for Kinds {
    ghost use Rattle.std.specs.Prelude.{List, reverse};
    ghost use Rattle.sc_values.specs.declared.value.Kind.{Kind};

    ghost Value = { List Kind };

    ghost view = { λ s. reverse s.kinds.items };
}

impl Kinds {
    /// None.
    pub fn new(alloc: Global) -> Kinds
        ensures { result ≡ [] }
    {
        Kinds {
            kinds: Vec::new(alloc),
        }
    }

    /// Puts one more behind the others. Err: memory was refused.
    pub fn push(&mut self, kind: Kind) -> Result<(), AllocError>
        ensures { OnOk result (self.new ≡ kind ∷ self.old) }
    {
        self.kinds.push(kind)?;
        Ok(())
    }

    /// Takes the last one off. None: there is none.
    pub fn pop(&mut self) -> Option<Kind>
        ensures { MatchOption result ((self.old ≡ []) × (self.new ≡ [])) (λ kind. self.old ≡ kind ∷ self.new) }
    {
        self.kinds.pop()
    }

    /// Whether nothing but this one stands there.
    pub fn is_alone(&self, wanted: Kind) -> bool
        ensures { result ≡ is_alone wanted (Some self.now) }
    {
        match self.kinds.as_slice() {
            [kind] => *kind == wanted,
            _ => false,
        }
    }
}
