//! Names of a draft, in a row.

ghost use Rattle.std.specs.Prelude.{◌≡◌, ◌<◌, ◌++◌, [], ◌∷◌, IfOk, Some, length, slice_get};

use sc_text::Named;
use std::alloc::{AllocError, Global};
use std::marker::Model;

/// Names of a draft in a row, each where it stands in the draft. Contracts see the names.
#[derive(Drop)]
pub(crate) struct NameRow<'a> {
    names: Vec<&'a Named>,
}

impl<'a> Model for NameRow<'a> {
    ghost use Rattle.std.specs.Prelude.{List, map};
    ghost use Rattle.sc_text.specs.declared.drafts.parts.Named.{Named};

    ghost Value = { List Named };

    ghost view = { λ r. map (λ n. n.now) r.names.items };
}

impl<'a> NameRow<'a> {
    /// No names.
    pub(crate) fn new(alloc: Global) -> NameRow<'a>
        ensures { result ≡ [] }
    {
        NameRow {
            names: Vec::new(alloc),
        }
    }

    /// Puts a name behind the others.
    #[tactic(auto, using(crate::proofs::RowsOfNames::one_more))]
    pub(crate) fn push(&mut self, name: &'a Named) -> Result<(), AllocError>
        ensures { IfOk result (λ _. self.new ≡ self.old ++ name.now ∷ []) }
    {
        self.names.push(name)?;
        Ok(())
    }

    /// How many there are.
    #[tactic(auto, using(crate::proofs::RowsOfNames::as_many))]
    pub(crate) fn len(&self) -> usize
        ensures { result ≡ length self.now }
    {
        self.names.len()
    }

    /// The name of a place.
    #[tactic(auto, using(crate::proofs::RowsOfNames::as_many, crate::proofs::RowsOfNames::stands))]
    pub(crate) fn at(&self, at: usize) -> &'a Named
        requires { at < length self.now }
        ensures { slice_get self.now at ≡ Some result.now }
    {
        self.names[at]
    }
}
