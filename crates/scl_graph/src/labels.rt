//! The labels of a program, and what stands behind each.

ghost use Rattle.std.specs.Prelude.{◌≡◌, [], IfOk};
ghost use Rattle.scl_graph.specs.Inside.Gathering.{Notes};
ghost use Rattle.scl_graph.specs.Inside.Settling.{name_at};

use crate::landing::Landing;
use sc_values::Name;
use std::alloc::{AllocError, Global};
use std::marker::Model;

/// Labels with what stands behind them, in the order in which they were noted. Of equal ones the first counts.
#[derive(Drop)]
pub(crate) struct Labels {
    noted: Vec<(Name, Landing)>,
}

impl Model for Labels {
    ghost use Rattle.std.specs.Prelude.{ℕ, List};
    ghost use Rattle.scl_graph.specs.declared.landing.Landing.{Landing};

    ghost Value = { List (List ℕ × Landing) };

    ghost view = { λ l. l.noted.items };
}

impl Labels {
    /// No labels.
    pub(crate) fn none(alloc: Global) -> Labels
        ensures { result ≡ [] }
    {
        Labels {
            noted: Vec::new(alloc),
        }
    }

    /// Notes a label. One that was noted before goes before it.
    pub(crate) fn note(&mut self, name: Name, landing: Landing) -> Result<(), AllocError>
        ensures { IfOk result (λ _. Notes name landing self.old self.new) }
    {
        self.noted.push((name, landing))?;
        Ok(())
    }

    /// The labels, each with what stands behind it.
    pub(crate) fn as_slice(&self) -> &[(Name, Landing)]
        ensures { result.now ≡ self.now }
    {
        self.noted.as_slice()
    }

    /// The label of a place.
    pub(crate) fn name(&self, place: usize) -> Option<Name>
        ensures { result ≡ name_at self.now place }
    {
        match self.noted.get(place) {
            Some((name, _)) => Some(*name),
            None => None,
        }
    }
}
