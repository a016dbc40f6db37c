//! What is opened: a valid image, and the states of the chart that it is of.

ghost use Rattle.std.specs.Prelude.{◌≡◌};

use crate::states::StateTable;
use std::marker::Model;
use verifier::Verified;

/// A valid image, and the states of the chart that it is of, if it was opened from a text of one. Contracts see both.
#[derive(Drop)]
pub struct Opened {
    verified: Verified,
    states: StateTable,
}

impl Model for Opened {
    ghost use Rattle.embedded_machine.specs.Opened.{OpenedImage};

    ghost Value = { OpenedImage };

    ghost view = { λ o. record { image = o.verified; states = o.states } };
}

impl Opened {
    /// An image and the states of its chart.
    pub fn of(verified: Verified, states: StateTable) -> Opened
        ensures { result ≡ record { image = verified; states = states } }
    {
        Opened { verified, states }
    }

    /// The same image, with these states.
    pub fn with_states(self, states: StateTable) -> Opened
        ensures { result ≡ record { image = self.image; states = states } }
    {
        Opened {
            verified: self.verified,
            states,
        }
    }

    /// Its image, which is valid.
    pub fn verified(&self) -> &Verified
        ensures { result.now ≡ self.now.image }
    {
        &self.verified
    }

    /// The states of its chart.
    pub fn states(&self) -> &StateTable
        ensures { result.now ≡ self.now.states }
    {
        &self.states
    }
}
