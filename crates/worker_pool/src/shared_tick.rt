//! A tick under way of the shared image.

ghost use Rattle.std.specs.Prelude.{◌≡◌, ◌≤◌};

use crate::of_image::OfImage;
use std::marker::{Model, PhantomData};
use tick_core::{Claim, Done, TickState, Turn};

/// A tick under way of the shared image. Contracts see the tick.
#[derive(Drop)]
pub struct SharedTick<'x, J: OfImage> {
    state: TickState<'x>,
    of: PhantomData<J>,
}

impl<'x, J: OfImage> Model for SharedTick<'x, J> {
    ghost use Rattle.std.specs.Prelude.{◌≡◌};
    ghost use Rattle.tick_core.specs.State.{InTick};

    ghost Value = { InTick };

    ghost view = { λ d. d.state };

    ghost invariant = { λ d. d.state.image ≡ J.image };
}

impl<'x, J: OfImage> SharedTick<'x, J> {
    /// Of a tick of the shared image.
    pub(crate) fn of(state: TickState<'x>) -> SharedTick<'x, J>
        requires { state.image ≡ J.image }
        ensures { result ≡ state.entry }
    {
        SharedTick {
            state,
            of: PhantomData,
        }
    }

    /// The tick.
    pub(crate) fn into_state(self) -> TickState<'x>
        ensures value { result ≡ self.entry }
        ensures image { result.image ≡ J.image }
    {
        let SharedTick { state, of: _ } = self;
        state
    }

    /// As of the tick.
    pub(crate) fn claim(&mut self, worker: u8) -> Turn<'x>
        requires { worker ≤ 8 }
    {
        self.state.claim(worker)
    }

    /// As of the tick. Nothing changes where the claim is not open.
    pub(crate) fn commit(&mut self, done: &Done<'_>) {
        let _ = self.state.commit(done);
    }

    /// As of the tick. Nothing changes where the claim is not open.
    pub(crate) fn give_back(&mut self, claim: &Claim<'_>) {
        let _ = self.state.give_back(claim);
    }
}
