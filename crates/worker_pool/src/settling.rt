//! What is made of a tick that comes back from under the lock.

ghost use Rattle.std.specs.Prelude.{◌≡◌, IfOk, IfSome, IsTrue};
ghost use Rattle.sc_values.specs.Runs.{IsOver};
ghost use Rattle.sc_graph.specs.Machine.{machine};
ghost use Rattle.tick_core.specs.State.{BeginsTick};

use crate::of_image::OfImage;
use crate::shared_tick::SharedTick;
use sc_graph::Status;
use sc_values::Value;
use std::alloc::{AllocError, Global};
use tick_core::{Control, TickSpace, TickState};
use verifier::Verified;

/// What came back of a tick that began so, run to its end. Where nothing came back, or another tick, it is the same
/// tick begun again, all of whose steps the caller takes. Err: memory was refused for that.
pub(crate) fn settle<'x, J: OfImage>(
    alloc: Global,
    verified: &'x Verified,
    back: Option<SharedTick<'x, J>>,
    begun: Control,
) -> Result<TickState<'x>, AllocError>
    requires of_image { verified.now ≡ J.image }
    requires begins { BeginsTick J.image.program begun }
    ensures image { IfOk result (λ s. s.image ≡ J.image) }
    ensures begun { IfOk result (λ s. s.begun ≡ begun) }
    ensures over { IfOk result (λ s. IsOver (machine s.image.program) s.present) }
{
    let mut state = match returned(back, &begun) {
        Some(state) => {
            drop(begun);
            state
        }
        None => begin_again(alloc, verified, begun)?,
    };
    state.run_alone();
    Ok(state)
}

// A tick that begins so, begun again. Err: memory was refused.
fn begin_again<'x>(
    alloc: Global,
    verified: &'x Verified,
    begun: Control,
) -> Result<TickState<'x>, AllocError>
    requires begins { BeginsTick verified.now.program begun }
    ensures image { IfOk result (λ s. s.image ≡ verified.entry.now) }
    ensures begun { IfOk result (λ s. s.begun ≡ begun) }
{
    match TickSpace::of(alloc, verified) {
        Ok(space) => Ok(space.begin_again(begun)),
        Err(error) => {
            drop(begun);
            Err(error)
        }
    }
}

// What came back of a tick that began so. None: nothing came back, or another tick.
fn returned<'x, J: OfImage>(
    back: Option<SharedTick<'x, J>>,
    begun: &Control,
) -> Option<TickState<'x>>
    ensures image { IfSome result (λ s. s.image ≡ J.image) }
    ensures begun { IfSome result (λ s. s.begun ≡ begun.now) }
{
    let state = back?.into_state();
    if is_same(state.begun(), begun) {
        return Some(state);
    }
    drop(state);
    None
}

// Whether one configuration is the other.
fn is_same(a: &Control, b: &Control) -> bool
    ensures { IsTrue result → a.now ≡ b.now }
{
    same_values(a.variables.as_slice(), b.variables.as_slice())
        && same_statuses(a.statuses.as_slice(), b.statuses.as_slice())
}

fn same_values(a: &[Value], b: &[Value]) -> bool
    ensures { IsTrue result → a.now ≡ b.now }
{
    a == b
}

fn same_statuses(a: &[Status], b: &[Status]) -> bool
    ensures { IsTrue result → a.now ≡ b.now }
{
    a == b
}
