//! States that make nothing, and go on.

ghost use Rattle.std.specs.Prelude.{◌≡◌, [], ◌∷◌, ◌++◌, OnOk};
ghost use Rattle.extended_charts.specs.Making.{passing};

use extended_charts::{ExtendedState, passing};
use sqlite_items::Items;
use std::alloc::{AllocError, Global};

/// Puts the state of this place, which goes on: at once, or in the next tick. Err: memory was refused.
pub(crate) fn put_passing(
    alloc: Global,
    immediate: bool,
    place: u32,
    target: u32,
    made: &mut Items<ExtendedState>,
) -> Result<(), AllocError>
    ensures { OnOk result (made.new ≡ made.old ++ passing immediate place [] target ∷ []) }
{
    match passing(alloc, immediate, place, Items::new(alloc), target) {
        Ok(state) => made.push(state),
        Err(error) => Err(error),
    }
}
