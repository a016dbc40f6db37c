//! Copies of the parts of an extended chart.

ghost use Rattle.std.specs.Prelude.{◌≡◌, ◌++◌, IfOk, OnOk};

use crate::extended::During;
use core_charts::{Effect, copied_effects, copied_trigger};
use sqlite_items::Items;
use std::alloc::{AllocError, Global};

/// A copy of a during action. Err: memory was refused.
pub(crate) fn copied_during(alloc: Global, during: &During) -> Result<During, AllocError>
    ensures { IfOk result (λ copy. copy ≡ during.now) }
{
    let trigger = copied_trigger(alloc, &during.trigger)?;
    let effects = copied_effects(alloc, during.effects.as_slice())?;
    Ok(During {
        immediate: during.immediate,
        trigger,
        effects,
    })
}

/// Puts copies of during actions. Err: memory was refused.
pub fn put_copied_durings(
    alloc: Global,
    durings: &[During],
    made: &mut Items<During>,
) -> Result<(), AllocError>
    ensures { OnOk result (made.new ≡ made.old ++ durings.now) }
{
    for during in durings {
        made.push(copied_during(alloc, during)?)?;
    }
    Ok(())
}

/// Puts copies of effects. Err: memory was refused.
pub fn put_copied_effects(
    alloc: Global,
    effects: &[Effect],
    made: &mut Items<Effect>,
) -> Result<(), AllocError>
    ensures { OnOk result (made.new ≡ made.old ++ effects.now) }
{
    match copied_effects(alloc, effects) {
        Ok(copies) => made.append(copies),
        Err(error) => Err(error),
    }
}
