//! The effects of a transition, by their numbers.

ghost use Rattle.std.specs.Prelude.{◌≡◌, ◌++◌, IfOk};
ghost use Rattle.core_charts.specs.Numbers.{effects};

use crate::Effect;
use crate::elements::element::Element;
use crate::elements::numbers::next;
use sqlite_items::Items;
use std::alloc::AllocError;

/// Puts these effects behind other elements, where the first one has this number. Err: memory was refused.
pub fn put_effects(
    own: &[Effect],
    number: u32,
    elements: &mut Items<Element>,
) -> Result<(), AllocError>
    ensures { IfOk result (λ _. elements.new ≡ elements.old ++ effects own.now number) }
{
    let mut here = number;
    for _ in own {
        elements.push(Element::Effect(here))?;
        here = next(here)?;
    }
    Ok(())
}
