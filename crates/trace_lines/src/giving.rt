//! One more value for an input, in the order of the inputs.

ghost use Rattle.std.specs.Prelude.{◌≡◌, ◌≤◌, ◌++◌, ◌∷◌, [], IfOk, IfSome, OnOk};
ghost use Rattle.trace_lines.specs.Inside.Expected.{AreBehind, WasGiven};
ghost use Rattle.trace_lines.specs.Inside.Ordered.{AreInOrder};

use crate::ordered::{is_near_end, put};
use sc_values::{Name, Value};
use std::alloc::AllocError;

fn push(found: &mut Vec<(Name, Value)>, name: &Name, value: Value) -> Result<(), AllocError>
    ensures { OnOk result (found.new.items ≡ found.old.items ++ (name.now, value) ∷ []) }
{
    found.push((*name, value))?;
    Ok(())
}

/// Gives to the input at a place among these its value. Those from `from` on are behind all that were given
/// values; the answer tells from where on they still are. None: there are many, in no order.
pub(crate) fn give(
    found: &mut Vec<(Name, Value)>,
    inputs: &[(Name, Value)],
    from: usize,
    given: (usize, Value),
) -> Result<Option<usize>, AllocError>
    requires order { AreInOrder inputs.now }
    requires found { AreInOrder found.old.items }
    requires behind { AreBehind inputs.now from found.old.items }
    ensures { IfOk result (λ next. IfSome next
        (λ n. WasGiven inputs.now given found.old.items n found.new.items)) }
{
    let (place, value) = given;
    let Some(input) = sqlite_items::at(inputs, place) else {
        return Ok(None);
    };
    if from <= place {
        push(found, &input.0, value)?;
        return Ok(Some(place + 1));
    }
    if !is_near_end(found, &input.0) {
        return Ok(None);
    }
    put(found, (input.0, value))?;
    Ok(Some(inputs.len()))
}
