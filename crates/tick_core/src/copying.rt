//! Copies of configurations.

ghost use Rattle.std.specs.Prelude.{◌≡◌, IfOk, length};

use sc_graph::Control;
use sqlite_items::Items;
use std::alloc::{AllocError, Global};

/// The same configuration again. Err: memory was refused.
pub fn copied(alloc: Global, control: &Control) -> Result<Control, AllocError>
    ensures { IfOk result (λ c. c ≡ control.now) }
{
    let variables = Items::from_slice(alloc, control.variables.as_slice())?;
    let statuses = Items::from_slice(alloc, control.statuses.as_slice())?;
    Ok(Control {
        variables,
        statuses,
    })
}

/// Makes a configuration the same as another of as many values and statuses. It takes no memory.
pub(crate) fn copy_into(from: &Control, to: &mut Control)
    requires values { length to.old.variables ≡ length from.now.variables }
    requires statuses { length to.old.statuses ≡ length from.now.statuses }
    ensures { to.new ≡ from.now }
{
    copy_items(from.variables.as_slice(), &mut to.variables);
    copy_items(from.statuses.as_slice(), &mut to.statuses);
}

/// Makes items the same as others, of which there are as many.
pub(crate) fn copy_items<T: Copy + Drop>(from: &[T], to: &mut Items<T>)
    requires { length to.old ≡ length from.now }
    ensures { to.new ≡ from.now }
{
    for at in 0..from.len() {
        to.set(at, from[at]);
    }
}
