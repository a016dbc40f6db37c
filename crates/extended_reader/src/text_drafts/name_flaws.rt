//! Names that reductions make: an author's have no two underscores inside.

ghost use Rattle.std.specs.Prelude.{◌≡◌, OnOk, false};
ghost use Rattle.sc_text.specs.Told.{told_behind};
ghost use Rattle.extended_reader.specs.Flaws.{is_doubled, name_flaws, variable_name_flaws};

use sc_text::{Declaration, FaultKind, Flaw, Named, note_told};
use sqlite_items::Items;
use std::alloc::{AllocError, Global};

/// Tells the names of variables that reductions make. Err: memory was refused.
pub(crate) fn variable_name_flaws(
    alloc: Global,
    variables: &[Declaration],
    found: &mut Items<Flaw>,
) -> Result<(), AllocError>
    ensures { OnOk result (found.new ≡ told_behind found.old (variable_name_flaws variables.now)) }
{
    for variable in variables {
        name_flaws(alloc, variable.named, found)?;
    }
    Ok(())
}

/// Tells a name that reductions make. Err: memory was refused.
pub(crate) fn name_flaws(
    alloc: Global,
    named: Named,
    found: &mut Items<Flaw>,
) -> Result<(), AllocError>
    ensures { OnOk result (found.new ≡ told_behind found.old (name_flaws named)) }
{
    let is_made = has_doubled(named.name.as_bytes());
    note_told(alloc, found, is_made, FaultKind::Token, named.at)
}

fn has_doubled(bytes: &[u8]) -> bool
    ensures { result ≡ is_doubled false bytes.now }
{
    let mut before = false;
    for byte in bytes {
        let is_underscore = *byte == b'_';
        if before && is_underscore {
            return true;
        }
        before = is_underscore;
    }
    false
}
