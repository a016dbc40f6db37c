//! Warnings of variables.

ghost use Rattle.std.specs.Prelude.{◌≡◌, ◌++◌, OnOk};
ghost use Rattle.chart_warnings.specs.Names.{within};
ghost use Rattle.chart_warnings.specs.Warnings.{of_role, of_variables};

use crate::inside::named_within;
use crate::marks::is_marked;
use crate::names::Mention;
use crate::warning::{Warning, warn_where};
use core_charts::Region;
use sc_graph::{Role, Variable};
use sqlite_items::Items;
use std::alloc::{AllocError, Global};

/// The warnings of the variables of a chart with these regions come behind others.
pub(crate) fn warn_of_variables(
    alloc: Global,
    variables: &[Variable],
    regions: &[Region],
    warnings: &mut Items<Warning>,
) -> Result<(), AllocError>
    ensures { OnOk result (warnings.new ≡ warnings.old ++ of_variables (within regions.now) 0 variables.now) }
{
    let asked = named_within(alloc, variables.len(), Mention::Asked, regions)?;
    let set = named_within(alloc, variables.len(), Mention::Set, regions)?;
    for (number, variable) in variables.iter().enumerate() {
        let is_asked = is_marked(&asked, number);
        let is_set = is_marked(&set, number);
        warn_of_variable(variable.role, is_asked, is_set, number, warnings)?;
    }
    Ok(())
}

// Of one that is asked for or not, and set or not.
fn warn_of_variable(
    role: Role,
    is_asked: bool,
    is_set: bool,
    number: usize,
    warnings: &mut Items<Warning>,
) -> Result<(), AllocError>
    ensures { OnOk result (warnings.new ≡ warnings.old ++ of_role role is_asked is_set number) }
{
    match role {
        Role::Input => warn_where(!is_asked, Warning::NeverAsked { input: number }, warnings),
        Role::Output => warn_where(!is_set, Warning::NeverSet { variable: number }, warnings),
        Role::Local => {
            warn_where(!is_asked, Warning::NeverRead { variable: number }, warnings)?;
            warn_where(!is_set, Warning::NeverSet { variable: number }, warnings)
        }
    }
}
