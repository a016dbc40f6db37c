//! The inputs of a program by their names.

ghost use Rattle.std.specs.Prelude.{◌≡◌, IfOk, OnOk};
ghost use Rattle.std.specs.Option.{is_some};
ghost use Rattle.std.specs.BTreeMap.{get_by_text};
ghost use Rattle.trace_lines.specs.Line.{is_input};
ghost use Rattle.trace_lines.specs.Inside.Named.{NamesInputs, Adds};

use sc_graph::{Role, Variable};
use std::alloc::{AllocError, Global};
use std::collections::BTreeMap;

/// The inputs among these variables, by their names.
pub(crate) fn named_inputs(
    alloc: Global,
    variables: &[Variable],
) -> Result<BTreeMap<String, Variable>, AllocError>
    ensures { IfOk result (λ named. NamesInputs variables.now named) }
{
    let mut named = BTreeMap::new(alloc);
    for place in 0..variables.len() {
        add(alloc, &mut named, &variables[place])?;
    }
    Ok(named)
}

// Adds a variable, where it is an input and there is none of its name.
fn add(
    alloc: Global,
    named: &mut BTreeMap<String, Variable>,
    variable: &Variable,
) -> Result<(), AllocError>
    ensures { OnOk result (Adds variable.now named.old named.new) }
{
    let name = variable.name.as_str();
    if is_input(variable.role) && !has_name(named, name) {
        named.insert(String::from_str(alloc, name)?, *variable)?;
    }
    Ok(())
}

// Whether one of these has this name.
fn has_name(named: &BTreeMap<String, Variable>, name: &str) -> bool
    ensures { result ≡ is_some (get_by_text named.now name.now) }
{
    named.contains_key(name)
}

fn is_input(role: Role) -> bool
    ensures { result ≡ is_input role }
{
    role == Role::Input
}
