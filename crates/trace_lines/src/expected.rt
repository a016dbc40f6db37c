//! The inputs that a line may name, in the order of their names.

ghost use Rattle.std.specs.Prelude.{◌≡◌, ◌↔◌, IfOk, IfSome, IsTrue, OnOk};
ghost use Rattle.trace_lines.specs.Inside.Expected.{ListsInputs};
ghost use Rattle.trace_lines.specs.Inside.Named.{NamesInputs};
ghost use Rattle.trace_lines.specs.Inside.Ordered.{IsNamedAt};

use crate::line::input_of;
use crate::ordered::is_behind_last;
use sc_graph::Variable;
use sc_values::{Name, Value};
use std::alloc::{AllocError, Global};
use std::collections::BTreeMap;

const FEW: usize = 4;

/// The inputs of a program in the order of their names, each with the value that it has where no line
/// names it.
#[derive(Drop)]
pub(crate) struct Expected {
    /// The inputs with these values.
    pub(crate) inputs: Vec<(Name, Value)>,
    // Where each name is to be looked for.
    places: BTreeMap<String, usize>,
}

/// The inputs of these names, which are those among the variables.
pub(crate) fn expected_of(
    alloc: Global,
    variables: &[Variable],
    named: &BTreeMap<String, Variable>,
) -> Result<Expected, AllocError>
    requires { NamesInputs variables.now named.now }
    ensures { IfOk result (λ expected. ListsInputs variables.now expected.inputs.items) }
{
    let mut inputs = Vec::with_capacity(alloc, named.len())?;
    let mut places = BTreeMap::new(alloc);
    for (name, _input) in named {
        places.insert(String::from_str(alloc, name.as_str())?, inputs.len())?;
        add(variables, named, &mut inputs, name.as_str())?;
    }
    Ok(Expected { inputs, places })
}

// Adds the input of this name, where it is behind the others.
fn add(
    variables: &[Variable],
    named: &BTreeMap<String, Variable>,
    inputs: &mut Vec<(Name, Value)>,
    name: &str,
) -> Result<(), AllocError>
    requires named { NamesInputs variables.now named.now }
    requires lists { ListsInputs variables.now inputs.old.items }
    ensures { OnOk result (ListsInputs variables.now inputs.new.items) }
{
    match input_of(named, name) {
        Some(input) if is_behind_last(inputs, &input.name) => {
            inputs.push((input.name, input.kind.initial()))?;
            Ok(())
        }
        _ => Ok(()),
    }
}

// Whether a name is this text.
fn is_spelt(name: &Name, text: &str) -> bool
    ensures { IsTrue result ↔ (name.now ≡ text.now) }
{
    name.as_bytes() == text.as_bytes()
}

// Whether the input at this place has this name.
fn has_name_at(inputs: &[(Name, Value)], place: usize, name: &str) -> bool
    ensures { IsTrue result ↔ IsNamedAt inputs.now place name.now }
{
    match sqlite_items::at(inputs, place) {
        Some(input) => is_spelt(&input.0, name),
        None => false,
    }
}

// The place of the input of this name among a few.
fn place_near(inputs: &[(Name, Value)], from: usize, name: &str) -> Option<usize>
    ensures { IfSome result (λ place. IsNamedAt inputs.now place name.now) }
{
    for place in from..inputs.len().min(from.saturating_add(FEW)) {
        if has_name_at(inputs, place, name) {
            return Some(place);
        }
    }
    None
}

// The place of the input of this name, which is looked for by its name.
fn place_by_name(expected: &Expected, name: &str) -> Option<usize>
    ensures { IfSome result (λ place. IsNamedAt expected.now.inputs.items place name.now) }
{
    let place = *expected.places.get(name)?;
    if has_name_at(&expected.inputs, place, name) {
        return Some(place);
    }
    None
}

/// The place of the input of this name. Those from `from` on are looked at first.
pub(crate) fn place_of(expected: &Expected, from: usize, name: &str) -> Option<usize>
    ensures { IfSome result (λ place. IsNamedAt expected.now.inputs.items place name.now) }
{
    match place_near(&expected.inputs, from, name) {
        Some(place) => Some(place),
        None => place_by_name(expected, name),
    }
}
