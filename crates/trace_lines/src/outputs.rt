//! The outputs of a program, as lines show them.

ghost use Rattle.std.specs.Prelude.{◌≡◌, ◌++◌, ◌∷◌, [], false, List, IfOk, OnOk, length, string_bytes};
ghost use Rattle.json.specs.Print.{quoted};
ghost use Rattle.serde_json.specs.Written.{members_text};
ghost use Rattle.sc_values.specs.declared.value.Value.{Value as ValueOf};
ghost use Rattle.trace_lines.specs.Output.{is_output, outputs_of};
ghost use Rattle.trace_lines.specs.Inside.Rows.{placed, with_place, key_text, rows_text, ShowsOutputs};

use sc_graph::{Role, Variable};
use serde_json::Value as Json;
use std::alloc::{AllocError, Global};
use std::collections::BTreeMap;

/// An output as a line shows it.
#[derive(Drop)]
pub(crate) struct Row {
    /// What stands before its value: a comma, where it is not the first, its name, and a colon.
    pub(crate) before: String,
    /// Its place among the variables.
    pub(crate) place: usize,
}

/// The outputs among these variables, in the order of their names.
pub(crate) fn rows_of(alloc: Global, variables: &[Variable]) -> Result<Vec<Row>, AllocError>
    ensures { IfOk result (λ rows. ShowsOutputs variables.now rows.items) }
{
    let places = places_of(alloc, variables)?;
    shown_rows(alloc, &places)
}

// The places of the outputs among the variables, by their names.
fn places_of(alloc: Global, variables: &[Variable]) -> Result<BTreeMap<String, usize>, AllocError>
    ensures { IfOk result (λ places. (values : List ValueOf) → length values ≡ length variables.now
        → placed places.entries values ≡ outputs_of variables.now values) }
{
    let mut places = BTreeMap::new(alloc);
    for place in 0..variables.len() {
        add(alloc, &mut places, &variables[place], place)?;
    }
    Ok(places)
}

// Adds the variable that stands at this place, where it is an output.
fn add(
    alloc: Global,
    places: &mut BTreeMap<String, usize>,
    variable: &Variable,
    place: usize,
) -> Result<(), AllocError>
    ensures { OnOk result ((values : List ValueOf)
        → placed places.new.entries values ≡ with_place variable.now place values (placed places.old.entries values)) }
{
    if is_output(variable.role) {
        let name = String::from_str(alloc, variable.name.as_str())?;
        places.insert(name, place)?;
    }
    Ok(())
}

fn is_output(role: Role) -> bool
    ensures { result ≡ is_output role }
{
    role == Role::Output
}

// A row for each name with its place.
fn shown_rows(alloc: Global, places: &BTreeMap<String, usize>) -> Result<Vec<Row>, AllocError>
    ensures { IfOk result (λ rows. (values : List ValueOf)
        → rows_text rows.items values ++ 125 ∷ [] ≡ members_text false (placed places.now.entries values)) }
{
    let mut rows = Vec::with_capacity(alloc, places.len())?;
    for (name, place) in places {
        let before = key_of(alloc, !rows.is_empty(), name.as_str())?;
        rows.push(Row {
            before,
            place: *place,
        })?;
    }
    Ok(rows)
}

// What stands before the value of a member of this name. A member behind another has a comma.
fn key_of(alloc: Global, later: bool, name: &str) -> Result<String, AllocError>
    ensures { IfOk result (λ key. string_bytes key ≡ key_text later name.now) }
{
    let mut key = String::new(alloc);
    if later {
        key.push_str(",")?;
    }
    key.push_str(quoted(alloc, name)?.as_str())?;
    key.push_str(":")?;
    Ok(key)
}

/// A text as JSON writes it. Err: memory was refused.
pub fn quoted(alloc: Global, text: &str) -> Result<String, AllocError>
    ensures { IfOk result (λ shown. string_bytes shown ≡ quoted text.now) }
{
    Json::String(String::from_str(alloc, text)?).to_string(alloc)
}
