//! What a line gives to the inputs.

ghost use Rattle.std.specs.Prelude.{◌≡◌, ◌++◌, ◌∷◌, [], OnOk, ◌<◌, ◌≢◌, IfOk, IsErrOf, Some, None, length, option_map};
ghost use Rattle.std.specs.Option.{option_copied};
ghost use Rattle.serde_json.specs.View.{view, members_view};
ghost use Rattle.serde_json.specs.Data.{Members};
ghost use Rattle.serde_json.specs.Find.{as_object};
ghost use Rattle.std.specs.BTreeMap.{get_by_text};
ghost use Rattle.trace_lines.specs.Line.{value_of, given, inputs_of, IsObjectOf};
ghost use Rattle.trace_lines.specs.Inside.Named.{NamesInputs};
ghost use Rattle.trace_lines.specs.declared.line.LineFault.TheVariants.{Memory};

use sc_graph::Variable;
use sc_values::{Kind, Name, Value};
use serde_json::{Map, Value as Json};
use sqlite_items::Items;
use std::alloc::{AllocError, Global};
use std::collections::BTreeMap;

/// Why a line gives no inputs.
#[derive(Clone, Copy, Debug, PartialEq, Eq)]
pub enum LineFault {
    /// Memory was refused.
    Memory,
    /// The line is no JSON object.
    NotJson,
    /// A member names no input, or has a value that the input's kind does not take.
    Input,
}

impl From<AllocError> for LineFault {
    ghost from_gives = { λ _ e. e ≡ Memory };

    fn from(_error: AllocError) -> LineFault {
        LineFault::Memory
    }
}

// The value of this kind that a JSON value spells.
fn value_of(kind: Kind, json: &Json) -> Option<Value>
    ensures { result ≡ value_of kind (view json.now) }
{
    match kind {
        Kind::Bool => json.as_bool().map(Value::Bool),
        Kind::Int => i32::try_from(json.as_i64()?).ok().map(Value::Int),
    }
}

/// The input of this name.
pub(crate) fn input_of<'a>(
    inputs: &'a BTreeMap<String, Variable>,
    name: &str,
) -> Option<&'a Variable>
    ensures { option_copied result ≡ get_by_text inputs.now name.now }
{
    inputs.get(name)
}

// What a member gives: a value to the input that it names.
fn given(
    variables: &[Variable],
    inputs: &BTreeMap<String, Variable>,
    name: &str,
    json: &Json,
) -> Option<(Name, Value)>
    requires { NamesInputs variables.now inputs.now }
    ensures { result ≡ given variables.now name.now (view json.now) }
{
    let input = input_of(inputs, name)?;
    let value = value_of(input.kind, json)?;
    Some((input.name, value))
}

fn push(found: &mut Vec<(Name, Value)>, input: (Name, Value)) -> Result<(), AllocError>
    ensures { OnOk result (found.new.items ≡ found.old.items ++ input ∷ []) }
{
    found.push(input)?;
    Ok(())
}

/// What all members give to the inputs of these names, which are those among the variables.
pub(crate) fn inputs_by(
    alloc: Global,
    variables: &[Variable],
    named: &BTreeMap<String, Variable>,
    members: &Map<String, Json>,
) -> Result<Items<(Name, Value)>, LineFault>
    requires { NamesInputs variables.now named.now }
    ensures ok { IfOk result
        (λ given. inputs_of variables.now (members_view members.now.entries) ≡ Some given) }
    ensures input { IsErrOf result LineFault.Input
        → inputs_of variables.now (members_view members.now.entries) ≡ None }
    ensures read { result ≢ Err LineFault.NotJson }
{
    let mut inputs = Vec::with_capacity(alloc, members.len())?;
    for (name, json) in members {
        match given(variables, named, name.as_str(), json) {
            Some(input) => push(&mut inputs, input)?,
            None => return Err(LineFault::Input),
        }
    }
    Ok(Items::from_vec(inputs))
}

fn into_object(json: Json) -> Option<Map<String, Json>>
    ensures { option_map (λ members. members_view members.entries) result ≡ as_object (view json) }
{
    match json {
        Json::Object(members) => Some(members),
        _ => None,
    }
}

/// The members of the JSON object that a line is. Err: it is none; or memory was refused. An input is never its fault.
pub fn object_of(alloc: Global, line: &[u8]) -> Result<Map<String, Json>, LineFault>
    ensures ok { IfOk result (λ members. IsObjectOf line.now (members_view members.entries)) }
    ensures not_json { IsErrOf result LineFault.NotJson → (members : Members) → ¬ IsObjectOf line.now members }
    ensures read { result ≢ Err LineFault.Input }
{
    match Json::from_slice(alloc, line) {
        Ok(json) => into_object(json).ok_or(LineFault::NotJson),
        Err(error) if error.is_memory() => Err(LineFault::Memory),
        Err(_) => Err(LineFault::NotJson),
    }
}
