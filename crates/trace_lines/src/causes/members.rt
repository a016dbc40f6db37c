//! The first member of a line that gives nothing.

ghost use Rattle.std.specs.Prelude.{◌≡◌, IfOk, IfSome, IfNone, is_some};
ghost use Rattle.serde_json.specs.View.{view, members_view, number_view};
ghost use Rattle.trace_lines.specs.Line.{given, value_of};
ghost use Rattle.trace_lines.specs.Cause.{IsLacking, Meets, first_without, kind_of, met_of, number_met};
ghost use Rattle.trace_lines.specs.Inside.Causes.{is_named};

use crate::causes::cause::{Cause, Met};
use sc_graph::{Role, Variable};
use sc_values::Kind;
use serde_json::{Map, Number, Value as Json};
use std::alloc::{AllocError, Global};

// Whether a variable is the input of this name.
fn is_named(variable: &Variable, name: &str) -> bool
    ensures { result ≡ is_named variable.now name.now }
{
    variable.role == Role::Input && variable.name.as_str() == name
}

// The kind of the input of this name.
fn kind_of(variables: &[Variable], name: &str) -> Option<Kind>
    ensures { result ≡ kind_of variables.now name.now }
{
    match variables.split_first() {
        None => None,
        Some((first, _)) if is_named(first, name) => Some(first.kind),
        Some((_, rest)) => kind_of(rest, name),
    }
}

fn number_met(number: &Number) -> Met
    ensures { result ≡ number_met (number_view number.now) }
{
    if number.is_f64() {
        Met::Fraction
    } else {
        Met::Whole
    }
}

// What a value is.
fn met_of(json: &Json) -> Met
    ensures { result ≡ met_of (view json.now) }
{
    match json {
        Json::Null => Met::Null,
        Json::Bool(value) => Met::Truth(*value),
        Json::Number(number) => number_met(number),
        Json::String(_) => Met::Text,
        Json::Array(_) => Met::List,
        Json::Object(_) => Met::Object,
    }
}

// Whether an input of this kind takes a value.
fn takes(kind: Kind, json: &Json) -> bool
    ensures { result ≡ is_some (value_of kind (view json.now)) }
{
    match kind {
        Kind::Bool => json.is_boolean(),
        Kind::Int => match json.as_i64() {
            Some(number) => i32::try_from(number).is_ok(),
            None => false,
        },
    }
}

// Whether a member of this name gives something.
fn gives(variables: &[Variable], name: &str, json: &Json) -> bool
    ensures { result ≡ is_some (given variables.now name.now (view json.now)) }
{
    match kind_of(variables, name) {
        None => false,
        Some(kind) => takes(kind, json),
    }
}

// What a member of this name meets.
fn met(alloc: Global, variables: &[Variable], name: &str, json: &Json) -> Result<Cause, AllocError>
    ensures { IfOk result (Meets variables.now name.now (view json.now)) }
{
    let shown = String::from_str(alloc, name)?;
    match kind_of(variables, name) {
        None => Ok(Cause::NoInput(shown)),
        Some(kind) => Ok(Cause::NoValue(shown, kind, met_of(json))),
    }
}

/// What the first of these members meets that gives nothing to these variables, if there is one.
pub(crate) fn lacking(
    alloc: Global,
    variables: &[Variable],
    members: &Map<String, Json>,
) -> Result<Option<Cause>, AllocError>
    ensures met { IfOk result (λ cause. IfSome cause (IsLacking variables.now (members_view members.now.entries))) }
{
    for (name, json) in members {
        if !gives(variables, name.as_str(), json) {
            return Ok(Some(met(alloc, variables, name.as_str(), json)?));
        }
    }
    Ok(None)
}
