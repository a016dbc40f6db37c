//! Values as JSON, and back.

ghost use Rattle.std.specs.Prelude.{◌≡◌, ◌≤◌, IfOk, Some};
ghost use Rattle.serde_json.specs.Data.{depth, items_depth};
ghost use Rattle.serde_json.specs.View.{items_view, view};
ghost use Rattle.ruled_runs.specs.Texts.{all_in, value_in};

use sc_values::Value;
use serde_json::Value as Json;
use sqlite_items::Items;
use std::alloc::{AllocError, Global};

// The value that a JSON value spells.
fn value_in(json: &Json) -> Option<Value>
    ensures { result ≡ value_in (view json.now) }
{
    match json {
        Json::Bool(value) => Some(Value::Bool(*value)),
        Json::Number(number) => i32::try_from(number.as_i64()?).ok().map(Value::Int),
        _ => None,
    }
}

/// The values that JSON values spell. None: one of them spells none.
#[tactic(auto, using(crate::proofs::Lists::one_more, crate::proofs::Lists::one_lacks, crate::proofs::Lists::all_found))]
pub(crate) fn values_in(alloc: Global, list: &[Json]) -> Result<Option<Items<Value>>, AllocError>
    ensures { IfOk result (λ values. values ≡ all_in value_in (items_view list.now)) }
{
    let mut values = Items::new(alloc);
    for json in list {
        match value_in(json) {
            Some(value) => values.push(value)?,
            None => return Ok(None),
        }
    }
    Ok(Some(values))
}

// A value as JSON.
#[tactic(auto, using(crate::proofs::Spelt::whole_value))]
fn value_json(value: Value) -> Json
    ensures value { value_in (view result) ≡ Some value }
    ensures depth { depth (view result) ≡ 0 }
{
    match value {
        Value::Bool(value) => Json::Bool(value),
        Value::Int(number) => Json::from(number),
    }
}

/// Values as JSON.
#[tactic(auto, using(crate::proofs::Lists::one_behind, crate::proofs::Lists::deep_behind))]
pub(crate) fn values_json(alloc: Global, values: &[Value]) -> Result<Vec<Json>, AllocError>
    ensures values { IfOk result (λ list. all_in value_in (items_view list.items) ≡ Some values.now) }
    ensures depth { IfOk result (λ list. items_depth (items_view list.items) ≤ 1) }
{
    let mut list = Vec::with_capacity(alloc, values.len())?;
    for value in values {
        list.push(value_json(*value))?;
    }
    Ok(list)
}
