//! The output in which two lines of a trace differ.

ghost use Rattle.std.specs.Prelude.{◌≡◌, ℕ, IfOk, IfSome, Some, List, string_bytes};
ghost use Rattle.serde_json.specs.Find.{get};
ghost use Rattle.serde_json.specs.Read.{read};
ghost use Rattle.serde_json.specs.View.{view};
ghost use Rattle.controller_tests.specs.Told.{ShowsValue, TellsData, TellsLines, TellsMember, TellsOutput};

use serde_json::{Map, Value as Json};
use std::alloc::{AllocError, Global};
use trace_lines::quoted;

// The JSON value that a line is. None: it is none.
fn json_of(alloc: Global, line: &[u8]) -> Result<Option<Json>, AllocError>
    ensures { IfOk result (λ json. IfSome json (λ json. read line.now ≡ Some (view json))) }
{
    match Json::from_slice(alloc, line) {
        Ok(json) => Ok(Some(json)),
        Err(error) if error.is_memory() => Err(AllocError),
        Err(_) => Ok(None),
    }
}

// What the member of this name is, or that there is none.
fn shown_member(alloc: Global, json: &Json, name: &str) -> Result<String, AllocError>
    ensures { IfOk result (λ shown. ShowsValue (get name.now (view json.now)) (string_bytes shown)) }
{
    match json.get(name) {
        Some(value) => value.to_string(alloc),
        None => String::from_str(alloc, "missing"),
    }
}

// What is said of the member of this name. None: it is the same in both.
fn member_told(
    alloc: Global,
    wanted: &Json,
    got: &Json,
    name: &str,
) -> Result<Option<String>, AllocError>
    ensures { IfOk result (λ told. IfSome told
        (λ words. TellsMember name.now (view wanted.now) (view got.now) (string_bytes words))) }
{
    let value = shown_member(alloc, wanted, name)?;
    let other = shown_member(alloc, got, name)?;
    if value.as_str() == other.as_str() {
        return Ok(None);
    }
    let name = quoted(alloc, name)?;
    Ok(Some(format!(in alloc; "{name} is {other}, wanted {value}")?))
}

// What is said of the first of these members that is not the same in both. None: each of them is.
fn first_told(
    alloc: Global,
    members: &Map<String, Json>,
    wanted: &Json,
    got: &Json,
) -> Result<Option<String>, AllocError>
    ensures { IfOk result (λ told. IfSome told
        (λ words. (name : List ℕ) × TellsMember name (view wanted.now) (view got.now) (string_bytes words))) }
{
    for (name, _) in members {
        if let Some(told) = member_told(alloc, wanted, got, name.as_str())? {
            return Ok(Some(told));
        }
    }
    Ok(None)
}

// What is said of the first output that is not the same in both, where `wanted` and `got` are all outputs. None: there
// is none, or they are no objects.
fn outputs_told(alloc: Global, wanted: &Json, got: &Json) -> Result<Option<String>, AllocError>
    ensures { IfOk result (λ told. IfSome told
        (λ words. (name : List ℕ) × TellsMember name (view wanted.now) (view got.now) (string_bytes words))) }
{
    if let Some(members) = wanted.as_object() {
        if let Some(told) = first_told(alloc, members, wanted, got)? {
            return Ok(Some(told));
        }
    }
    match got.as_object() {
        Some(members) => first_told(alloc, members, wanted, got),
        None => Ok(None),
    }
}

// What is said of the first output that is not the same in two lines. None: the lines have none.
fn output_told(alloc: Global, line: &Json, other: &Json) -> Result<Option<String>, AllocError>
    ensures { IfOk result (λ told. IfSome told
        (λ words. TellsOutput (view line.now) (view other.now) (string_bytes words))) }
{
    let Some(wanted) = line.get("out") else {
        return Ok(None);
    };
    let Some(got) = other.get("out") else {
        return Ok(None);
    };
    let told = outputs_told(alloc, wanted, got)?;
    Ok(told)
}

// What is said of two lines that differ in an output, or in their steps. None: it cannot be told.
fn data_told(alloc: Global, wanted: &[u8], got: &[u8]) -> Result<Option<String>, AllocError>
    ensures { IfOk result (λ told. IfSome told (λ words. TellsData wanted.now got.now (string_bytes words))) }
{
    let Some(line) = json_of(alloc, wanted)? else {
        return Ok(None);
    };
    let Some(other) = json_of(alloc, got)? else {
        return Ok(None);
    };
    if let Some(told) = output_told(alloc, &line, &other)? {
        return Ok(Some(told));
    }
    let told = member_told(alloc, &line, &other, "steps")?;
    Ok(told)
}

/// What is said of two lines that differ.
pub(crate) fn lines_told(alloc: Global, wanted: &[u8], got: &[u8]) -> Result<String, AllocError>
    ensures { IfOk result (λ words. TellsLines wanted.now got.now (string_bytes words)) }
{
    match data_told(alloc, wanted, got)? {
        Some(words) => Ok(words),
        None => String::from_str(alloc, "another line is wanted"),
    }
}
