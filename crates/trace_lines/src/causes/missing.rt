//! The first input that a line does not name.

ghost use Rattle.std.specs.Prelude.{◌≡◌, IfOk, IfSome};
ghost use Rattle.std.specs.Option.{is_some};
ghost use Rattle.serde_json.specs.Find.{as_object, get};
ghost use Rattle.serde_json.specs.View.{view};
ghost use Rattle.trace_lines.specs.Met.{IsMetOn};
ghost use Rattle.trace_lines.specs.Missing.{IsMetUnder, IsMissingIn, IsMissingOn, Names};

use crate::causes::cause::Cause;
use crate::causes::line::Line;
use crate::causes::met::cause_on;
use crate::causes::recent::{OfInput, Recent};
use sc_graph::{Role, Variable};
use sc_values::Source;
use serde_json::Value as Json;
use std::alloc::{AllocError, Global};

// Whether a member has this name.
fn has_member(json: &Json, name: &str) -> bool
    ensures { result ≡ is_some (get name.now (view json.now)) }
{
    json.get(name).is_some()
}

// The first input among these variables that no member names.
fn missing(alloc: Global, variables: &[Variable], json: &Json) -> Result<Option<Cause>, AllocError>
    ensures { IfOk result (λ cause. IfSome cause (Names variables.now (view json.now))) }
{
    match variables.split_first() {
        None => Ok(None),
        Some((first, rest)) => {
            let name = first.name.as_str();
            if first.role == Role::Input && !has_member(json, name) {
                return Ok(Some(Cause::Missing(String::from_str(alloc, name)?)));
            }
            missing(alloc, rest, json)
        }
    }
}

// The first input that the object does not name that a line is. None: it is none, or names all; or memory was refused.
#[tactic(auto)]
fn missing_in(alloc: Global, variables: &[Variable], line: &[u8]) -> Option<Cause>
    ensures { IfSome result (IsMissingIn variables.now line.now) }
{
    let Ok(json) = Json::from_slice(alloc, line) else {
        return None;
    };
    if !json.is_object() {
        return None;
    }
    let Ok(cause) = missing(alloc, variables, &json) else {
        return None;
    };
    cause
}

// The first input that the line of this number does not name. None: it names all, or is not kept, or memory was
// refused.
fn missing_on<S: Source, N: OfInput>(
    alloc: Global,
    variables: &[Variable],
    recent: &Recent<'_, S, N>,
    number: u64,
) -> Option<Cause>
    ensures { IfSome result (IsMissingOn variables.now N.start number) }
{
    match recent.line(number) {
        Line::Whole(line) => missing_in(alloc, variables, line),
        Line::Long | Line::Lost => None,
    }
}

/// Why the line of this number gives no inputs among these variables, or, where every input has to be named, which one
/// it does not name. None: it gives some, and names all that it has to; or it is not kept, or memory was refused.
#[tactic(auto, using(crate::proofs::Missed::met_under))]
pub fn cause_under<S: Source, N: OfInput>(
    alloc: Global,
    strict: bool,
    variables: &[Variable],
    recent: &Recent<'_, S, N>,
    number: u64,
) -> Option<Cause>
    ensures { IfSome result (IsMetUnder strict variables.now N.start number) }
{
    match cause_on(alloc, variables, recent, number) {
        Some(cause) => Some(cause),
        None if strict => missing_on(alloc, variables, recent, number),
        None => None,
    }
}
