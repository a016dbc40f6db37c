//! Reading the text of a configuration.

ghost use Rattle.std.specs.Prelude.{◌≡◌, ℕ, IfOk, IfSome, IfNone, IsErrOf, option_map};
ghost use Rattle.serde_json.specs.View.{view};
ghost use Rattle.sc_graph.specs.Tick.{Rests};
ghost use Rattle.ruled_runs.specs.Texts.{Holds, IsSaved};
ghost use Rattle.sc_graph.specs.declared.control.Control.{Control as Configuration};

use crate::controls::saved::{Saved, SavedFault};
use crate::controls::statuses::statuses_in;
use crate::controls::values::values_in;
use sc_graph::{Control, Program};
use serde_json::Value as Json;
use std::alloc::{AllocError, Global};

// The JSON value that bytes spell. None: they spell none.
fn json_of(alloc: Global, bytes: &[u8]) -> Result<Json, SavedFault>
    ensures read { IfOk result (λ json. (t : ℕ) (c : Configuration) → Holds (view json) t c → IsSaved bytes.now t c) }
    ensures only { IfOk result (λ json. (t : ℕ) (c : Configuration) → IsSaved bytes.now t c → Holds (view json) t c) }
    ensures none { IsErrOf result SavedFault.Unfit → (t : ℕ) (c : Configuration) → ¬ IsSaved bytes.now t c }
{
    match Json::from_slice(alloc, bytes) {
        Ok(json) => Ok(json),
        Err(error) if error.is_memory() => Err(SavedFault::Memory),
        Err(_) => Err(SavedFault::Unfit),
    }
}

// What a JSON value holds. None: it holds no configuration.
fn held_by(alloc: Global, json: &Json) -> Result<Option<Saved>, AllocError>
    ensures held { IfOk result (λ saved. IfSome saved (λ s. Holds (view json.now) s.ticks s.control)) }
    ensures none { IfOk result (λ saved. IfNone saved ((t : ℕ) (c : Configuration) → ¬ Holds (view json.now) t c)) }
{
    let Some(ticks) = json.get("ticks").and_then(Json::as_u64) else {
        return Ok(None);
    };
    let Some(values) = json.get("values").and_then(Json::as_array) else {
        return Ok(None);
    };
    let Some(threads) = json.get("threads").and_then(Json::as_array) else {
        return Ok(None);
    };
    let Some(variables) = values_in(alloc, values.as_slice())? else {
        return Ok(None);
    };
    let Some(statuses) = statuses_in(alloc, threads.as_slice())? else {
        return Ok(None);
    };
    let control = Control {
        variables,
        statuses,
    };
    Ok(Some(Saved { ticks, control }))
}

/// The configuration that the text of these bytes holds, in which the program rests, and the number of the tick that
/// ended in it. Err: it holds none; or memory was refused.
pub fn control_in(alloc: Global, program: &Program, bytes: &[u8]) -> Result<Saved, SavedFault>
    ensures saved { IfOk result (λ s. IsSaved bytes.now s.ticks s.control) }
    ensures rests { IfOk result (λ s. Rests program.now s.control) }
    ensures none { IsErrOf result SavedFault.Unfit
        → (t : ℕ) (c : Configuration) → Rests program.now c → ¬ IsSaved bytes.now t c }
{
    let json = match json_of(alloc, bytes) {
        Ok(json) => json,
        Err(fault) => return Err(fault),
    };
    let saved = match held_by(alloc, &json)? {
        Some(saved) => saved,
        None => return Err(SavedFault::Unfit),
    };
    if !saved.control.fits(program) {
        return Err(SavedFault::Unfit);
    }
    Ok(saved)
}
