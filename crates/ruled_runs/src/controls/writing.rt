//! Writing the text of a configuration.

ghost use Rattle.std.specs.Prelude.{◌≡◌, ◌≤◌, IfOk, string_bytes};
ghost use Rattle.serde_json.specs.Data.{depth};
ghost use Rattle.serde_json.specs.Read.{max_depth};
ghost use Rattle.serde_json.specs.View.{view};
ghost use Rattle.ruled_runs.specs.Texts.{Holds, IsSaved};

use crate::controls::statuses::statuses_json;
use crate::controls::values::values_json;
use sc_graph::Control;
use serde_json::{Value as Json, json};
use std::alloc::{AllocError, Global};

// A configuration and the number of a tick as JSON.
fn control_json(alloc: Global, ticks: u64, control: &Control) -> Result<Json, AllocError>
    ensures holds { IfOk result (λ json. Holds (view json) ticks control.now) }
    ensures depth { IfOk result (λ json. depth (view json) ≤ max_depth) }
{
    let values = Json::Array(values_json(alloc, control.variables.as_slice())?);
    let threads = Json::Array(statuses_json(alloc, control.statuses.as_slice())?);
    json!(in alloc; {"ticks": ticks, "values": values, "threads": threads})
}

/// A text that holds a configuration and the number of the tick that ended in it. Err: memory was refused.
pub fn control_text(alloc: Global, ticks: u64, control: &Control) -> Result<String, AllocError>
    ensures { IfOk result (λ text. IsSaved (string_bytes text) ticks control.now) }
{
    control_json(alloc, ticks, control)?.to_string(alloc)
}
