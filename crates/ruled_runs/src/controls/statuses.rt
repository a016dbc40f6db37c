//! Statuses of threads as JSON, and back.

ghost use Rattle.std.specs.Prelude.{◌≡◌, ◌≤◌, IfOk, Some};
ghost use Rattle.serde_json.specs.Data.{depth, items_depth};
ghost use Rattle.serde_json.specs.Number.{num_of};
ghost use Rattle.serde_json.specs.View.{items_view, number_view, view};
ghost use Rattle.ruled_runs.specs.Texts.{all_in, node_in, stands_at, status_in, waits_at};
ghost use Rattle.serde_json.specs.Find.{as_i64};

use sc_graph::{NodeId, Status};
use serde_json::{Number, Value as Json};
use sqlite_items::Items;
use std::alloc::{AllocError, Global};

// The node whose number a JSON value is.
fn node_in(json: &Json) -> Option<NodeId>
    ensures { result ≡ node_in (view json.now) }
{
    NodeId::try_from(json.as_u64()?).ok()
}

// Where a thread stands of which this number tells.
fn stands_at(number: i64) -> Option<Status>
    ensures { result ≡ stands_at number }
{
    if number >= 0 {
        NodeId::try_from(number).ok().map(Status::Paused)
    } else {
        NodeId::try_from(-1 - number).ok().map(Status::At)
    }
}

// Where a thread stands of which this list tells.
fn waits_at(list: &[Json]) -> Option<Status>
    ensures { result ≡ waits_at (items_view list.now) }
{
    let (one, rest) = list.split_first()?;
    if !rest.is_empty() {
        return None;
    }
    node_in(one).map(Status::Waiting)
}

// The status that a JSON value spells.
fn status_in(json: &Json) -> Option<Status>
    ensures { result ≡ status_in (view json.now) }
{
    match json {
        Json::Null => Some(Status::Absent),
        Json::Bool(true) => Some(Status::Ended),
        Json::Number(number) => stands_at(number.as_i64()?),
        Json::Array(list) => waits_at(list.as_slice()),
        _ => None,
    }
}

/// The statuses that JSON values spell. None: one of them spells none.
#[tactic(auto, using(crate::proofs::Lists::one_more, crate::proofs::Lists::one_lacks, crate::proofs::Lists::all_found))]
pub(crate) fn statuses_in(alloc: Global, list: &[Json]) -> Result<Option<Items<Status>>, AllocError>
    ensures { IfOk result (λ statuses. statuses ≡ all_in status_in (items_view list.now)) }
{
    let mut statuses = Items::new(alloc);
    for json in list {
        match status_in(json) {
            Some(status) => statuses.push(status)?,
            None => return Ok(None),
        }
    }
    Ok(Some(statuses))
}

// A status as JSON.
fn status_json(alloc: Global, status: Status) -> Result<Json, AllocError>
    ensures status { IfOk result (λ json. status_in (view json) ≡ Some status) }
    ensures depth { IfOk result (λ json. depth (view json) ≤ 1) }
{
    match status {
        Status::Absent => Ok(Json::Null),
        Status::Ended => Ok(Json::Bool(true)),
        Status::Paused(node) => Ok(Json::from(node)),
        Status::At(node) => Ok(Json::from(-1 - i32::from(node))),
        Status::Waiting(node) => {
            let mut list = Vec::new(alloc);
            list.push(Json::from(node))?;
            Ok(Json::Array(list))
        }
    }
}

/// Statuses as JSON.
#[tactic(auto, using(crate::proofs::Lists::one_behind, crate::proofs::Lists::deep_behind))]
pub(crate) fn statuses_json(alloc: Global, statuses: &[Status]) -> Result<Vec<Json>, AllocError>
    ensures statuses { IfOk result (λ list. all_in status_in (items_view list.items) ≡ Some statuses.now) }
    ensures depth { IfOk result (λ list. items_depth (items_view list.items) ≤ 1) }
{
    let mut list = Vec::with_capacity(alloc, statuses.len())?;
    for status in statuses {
        list.push(status_json(alloc, *status)?)?;
    }
    Ok(list)
}
