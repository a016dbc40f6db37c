//! The states of charts: their names, and which of them are active.

ghost use Rattle.std.specs.Prelude.{◌≡◌, IfErr, IfOk, length, map, string_bytes};
ghost use Rattle.std.specs.List.{list_any};
ghost use Rattle.abort_expansion.specs.Answers.{LacksCore};
ghost use Rattle.node_states.specs.Active.{is_active, is_number, rests_at, rests_in};
ghost use Rattle.node_states.specs.StandsFor.{stands_for};
ghost use Rattle.core_charts.specs.Paths.{paths_of};
ghost use Rattle.embedded_machine.specs.Opened.{ended_by_zero, no_states};

use abort_expansion::{ExpandFault, expand};
use core_charts::{Chart, paths_of};
use node_states::stands_for;
use sc_graph::{Control, Status};
use sqlite_items::Items;
use std::alloc::{AllocError, Global};
use std::marker::Model;

/// For which state of a chart each node of its image stands, and the paths by which its states are named. States are
/// numbered from 0 in the order of the text.
#[derive(Drop)]
pub struct StateTable {
    nodes: Items<Option<u32>>,
    paths: Vec<String>,
}

impl Model for StateTable {
    ghost use Rattle.std.specs.Prelude.{map, string_bytes};
    ghost use Rattle.embedded_machine.specs.Opened.{ChartStates};

    ghost Value = { ChartStates };

    ghost view = { λ s. record { nodes = s.nodes; paths = map string_bytes s.paths.items } };
}

impl StateTable {
    /// None, where there is no chart.
    pub fn none(alloc: Global) -> StateTable
        ensures { result ≡ no_states }
    {
        StateTable {
            nodes: Items::new(alloc),
            paths: Vec::new(alloc),
        }
    }

    /// Those of a chart. Err: it is not expanded, since its core chart has more variables than a program may; or
    /// memory was refused.
    pub fn of_chart(alloc: Global, chart: &Chart) -> Result<StateTable, ExpandFault>
        ensures nodes { IfOk result (λ s. s.nodes ≡ stands_for chart.now) }
        ensures paths { IfOk result (λ s. s.paths ≡ paths_of chart.now) }
        ensures fault { IfErr result (LacksCore chart.now) }
    {
        let (core, map) = expand(alloc, chart)?;
        let nodes = stands_for(alloc, &core, &map)?;
        let paths = paths_of(alloc, chart)?;
        Ok(StateTable { nodes, paths })
    }

    /// For which of them each node stands.
    pub fn nodes(&self) -> &[Option<u32>]
        ensures { result.now ≡ self.now.nodes }
    {
        self.nodes.as_slice()
    }

    /// Those of these paths, for which nodes stand so.
    pub fn named(nodes: Items<Option<u32>>, paths: Vec<String>) -> StateTable
        ensures { result ≡ record { nodes = nodes; paths = map string_bytes paths.items } }
    {
        StateTable { nodes, paths }
    }

    /// How many there are.
    pub fn count(&self) -> usize
        ensures { result ≡ length self.now.paths }
    {
        self.paths.len()
    }

    /// The bytes of their paths, in the order of their numbers, a zero byte behind each.
    pub fn names(&self, alloc: Global) -> Result<Vec<u8>, AllocError>
        ensures { IfOk result (λ bytes. bytes.items ≡ ended_by_zero self.now.paths) }
    {
        paths_ended_by_zero(alloc, &self.paths)
    }

    /// Whether a thread rests in the state of this number.
    pub fn is_active(&self, control: &Control, number: u32) -> bool
        ensures { result ≡ is_active self.now.nodes control.now number }
    {
        rests_one(self.nodes.as_slice(), control.statuses.as_slice(), number)
    }
}

fn paths_ended_by_zero(alloc: Global, paths: &[String]) -> Result<Vec<u8>, AllocError>
    ensures { IfOk result (λ bytes. bytes.items ≡ ended_by_zero (map string_bytes paths.now)) }
{
    let mut bytes = Vec::new(alloc);
    for path in paths {
        bytes.extend_from_slice(path.as_bytes())?;
        bytes.push(0)?;
    }
    Ok(bytes)
}

// Whether one of these threads rests in the state of this number.
fn rests_one(nodes: &[Option<u32>], statuses: &[Status], number: u32) -> bool
    ensures { result ≡ list_any (λ s. is_number number (rests_in nodes.now s)) statuses.now }
{
    for status in statuses {
        if state_of(nodes, *status) == Some(number) {
            return true;
        }
    }
    false
}

// The state in which a thread rests, if there is one.
fn state_of(nodes: &[Option<u32>], status: Status) -> Option<u32>
    ensures { result ≡ rests_in nodes.now status }
{
    let node = rests_at(status)?;
    match nodes.get(node as usize) {
        Some(state) => *state,
        None => None,
    }
}

// The node at which a thread rests.
fn rests_at(status: Status) -> Option<u16>
    ensures { result ≡ rests_at status }
{
    match status {
        Status::Waiting(node) | Status::Paused(node) => Some(node),
        Status::Absent | Status::Ended | Status::At(_) => None,
    }
}
