//! The states in which threads rest.

ghost use Rattle.std.specs.Prelude.{◌≡◌, ◌<◌, ◌^◌, ℕ, false, get_or, length, IfOk};
ghost use Rattle.node_states.specs.Active.{active_states, rests_at, rests_in};
ghost use Rattle.compiled_charts.specs.Inside.Marks.{AreMarked, AreMarkedMore, marked, numbers_of};

use sc_graph::{Control, Status};
use sqlite_items::Items;
use std::alloc::{AllocError, Global};

/// Those of so many states in which a thread rests, ascending.
#[tactic(auto, using(crate::proofs::Marks::numbers_are))]
pub(crate) fn active_states(
    alloc: Global,
    nodes: &[Option<u32>],
    states: u32,
    control: &Control,
) -> Result<Items<u32>, AllocError>
    ensures { IfOk result (λ active. active ≡ active_states nodes.now states control.now) }
{
    let marks = marks_of(alloc, nodes, states, control)?;
    numbers_of(alloc, &marks)
}

// For each of so many states whether a thread rests in it.
fn marks_of(
    alloc: Global,
    nodes: &[Option<u32>],
    states: u32,
    control: &Control,
) -> Result<Vec<bool>, AllocError>
    ensures { IfOk result (λ marks. AreMarked nodes.now states control.now marks.items) }
{
    let mut marks = unmarked(alloc, states)?;
    mark_all(nodes, control.statuses.as_slice(), &mut marks);
    Ok(marks)
}

// So many marks that are not set.
#[tactic(auto, using(crate::proofs::Marks::none_more))]
fn unmarked(alloc: Global, states: u32) -> Result<Vec<bool>, AllocError>
    ensures many { IfOk result (λ marks. length marks.items ≡ states) }
    ensures none { IfOk result (λ marks. (m : ℕ) → get_or marks.items m false ≡ false) }
{
    let mut marks = Vec::new(alloc);
    for _state in 0..states {
        marks.push(false)?;
    }
    Ok(marks)
}

// Marks the states in which these threads rest.
#[tactic(auto, using(crate::proofs::Marks::one_more))]
fn mark_all(nodes: &[Option<u32>], statuses: &[Status], marks: &mut Vec<bool>)
    ensures many { length marks.new.items ≡ length marks.old.items }
    ensures each { AreMarkedMore nodes.now statuses.now marks.old.items marks.new.items }
{
    for status in statuses {
        mark(state_of(nodes, *status), marks);
    }
}

// Marks this state, if there is one.
fn mark(state: Option<u32>, marks: &mut Vec<bool>)
    ensures { marks.new.items ≡ marked state marks.old.items }
{
    if let Some(number) = state {
        let at = number as usize;
        if at < marks.len() {
            marks[at] = true;
        }
    }
}

// The state in which a thread rests, if there is one.
fn state_of(nodes: &[Option<u32>], status: Status) -> Option<u32>
    ensures { result ≡ rests_in nodes.now status }
{
    let node = rests_at(status)?;
    match nodes.get(node as usize) {
        Some(state) => *state,
        None => None,
    }
}

// The node at which a thread rests.
fn rests_at(status: Status) -> Option<u16>
    ensures { result ≡ rests_at status }
{
    match status {
        Status::Waiting(node) => Some(node),
        Status::Paused(node) => Some(node),
        _ => None,
    }
}

// The numbers of what is marked, ascending.
fn numbers_of(alloc: Global, marks: &[bool]) -> Result<Items<u32>, AllocError>
    requires { length marks.now < 2 ^ 32 }
    ensures { IfOk result (λ numbers. numbers ≡ numbers_of marks.now 0) }
{
    let mut numbers = Items::new(alloc);
    for (at, is_marked) in marks.iter().enumerate() {
        if *is_marked {
            numbers.push(at as u32)?;
        }
    }
    Ok(numbers)
}
