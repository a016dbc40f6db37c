//! Why one node of a program has to come before another.

use program_edges::{children_of, next_nodes};
use sc_graph::{Links, NodeId, Program, Step, ThreadId, VariableId};
use sc_values::Name;
use sqlite_items::at;

/// The variable that a step writes, and whether it updates it.
pub(crate) fn written(step: &Step) -> Option<(VariableId, bool)> {
    match step {
        Step::Assign { variable, .. } => Some((*variable, false)),
        Step::Update { variable, .. } => Some((*variable, true)),
        _ => None,
    }
}

/// The name of a variable. None: there is no such variable.
pub(crate) fn name_of(program: &Program, variable: VariableId) -> Option<Name> {
    match at(program.variables(), variable as usize) {
        Some(variable) => Some(variable.name),
        None => None,
    }
}

// Whether one of these threads begins at a node.
fn begins(program: &Program, threads: &[ThreadId], node: NodeId) -> bool {
    for thread in threads {
        if program.entry(*thread) == Some(node) {
            return true;
        }
    }
    false
}

// How control flows from a node to another within a tick. None: it does not.
fn flow_words(program: &Program, links: &Links, from: NodeId, to: NodeId) -> Option<&'static str> {
    let step = program.step(from)?;
    let next = next_nodes(program, links, from, step);
    if next.first == Some(to) || next.second == Some(to) {
        if matches!(step, Step::Exit) {
            Some("the join waits for the end of this thread")
        } else {
            Some("this thread goes on there in the same tick")
        }
    } else if begins(program, children_of(step), to) {
        Some("a thread begins there in the same tick")
    } else {
        None
    }
}

// What is done to a variable, which is `@`, at two nodes, of which the first has to come before the second.
fn uses(is_update: bool, variable: VariableId, second: &Step) -> Option<&'static str> {
    if is_update {
        if second.reads(variable) {
            Some("`@` is updated here and read there")
        } else {
            None
        }
    } else if second.updates(variable) {
        Some("`@` is initialized here and updated there")
    } else if second.reads(variable) {
        Some("`@` is initialized here and read there")
    } else {
        None
    }
}

// What is done to the variable because of which a node has to come before another.
fn protocol(program: &Program, from: NodeId, to: NodeId) -> Option<&'static str> {
    let (variable, is_update) = written(program.step(from)?)?;
    match name_of(program, variable) {
        Some(_) => uses(is_update, variable, program.step(to)?),
        None => None,
    }
}

/// Why a node has to come before another, in words: how control flows, or what both do to the variable that the first
/// one writes, for which `@` stands. None: nothing is known that orders them.
pub(crate) fn reason(
    program: &Program,
    links: &Links,
    from: NodeId,
    to: NodeId,
) -> Option<&'static str> {
    match flow_words(program, links, from, to) {
        Some(words) => Some(words),
        None => protocol(program, from, to),
    }
}
