//! What is done at the place of a chart's node.

ghost use Rattle.std.specs.Prelude.{◌≡◌, slice_get};
ghost use Rattle.node_sources.specs.Parts.{added_for, concerned, concerned_for, is_byte, loaded};
ghost use Rattle.node_sources.specs.Parts.{of_state, of_transition, part_of};

use crate::origin::SourcePart;
use core_charts::Element;
use sc_graph::{Step, Variable, VariableId};
use sc_values::Operation;
use sqlite_items::at;

// Whether this byte stands at this place of a name.
fn has_byte(name: &[u8], number: usize, byte: u8) -> bool
    ensures { result ≡ is_byte byte (slice_get name.now number) }
{
    match at(name, number) {
        Some(found) => *found == byte,
        None => false,
    }
}

// What a variable of this name is added for. None: it is declared in the text.
fn added_for(name: &[u8]) -> Option<SourcePart>
    ensures { result ≡ added_for name.now }
{
    if !has_byte(name, 0, b'_') {
        None
    } else if has_byte(name, 1, b'r') {
        Some(SourcePart::Count)
    } else {
        Some(SourcePart::Abort)
    }
}

// The variable that the first operation of a code loads.
fn first_loaded(code: &[Operation]) -> Option<VariableId>
    ensures { result ≡ loaded (slice_get code.now 0) }
{
    match at(code, 0) {
        Some(Operation::Load(variable)) => Some(*variable),
        _ => None,
    }
}

// The variable that a step writes, or tests first.
fn concerned(step: &Step) -> Option<VariableId>
    ensures { result ≡ concerned step.now }
{
    match step {
        Step::Assign { variable, .. } => Some(*variable),
        Step::Update { variable, .. } => Some(*variable),
        Step::Cond { code, .. } => first_loaded(code.operations()),
        _ => None,
    }
}

// What the variable that a step concerns is added for.
fn concerned_for(variables: &[Variable], variable: Option<VariableId>) -> Option<SourcePart>
    ensures { result ≡ concerned_for variables.now variable }
{
    match variable {
        Some(number) => match at(variables, number as usize) {
            Some(found) => added_for(found.name.as_bytes()),
            None => None,
        },
        None => None,
    }
}

fn of_state(step: &Step) -> SourcePart
    ensures { result ≡ of_state step.now }
{
    match step {
        Step::Assign { .. } => SourcePart::Entry,
        Step::Update { .. } => SourcePart::Count,
        _ => SourcePart::State,
    }
}

fn of_transition(step: &Step) -> SourcePart
    ensures { result ≡ of_transition step.now }
{
    match step {
        Step::Cond { .. } => SourcePart::Transition,
        _ => SourcePart::Abort,
    }
}

/// What is done by this step at the place of the element from which its node comes.
pub fn part_of(variables: &[Variable], step: &Step, from: Element) -> SourcePart
    ensures { result ≡ part_of variables.now step.now from }
{
    match from {
        Element::Chart => SourcePart::Chart,
        Element::Region(_) => SourcePart::Region,
        Element::State(_) => of_state(step),
        Element::Transition(_) => match concerned_for(variables, concerned(step)) {
            Some(part) => part,
            None => of_transition(step),
        },
        Element::Effect(_) => SourcePart::Transition,
    }
}
