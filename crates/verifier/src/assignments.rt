//! The assignment kind rule: a variable takes the kind of what is written to it, and is no input.

ghost use Rattle.std.specs.Prelude.{◌≡◌, ◌↔◌, ◌<◌, IsTrue, Contains, Some};
ghost use Rattle.sc_values.specs.Code.{IsWellFormed, loads};
ghost use Rattle.sc_values.specs.Operator.{kind_combined};
ghost use Rattle.sc_graph.specs.Codes.{AssignmentAt, CodeAt, IsWritten, StepIsAssigned, StepIsWellFormed};
ghost use Rattle.sc_graph.specs.Program.{kind_at, kinds};
ghost use Rattle.sc_graph.specs.declared.place.Place.{Place};
ghost use Rattle.sc_graph.specs.declared.place.Place.TheVariants as place;
ghost use Rattle.verifier.specs.Inside.Faults.{IsFault};

use crate::kinds::kind_given;
use sc_graph::{NodeId, Place, Program, Role, Step, VariableId, is_loaded};
use sc_values::{Code, Combination, Kind};

/// A place where the rule is broken, where it is.
pub(crate) fn assignment_fault(program: &Program, known: &[Kind]) -> Option<Place>
    requires known { known.now ≡ kinds program.now }
    requires codes { (at : Place) → CodeAt program.now at }
    ensures { IsFault (AssignmentAt program.now) result }
{
    for n in 0..program.node_count() {
        if !assignment_holds(program, known, n) {
            return Some(Place::Node(n));
        }
    }
    None
}

// Whether the rule is kept at a node.
fn assignment_holds(program: &Program, known: &[Kind], n: NodeId) -> bool
    requires known { known.now ≡ kinds program.now }
    requires code { CodeAt program.now (place.Node n) }
    ensures { IsTrue result ↔ AssignmentAt program.now (place.Node n) }
{
    match program.step(n) {
        Some(step) => is_assigned(program, known, step),
        None => true,
    }
}

// Whether a step fits the variable that it writes.
fn is_assigned(program: &Program, known: &[Kind], step: &Step) -> bool
    requires known { known.now ≡ kinds program.now }
    requires formed { StepIsWellFormed program.now step.now }
    ensures { IsTrue result ↔ StepIsAssigned program.now step.now }
{
    match step {
        Step::Assign { variable, code, .. } => is_written(program, known, *variable, code),
        Step::Update {
            variable,
            combine,
            code,
            ..
        } => is_updated(program, known, *variable, *combine, code),
        _ => true,
    }
}

// Whether a variable may be combined with what a code gives.
fn is_updated(
    program: &Program,
    known: &[Kind],
    variable: VariableId,
    combine: Combination,
    code: &Code,
) -> bool
    requires known { known.now ≡ kinds program.now }
    requires formed { IsWellFormed (kinds program.now) code.now }
    ensures { IsTrue result ↔ (IsWritten program.now variable code.now
        × (kind_at program.now variable ≡ Some (kind_combined combine)) × ¬ Contains (loads code.now) variable) }
{
    if !is_written(program, known, variable, code) {
        return false;
    }
    if program.kind(variable) != Some(combine.kind()) {
        return false;
    }
    !is_loaded(code, variable)
}

// Whether a variable may take what a code gives.
fn is_written(program: &Program, known: &[Kind], variable: VariableId, code: &Code) -> bool
    requires known { known.now ≡ kinds program.now }
    requires formed { IsWellFormed (kinds program.now) code.now }
    ensures { IsTrue result ↔ IsWritten program.now variable code.now }
{
    kind_given(program, known, code) == program.kind(variable)
        && program.role(variable) != Some(Role::Input)
}
