//! The well-formed code rule: each code spells a well-kinded expression within the limits, and a
//! condition's code gives a truth value.

ghost use Rattle.std.specs.Prelude.{◌≡◌, ◌↔◌, ◌<◌, IsTrue, Some};
ghost use Rattle.sc_values.specs.declared.value.Kind.TheVariants.{Bool};
ghost use Rattle.sc_values.specs.Code.{code_kind, IsWellFormed};
ghost use Rattle.sc_graph.specs.Codes.{CodeAt, StepIsWellFormed};
ghost use Rattle.sc_graph.specs.Program.{kinds};
ghost use Rattle.sc_graph.specs.declared.place.Place.TheVariants as place;
ghost use Rattle.verifier.specs.Inside.Faults.{IsFault};

use crate::kinds::kind_given;
use sc_graph::{NodeId, Place, Program, Step};
use sc_values::{Code, Kind};

/// A place where the rule is broken, where it is.
pub(crate) fn code_fault(program: &Program, known: &[Kind]) -> Option<Place>
    requires { known.now ≡ kinds program.now }
    ensures { IsFault (CodeAt program.now) result }
{
    for n in 0..program.node_count() {
        if !code_holds(program, known, n) {
            return Some(Place::Node(n));
        }
    }
    None
}

// Whether the rule is kept at a node.
fn code_holds(program: &Program, known: &[Kind], n: NodeId) -> bool
    requires { known.now ≡ kinds program.now }
    ensures { IsTrue result ↔ CodeAt program.now (place.Node n) }
{
    match program.step(n) {
        Some(step) => step_is_well_formed(program, known, step),
        None => true,
    }
}

// Whether the code of a step is well formed, and fits the step.
fn step_is_well_formed(program: &Program, known: &[Kind], step: &Step) -> bool
    requires { known.now ≡ kinds program.now }
    ensures { IsTrue result ↔ StepIsWellFormed program.now step.now }
{
    match step {
        Step::Assign { code, .. } | Step::Update { code, .. } => is_well_formed(
            program, known, code,
        ),
        Step::Cond { code, .. } => is_condition(program, known, code),
        _ => true,
    }
}

// Whether a code is well formed and gives a truth value.
fn is_condition(program: &Program, known: &[Kind], code: &Code) -> bool
    requires { known.now ≡ kinds program.now }
    ensures { IsTrue result ↔ (IsWellFormed (kinds program.now) code.now
        × (code_kind code.now (kinds program.now) ≡ Some Bool)) }
{
    match kind_given(program, known, code) {
        Some(Kind::Bool) => true,
        Some(Kind::Int) => false,
        None => false,
    }
}

// Whether a code is well formed.
fn is_well_formed(program: &Program, known: &[Kind], code: &Code) -> bool
    requires { known.now ≡ kinds program.now }
    ensures { IsTrue result ↔ IsWellFormed (kinds program.now) code.now }
{
    match kind_given(program, known, code) {
        Some(_kind) => true,
        None => false,
    }
}
