//! The inputs of a tick.

ghost use Rattle.std.specs.Prelude.{◌≡◌, ◌≢◌, ◌↔◌, ◌<◌, ℕ, List, IsTrue, MatchOption, Some, length, slice_get};
ghost use Rattle.sc_values.specs.declared.value.Value.{Value};
ghost use Rattle.sc_graph.specs.Tick.{AreAccepted};
ghost use Rattle.tick_core.specs.Inside.Inputs.{IsFor, IsForAt, NamesInput, IsAcceptedAt};

use sc_graph::{Program, Role, Variable};
use sc_values::{Name, Value};
use sqlite_items::Items;

/// The inputs of a tick: names, each with a value. Accepted are those that name input variables,
/// each with a value of its kind, and no name twice.
pub type Inputs = Items<(Name, Value)>;

/// Whether each input names an input variable and has its kind, and no name comes twice. It takes no
/// memory, and compares each input with all variables and all earlier inputs.
pub(crate) fn are_accepted(program: &Program, inputs: &[(Name, Value)]) -> bool
    ensures { IsTrue result ↔ (AreAccepted program.now inputs.now) }
{
    for at in 0..inputs.len() {
        if !is_accepted_at(program, inputs, at) {
            return false;
        }
    }
    true
}

// Whether the input at this place names an input variable, has its kind, and is the first of its name.
fn is_accepted_at(program: &Program, inputs: &[(Name, Value)], at: usize) -> bool
    requires { at < length inputs.now }
    ensures { IsTrue result ↔ ((a : List ℕ × Value) → slice_get inputs.now at ≡ Some a
        → IsAcceptedAt program.now.variables inputs.now at a) }
{
    let input = &inputs[at];
    names_input(program.variables(), input) && is_new(&inputs[..at], input)
}

// Whether this input is for one of the variables.
fn names_input(variables: &[Variable], input: &(Name, Value)) -> bool
    ensures { IsTrue result ↔ (NamesInput variables.now input.now) }
{
    place_among(variables, input).is_some()
}

/// The variable that this input is for, looked for at this place first; None where it is for none.
pub(crate) fn place_of(
    variables: &[Variable],
    input: &(Name, Value),
    guess: Option<usize>,
) -> Option<usize>
    ensures { MatchOption result (¬ NamesInput variables.now input.now) (IsForAt variables.now input.now) }
{
    match guess {
        Some(place) if is_for_at(variables, input, place) => Some(place),
        _ => place_among(variables, input),
    }
}

// The variable that this input is for, looked for among all.
fn place_among(variables: &[Variable], input: &(Name, Value)) -> Option<usize>
    ensures { MatchOption result (¬ NamesInput variables.now input.now) (IsForAt variables.now input.now) }
{
    for place in 0..variables.len() {
        if is_for(&variables[place], input) {
            return Some(place);
        }
    }
    None
}

/// Whether this input is for the variable at this place.
pub(crate) fn is_for_at(variables: &[Variable], input: &(Name, Value), place: usize) -> bool
    ensures { IsTrue result ↔ (IsForAt variables.now input.now place) }
{
    match variables.get(place) {
        Some(variable) => is_for(variable, input),
        None => false,
    }
}

// Whether this input is for this variable.
fn is_for(variable: &Variable, input: &(Name, Value)) -> bool
    ensures { IsTrue result ↔ (IsFor variable.now input.now) }
{
    variable.name == input.0 && variable.role == Role::Input && variable.kind == input.1.kind()
}

// Whether no earlier input has the name of this one.
fn is_new(earlier: &[(Name, Value)], input: &(Name, Value)) -> bool
    ensures { IsTrue result ↔ ((i : ℕ) (a : List ℕ × Value) → slice_get earlier.now i ≡ Some a → a.0 ≢ input.now.0) }
{
    for other in earlier {
        if same_name(&other.0, &input.0) {
            return false;
        }
    }
    true
}

fn same_name(a: &Name, b: &Name) -> bool
    ensures { IsTrue result ↔ (a.now ≡ b.now) }
{
    a == b
}
