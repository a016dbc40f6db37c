//! Whether every input is named.

ghost use Rattle.std.specs.Prelude.{◌≡◌};
ghost use Rattle.std.specs.Option.{is_some};
ghost use Rattle.sc_graph.specs.Tick.{given};
ghost use Rattle.ruled_runs.specs.Lines.{all_named, is_named};

use sc_graph::{Role, Variable};
use sc_values::{Name, Value};

// Whether one of these inputs has this name.
fn is_given(inputs: &[(Name, Value)], name: &str) -> bool
    ensures { result ≡ is_some (given inputs.now name.now) }
{
    match inputs.split_first() {
        None => false,
        Some((first, rest)) => first.0.as_str() == name || is_given(rest, name),
    }
}

// Whether a variable is named, where it is an input.
fn is_named(variable: &Variable, inputs: &[(Name, Value)]) -> bool
    ensures { result ≡ is_named inputs.now variable.now }
{
    variable.role != Role::Input || is_given(inputs, variable.name.as_str())
}

/// Whether each input among these variables is named.
pub(crate) fn all_named(variables: &[Variable], inputs: &[(Name, Value)]) -> bool
    ensures { result ≡ all_named variables.now inputs.now }
{
    match variables.split_first() {
        None => true,
        Some((first, rest)) => is_named(first, inputs) && all_named(rest, inputs),
    }
}
