//! What the inputs of a tick give to each variable.

ghost use Rattle.std.specs.Prelude.{◌≡◌, ◌↔◌, ◌<◌, ℕ, IfOk, IsTrue, Some, None, length, slice_get, slice_set};
ghost use Rattle.std.specs.Bool.{OnTrue};
ghost use Rattle.sc_graph.specs.Tick.{AreAccepted};
ghost use Rattle.tick_core.specs.Space.Given.{HasOwnNames, Gives, IsGiven};

use crate::guesses::Guesses;
use sc_graph::Program;
use sc_values::{Name, Value};
use std::alloc::{AllocError, Global};
use std::marker::Model;

/// What the inputs of a tick give: for each variable the value that is given to its name, where there is one.
/// It is made once for the ticks of an image. Contracts see the row of the values.
#[derive(Drop)]
pub(crate) struct Given {
    guesses: Guesses,
    values: Vec<Option<Value>>,
}

impl Model for Given {
    ghost use Rattle.std.specs.Prelude.{List, Option};
    ghost use Rattle.sc_values.specs.declared.value.Value.{Value as GivenValue};

    ghost Value = { List (Option GivenValue) };

    ghost view = { λ g. g.values.items };
}

impl Given {
    /// TickSpace for what is given to the variables of a program.
    pub(crate) fn of(alloc: Global, program: &Program) -> Result<Given, AllocError>
        ensures { IfOk result (λ g. length g ≡ length program.now.variables) }
    {
        let variables = program.variables();
        let guesses = Guesses::of(alloc, variables)?;
        let values = vec![in alloc; None; variables.len()]?;
        Ok(Given { guesses, values })
    }

    /// Takes the inputs of a tick. Whether they are accepted.
    pub(crate) fn take(&mut self, program: &Program, inputs: &[(Name, Value)]) -> bool
        requires names { HasOwnNames program.now.variables }
        requires places { length self.old ≡ length program.now.variables }
        ensures accepted { IsTrue result ↔ AreAccepted program.now inputs.now }
        ensures given { OnTrue result (Gives program.now.variables inputs.now self.new) }
        ensures places { length self.new ≡ length self.old }
    {
        give_nothing(&mut self.values);
        take_all(&self.guesses, program, inputs, &mut self.values)
    }

    /// The value for each variable, where one is given.
    pub(crate) fn values(&self) -> &[Option<Value>]
        ensures { result.now ≡ self.now }
    {
        self.values.as_slice()
    }
}

fn give_nothing(values: &mut Vec<Option<Value>>)
    ensures length { length values.new.items ≡ length values.old.items }
    ensures none { (x : ℕ) → x < length values.old.items → slice_get values.new.items x ≡ Some None }
{
    for value in values.iter_mut() {
        *value = None;
    }
}

// Gives each input to its variable, as long as they are accepted. Whether all are.
fn take_all(
    guesses: &Guesses,
    program: &Program,
    inputs: &[(Name, Value)],
    values: &mut Vec<Option<Value>>,
) -> bool
    requires names { HasOwnNames program.now.variables }
    requires places { length values.old.items ≡ length program.now.variables }
    requires none { (x : ℕ) → x < length program.now.variables → slice_get values.old.items x ≡ Some None }
    ensures accepted { IsTrue result ↔ AreAccepted program.now inputs.now }
    ensures given { OnTrue result (Gives program.now.variables inputs.now values.new.items) }
    ensures places { length values.new.items ≡ length values.old.items }
{
    let variables = program.variables();
    for at in 0..inputs.len() {
        let input = &inputs[at];
        let Some(place) = guesses.place_of(variables, input, at) else {
            return false;
        };
        if is_given(values, place) {
            return false;
        }
        give(values, place, input.1);
    }
    true
}

// Whether a value was given to the variable at this place.
fn is_given(values: &[Option<Value>], place: usize) -> bool
    ensures { IsTrue result ↔ IsGiven values.now place }
{
    match values.get(place) {
        Some(Some(_)) => true,
        Some(None) | None => false,
    }
}

fn give(values: &mut Vec<Option<Value>>, place: usize, value: Value)
    ensures { values.new.items ≡ slice_set values.old.items place (Some value) }
{
    if place < values.len() {
        values[place] = Some(value);
    }
}
