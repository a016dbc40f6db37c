//! What is told of where a session stands: the number of its last tick, and words for people, of which contracts do not
//! speak.

ghost use Rattle.std.specs.Prelude.{◌≡◌, IfOk, string_bytes};
ghost use Rattle.simulation.specs.Commands.{TellsStand, stand_line};
ghost use Rattle.simulation.specs.Tree.{active_text};

use crate::session::Session;
use crate::states::States;
use crate::tree::{put_active, put_tree};
use sc_graph::{Role, Variable};
use sc_values::Value;
use std::alloc::{AllocError, Global};
use tick_core::Control;

// The line of the number of the last tick.
fn stand_line(alloc: Global, ticks: usize) -> Result<String, AllocError>
    ensures { IfOk result (λ text. string_bytes text ≡ stand_line ticks) }
{
    match ticks {
        0 => String::from_str(alloc, "start\n"),
        _ => format!(in alloc; "tick {ticks}\n"),
    }
}

/// The number of the last tick, the variables that it changed, and the states.
#[tactic(auto, using(crate::proofs::Doing::stands))]
pub(crate) fn told<W: States>(
    alloc: Global,
    session: &Session<'_>,
    states: Option<&W>,
) -> Result<Vec<u8>, AllocError>
    ensures { IfOk result (λ told. TellsStand session.now told.items) }
{
    let more = changes_told(alloc, session, states)?;
    let mut told = stand_line(alloc, session.ticks().len())?;
    told.push_str(more.as_str())?;
    Ok(told.into_bytes())
}

// The variables that the last tick changed, and the states.
fn changes_told<W: States>(
    alloc: Global,
    session: &Session<'_>,
    states: Option<&W>,
) -> Result<String, AllocError> {
    let control = session.control();
    let mut text = String::new(alloc);
    put_changes(
        alloc,
        &mut text,
        session.image().image().program().variables(),
        session.before().variables.as_slice(),
        control.variables.as_slice(),
    )?;
    put_states(alloc, &mut text, states, control)?;
    Ok(text)
}

// Puts a line for each variable that is no input and has another value now.
fn put_changes(
    alloc: Global,
    text: &mut String,
    variables: &[Variable],
    before: &[Value],
    now: &[Value],
) -> Result<(), AllocError> {
    for (x, variable) in variables.iter().enumerate() {
        if let Some(value) = changed(variable, before.get(x), now.get(x)) {
            put_value(alloc, text, variable, value)?;
        }
    }
    Ok(())
}

// The value of a variable that is no input, where it has another one now.
fn changed(variable: &Variable, before: Option<&Value>, now: Option<&Value>) -> Option<Value> {
    let now = *now?;
    if variable.role == Role::Input || before.copied() == Some(now) {
        return None;
    }
    Some(now)
}

fn put_value(
    alloc: Global,
    text: &mut String,
    variable: &Variable,
    value: Value,
) -> Result<(), AllocError> {
    let name = variable.name.as_str();
    let line = match value {
        Value::Bool(truth) => format!(in alloc; "  {name} = {truth}\n")?,
        Value::Int(number) => format!(in alloc; "  {name} = {number}\n")?,
    };
    text.push_str(line.as_str())
}

// Puts a line for each state behind a text, with a mark where it is active.
fn put_states<W: States>(
    alloc: Global,
    text: &mut String,
    states: Option<&W>,
    control: &Control,
) -> Result<(), AllocError> {
    match states {
        Some(states) => {
            let active = states.active(alloc, control)?;
            put_tree(text, states.paths(), active.as_slice())
        }
        None => Ok(()),
    }
}

/// A line for each state that is active in a configuration, with its path.
pub fn active_states_told<W: States>(
    alloc: Global,
    states: &W,
    control: &Control,
) -> Result<String, AllocError>
    ensures { IfOk result (λ text. string_bytes text
        ≡ active_text (W.paths states.now) (W.active states.now control.now)) }
{
    let active = states.active(alloc, control)?;
    let mut text = String::new(alloc);
    put_active(&mut text, states.paths(), active.as_slice())?;
    Ok(text)
}
