//! The lines of the variables and constants of an extended chart.

use extended_charts::{Constant, Declared, ExtendedChart};
use sc_graph::{Role, VariableId};
use sc_values::Value;
use scl_printer::{kind_prefix, role_prefix};
use std::alloc::{AllocError, Global};

// Puts a value behind a text.
fn put_value(text: &mut String, value: Value) -> Result<(), AllocError> {
    match value {
        Value::Bool(true) => text.push_str("true"),
        Value::Bool(false) => text.push_str("false"),
        Value::Int(number) => write!(text, "{number}"),
    }
}

// The words before the name of a signal.
fn signal_words(role: Role) -> &'static str {
    match role {
        Role::Output => "output signal ",
        Role::Input | Role::Local => "signal ",
    }
}

// Puts the line of a signal behind a text.
fn put_signal(text: &mut String, declared: &Declared) -> Result<(), AllocError> {
    text.push_str(signal_words(declared.variable.role))?;
    text.push_str(declared.variable.name.as_str())?;
    text.push_str("\\l")
}

// Puts the line of a variable behind a text, with what it holds before the first tick where that is told.
fn put_variable(text: &mut String, declared: &Declared) -> Result<(), AllocError> {
    text.push_str(role_prefix(declared.variable.role))?;
    text.push_str(kind_prefix(declared.variable.kind))?;
    text.push_str(declared.variable.name.as_str())?;
    if let Some(value) = declared.initial {
        text.push_str(" = ")?;
        put_value(text, value)?;
    }
    text.push_str("\\l")
}

// Puts the line of a constant behind a text.
fn put_constant(text: &mut String, constant: &Constant) -> Result<(), AllocError> {
    text.push_str("const ")?;
    text.push_str(kind_prefix(constant.value.kind()))?;
    text.push_str(constant.name.as_str())?;
    text.push_str(" = ")?;
    put_value(text, constant.value)?;
    text.push_str("\\l")
}

fn is_among(signals: &[VariableId], variable: usize) -> bool {
    signals.iter().any(|other| variable == *other as usize)
}

// Puts the lines of variables behind a text.
fn put_variables(
    text: &mut String,
    signals: &[VariableId],
    variables: &[Declared],
) -> Result<(), AllocError> {
    for (number, declared) in variables.iter().enumerate() {
        if is_among(signals, number) {
            put_signal(text, declared)?;
        } else {
            put_variable(text, declared)?;
        }
    }
    Ok(())
}

/// The lines of the variables, signals and constants of an extended chart. Err: memory was refused.
pub(crate) fn variable_lines(alloc: Global, chart: &ExtendedChart) -> Result<String, AllocError> {
    let mut lines = String::new(alloc);
    let signals = chart.signals.as_slice();
    put_variables(&mut lines, signals, chart.variables.as_slice())?;
    for constant in chart.constants.as_slice() {
        put_constant(&mut lines, constant)?;
    }
    Ok(lines)
}
