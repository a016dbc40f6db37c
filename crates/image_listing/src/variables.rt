//! The lines of variables.

use crate::cells::{put_left, put_number};
use crate::words::{kind_text, role_text};
use sc_graph::Variable;
use std::alloc::{AllocError, Global};

// Puts the line of a variable behind a text: number, role, kind and name.
fn put_variable(
    alloc: Global,
    text: &mut String,
    number: u32,
    variable: &Variable,
) -> Result<(), AllocError> {
    text.push_str("  ")?;
    put_number(alloc, text, 5, number)?;
    text.push_str("  ")?;
    put_left(text, 6, role_text(variable.role))?;
    text.push_str("  ")?;
    put_left(text, 4, kind_text(variable.kind))?;
    text.push_str("  ")?;
    text.push_str(variable.name.as_str())?;
    text.push_str("\n")
}

/// The lines of variables, each with two spaces before it.
pub(crate) fn variables_text(alloc: Global, variables: &[Variable]) -> Result<String, AllocError> {
    let mut text = String::new(alloc);
    let mut number: u32 = 0;
    for variable in variables {
        put_variable(alloc, &mut text, number, variable)?;
        number = number.saturating_add(1);
    }
    Ok(text)
}
