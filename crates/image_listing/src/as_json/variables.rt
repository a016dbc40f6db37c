//! The variables of an image in JSON.

ghost use Rattle.std.specs.Prelude.{◌≡◌, IfOk, map, string_bytes};
ghost use Rattle.image_listing.specs.Json.{further, in_row, variable_json};

use crate::{kind_text, role_text};
use sc_graph::Variable;
use std::alloc::{AllocError, Global};

fn variable_json(alloc: Global, variable: &Variable) -> Result<String, AllocError>
    ensures { IfOk result (λ text. string_bytes text ≡ variable_json variable.now) }
{
    let name = variable.name;
    let kind = kind_text(variable.kind);
    let role = role_text(variable.role);
    format!(in alloc; "{{\"name\":\"{name}\",\"kind\":\"{kind}\",\"role\":\"{role}\"}}")
}

// Variables behind the first, each behind a comma.
fn further_variables(alloc: Global, variables: &[Variable]) -> Result<String, AllocError>
    ensures { IfOk result (λ text. string_bytes text ≡ further (map variable_json variables.now)) }
{
    let mut text = String::new(alloc);
    for variable in variables {
        let item = variable_json(alloc, variable)?;
        text.push_str(",")?;
        text.push_str(item.as_str())?;
    }
    Ok(text)
}

/// These variables, with commas between. Err: memory was refused.
pub(crate) fn variables_json(alloc: Global, variables: &[Variable]) -> Result<String, AllocError>
    ensures { IfOk result (λ text. string_bytes text ≡ in_row (map variable_json variables.now)) }
{
    match variables {
        [] => Ok(String::new(alloc)),
        [first, others @ ..] => {
            let item = variable_json(alloc, first)?;
            let rest = further_variables(alloc, others)?;
            format!(in alloc; "{item}{rest}")
        }
    }
}
