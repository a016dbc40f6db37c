//! An image in JSON.

ghost use Rattle.std.specs.Prelude.{◌≡◌, IfOk, map, option_map, string_bytes};
ghost use Rattle.image_listing.specs.Json.{further, image_json, in_row, quoted, states_json};

use crate::as_json::variables::variables_json;
use bytecode::Image;
use std::alloc::{AllocError, Global};

fn quoted(alloc: Global, path: &str) -> Result<String, AllocError>
    ensures { IfOk result (λ text. string_bytes text ≡ quoted path.now) }
{
    format!(in alloc; "\"{path}\"")
}

// Paths behind the first, each in quotes behind a comma.
fn further_paths(alloc: Global, paths: &[String]) -> Result<String, AllocError>
    ensures { IfOk result (λ text. string_bytes text ≡ further (map quoted (map string_bytes paths.now))) }
{
    let mut text = String::new(alloc);
    for path in paths {
        let item = quoted(alloc, path.as_str())?;
        text.push_str(",")?;
        text.push_str(item.as_str())?;
    }
    Ok(text)
}

// Paths in quotes, with commas between.
fn paths_json(alloc: Global, paths: &[String]) -> Result<String, AllocError>
    ensures { IfOk result (λ text. string_bytes text ≡ in_row (map quoted (map string_bytes paths.now))) }
{
    match paths {
        [] => Ok(String::new(alloc)),
        [first, others @ ..] => {
            let item = quoted(alloc, first.as_str())?;
            let rest = further_paths(alloc, others)?;
            format!(in alloc; "{item}{rest}")
        }
    }
}

fn states_json(alloc: Global, paths: Option<&[String]>) -> Result<String, AllocError>
    ensures { IfOk result (λ text.
        string_bytes text ≡ states_json (option_map (λ ps. map string_bytes ps.now) paths.entry)) }
{
    match paths {
        Some(paths) => {
            let states = paths_json(alloc, paths)?;
            format!(in alloc; ",\"states\":[{states}]")
        }
        None => Ok(String::new(alloc)),
    }
}

/// An image as a line of JSON: its variables in their order, each with its name, kind and role; the paths of the states
/// of its chart, where they are given; and how many nodes and threads it has, and its budget. Err: memory was refused.
pub fn image_json(
    alloc: Global,
    image: &Image,
    paths: Option<&[String]>,
) -> Result<String, AllocError>
    ensures { IfOk result (λ text.
        string_bytes text ≡ image_json (option_map (λ ps. map string_bytes ps.now) paths.entry) image.now) }
{
    let program = image.program();
    let variables = variables_json(alloc, program.variables())?;
    let states = states_json(alloc, paths)?;
    let nodes = program.nodes().len();
    let threads = program.threads().len();
    let budget = image.tables().budget;
    format!(in alloc;
        "{{\"variables\":[{variables}]{states},\"nodes\":{nodes},\"threads\":{threads},\"budget\":{budget}}}\n"
    )
}
