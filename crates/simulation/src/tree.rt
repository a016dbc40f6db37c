//! The states of a chart, as they are shown.

ghost use Rattle.std.specs.Prelude.{◌≡◌, ◌==◌, ◌++◌, ◌∷◌, [], OnOk, get_or, map, string_bytes};
ghost use Rattle.std.specs.List.{list_any};
ghost use Rattle.simulation.specs.Tree.{active_text, mark, state_line, tree_text};

use crate::cutting::cut;
use std::alloc::AllocError;

// Whether this number is among these.
fn is_among(number: usize, numbers: &[u32]) -> bool
    ensures { result ≡ list_any (λ other. other == number) numbers.now }
{
    numbers.iter().any(|other| *other as usize == number)
}

// How a state begins.
fn mark(is_active: bool) -> &'static str
    ensures { result.now ≡ mark is_active }
{
    if is_active { "  * " } else { "    " }
}

// Puts the name of a state behind a text.
fn put_own(text: &mut String, own: &str, is_active: bool) -> Result<(), AllocError>
    ensures { OnOk result (string_bytes text.new ≡ string_bytes text.old ++ (mark is_active ++ (own.now ++ 10 ∷ []))) }
{
    text.push_str(mark(is_active))?;
    text.push_str(own)?;
    text.push_str("\n")
}

// Puts the line of a state behind a text.
#[tactic(auto, using(crate::proofs::Shown::one_slash, crate::proofs::Shown::no_slash, crate::proofs::Split::shorter))]
fn put_state(text: &mut String, path: &str, is_active: bool) -> Result<(), AllocError>
    ensures { OnOk result (string_bytes text.new ≡ string_bytes text.old ++ state_line is_active path.now) }
{
    let mut rest = path;
    loop {
        match cut(rest, '/') {
            Some((_, inner)) => {
                text.push_str("    ")?;
                rest = inner;
            }
            None => return put_own(text, rest, is_active),
        }
    }
}

/// Puts a line for each state of these paths behind a text, of which those of these numbers are active.
pub(crate) fn put_tree(
    text: &mut String,
    paths: &[String],
    active: &[u32],
) -> Result<(), AllocError>
    ensures { OnOk result (string_bytes text.new
        ≡ string_bytes text.old ++ tree_text (map string_bytes paths.now) active.now) }
{
    for (number, path) in paths.iter().enumerate() {
        put_state(text, path.as_str(), is_among(number, active))?;
    }
    Ok(())
}

// Puts the path of this number behind a text.
#[tactic(auto, using(crate::proofs::Shown::path_there, crate::proofs::Shown::path_missing))]
fn put_path(text: &mut String, paths: &[String], number: u32) -> Result<(), AllocError>
    ensures { OnOk result (string_bytes text.new
        ≡ string_bytes text.old ++ get_or (map string_bytes paths.now) number []) }
{
    match paths.get(number as usize) {
        Some(path) => text.push_str(path.as_str()),
        None => Ok(()),
    }
}

// Puts the line of the state of this number behind a text.
fn put_one(text: &mut String, paths: &[String], number: u32) -> Result<(), AllocError>
    ensures { OnOk result (string_bytes text.new
        ≡ string_bytes text.old ++ active_text (map string_bytes paths.now) (number ∷ [])) }
{
    text.push_str("  in ")?;
    put_path(text, paths, number)?;
    text.push_str("\n")
}

/// Puts a line for each state of these numbers behind a text.
pub(crate) fn put_active(
    text: &mut String,
    paths: &[String],
    active: &[u32],
) -> Result<(), AllocError>
    ensures { OnOk result (string_bytes text.new
        ≡ string_bytes text.old ++ active_text (map string_bytes paths.now) active.now) }
{
    for number in active {
        put_one(text, paths, *number)?;
    }
    Ok(())
}
