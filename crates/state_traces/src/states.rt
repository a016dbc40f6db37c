//! The active states of a chart, as a line tells of them.

ghost use Rattle.std.specs.Prelude.{◌≡◌, ◌++◌, ◌∷◌, [], true, false, IfOk, OnOk, map, string_bytes};
ghost use Rattle.json.specs.Print.{quoted};
ghost use Rattle.state_traces.specs.Listed.{list_text, states_text, text_at};

use std::alloc::{AllocError, Global};
use trace_lines::quoted;

/// Texts as JSON writes them.
pub fn quoted_all(alloc: Global, texts: &[String]) -> Result<Vec<String>, AllocError>
    ensures { IfOk result (λ shown. map string_bytes shown.items ≡ map quoted (map string_bytes texts.now)) }
{
    let mut shown = Vec::new(alloc);
    for text in texts {
        shown.push(quoted(alloc, text.as_str())?)?;
    }
    Ok(shown)
}

// Puts the text at this place behind a line.
#[tactic(auto, using(crate::proofs::Listed::text_there, crate::proofs::Listed::text_missing))]
fn put_at(line: &mut Vec<u8>, shown: &[String], place: u32) -> Result<(), AllocError>
    ensures { OnOk result (line.new.items ≡ line.old.items ++ text_at (map string_bytes shown.now) place) }
{
    match shown.get(place as usize) {
        Some(text) => line.extend_from_slice(text.as_bytes()),
        None => line.extend_from_slice(b"\"\""),
    }
}

// Puts a comma and the text at this place behind a line.
fn put_next(line: &mut Vec<u8>, shown: &[String], place: u32) -> Result<(), AllocError>
    ensures { OnOk result (line.new.items ≡ line.old.items ++ 44 ∷ text_at (map string_bytes shown.now) place) }
{
    line.push(b',')?;
    put_at(line, shown, place)
}

// Puts the texts at these places behind a line, each with a comma before it.
fn put_rest(line: &mut Vec<u8>, shown: &[String], places: &[u32]) -> Result<(), AllocError>
    ensures { OnOk result (line.new.items ++ 93 ∷ []
        ≡ line.old.items ++ list_text true (map string_bytes shown.now) places.now) }
{
    for place in places {
        put_next(line, shown, *place)?;
    }
    Ok(())
}

// Puts the texts at these places behind a line, with commas between them.
fn put_all(line: &mut Vec<u8>, shown: &[String], places: &[u32]) -> Result<(), AllocError>
    ensures { OnOk result (line.new.items ++ 93 ∷ []
        ≡ line.old.items ++ list_text false (map string_bytes shown.now) places.now) }
{
    match places.split_first() {
        Some((first, rest)) => {
            put_at(line, shown, *first)?;
            put_rest(line, shown, rest)
        }
        None => Ok(()),
    }
}

/// Puts the member that tells of the states of these numbers behind a line, with a comma before it, and the brace that
/// ends the object. `shown` are the paths of all states, as JSON writes them.
pub fn put_states(line: &mut Vec<u8>, shown: &[String], active: &[u32]) -> Result<(), AllocError>
    ensures { OnOk result (line.new.items ≡ line.old.items ++ states_text (map string_bytes shown.now) active.now) }
{
    line.extend_from_slice(b",\"states\":[")?;
    put_all(line, shown, active)?;
    line.extend_from_slice(b"]}")
}
