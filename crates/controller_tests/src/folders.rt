//! The tests in a folder.

ghost use Rattle.std.specs.Prelude.{◌≡◌, IfOk, map, string_bytes};
ghost use Rattle.std.specs.List.{list_any};
ghost use Rattle.std.specs.Str.{bytes_eq};
ghost use Rattle.controller_tests.specs.Names.{is_test, is_text, tests_in};

use crate::names::{beside, in_folder, is_text};
use std::alloc::{AllocError, Global};

// Whether a file of this name stands among these.
fn is_among(name: &str, names: &[String]) -> bool
    ensures { result ≡ list_any (λ other. bytes_eq name.now (string_bytes other)) names.now }
{
    names.iter().any(|other| name == other.as_str())
}

// Whether this is the name of a text, beside which there are ticks.
fn is_test(alloc: Global, name: &str, names: &[String]) -> Result<bool, AllocError>
    ensures { IfOk result (λ is. is ≡ is_test (map string_bytes names.now) name.now) }
{
    if !is_text(name) {
        return Ok(false);
    }
    let ticks = beside(alloc, name, ".ticks")?;
    Ok(is_among(ticks.as_str(), names))
}

/// The names of the texts in a folder beside which there are ticks, in the order in which the folder's names are given.
#[tactic(auto, using(crate::proofs::Listed::is_one, crate::proofs::Listed::is_none))]
pub fn tests_in(alloc: Global, folder: &str, names: &[String]) -> Result<Vec<String>, AllocError>
    ensures { IfOk result (λ tests. map string_bytes tests.items ≡ tests_in folder.now (map string_bytes names.now)) }
{
    let mut tests = Vec::new(alloc);
    for name in names {
        if is_test(alloc, name.as_str(), names)? {
            tests.push(in_folder(alloc, folder, name.as_str())?)?;
        }
    }
    Ok(tests)
}
