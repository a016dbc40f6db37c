//! The names of tests.

ghost use Rattle.std.specs.Prelude.{◌≡◌, IfOk, OnOk, map, option_map, string_bytes};
ghost use Rattle.controller_tests.specs.Inside.Putting.{PutsNamed};
ghost use Rattle.controller_tests.specs.Naming.{AreNamed, named_by};

use crate::tests_in;
use command_files::Files;
use std::alloc::{AllocError, Global};

// The tests that a word names, of which these are the names in its folder.
fn named_by(
    alloc: Global,
    word: &str,
    names: Option<Vec<String>>,
) -> Result<Vec<String>, AllocError>
    ensures { IfOk result (λ tests. map string_bytes tests.items
        ≡ named_by word.now (option_map (λ names. map string_bytes names.items) names)) }
{
    match names {
        Some(names) => tests_in(alloc, word, &names),
        None => {
            let mut tests = Vec::new(alloc);
            tests.push(String::from_str(alloc, word)?)?;
            Ok(tests)
        }
    }
}

// Puts the tests that words name behind others.
#[tactic(auto, using(crate::proofs::Named::puts_none, crate::proofs::Named::puts_more))]
fn put_named<F: Files>(
    alloc: Global,
    words: &[String],
    files: &mut F,
    tests: &mut Vec<String>,
) -> Result<(), AllocError>
    ensures named { OnOk result (PutsNamed (F.contents files.old) (map string_bytes words.now)
        (map string_bytes tests.old.items) (map string_bytes tests.new.items)) }
    ensures same { F.contents files.new ≡ F.contents files.old }
    ensures none_failed { F.failures files.new ≡ F.failures files.old }
{
    match words.split_first() {
        None => Ok(()),
        Some((word, words)) => {
            let names = files.names_in(alloc, word.as_str())?;
            let mut named = named_by(alloc, word.as_str(), names)?;
            tests.append(&mut named)?;
            put_named(alloc, words, files, tests)
        }
    }
}

/// The names of the tests that words name: of a folder those of its texts beside which there are ticks, in the order of
/// its names; a word that leads to no folder is itself the name of a test.
pub(crate) fn tests_of<F: Files>(
    alloc: Global,
    words: &[String],
    files: &mut F,
) -> Result<Vec<String>, AllocError>
    ensures named { IfOk result (λ tests. AreNamed (F.contents files.old) (map string_bytes words.now)
        (map string_bytes tests.items)) }
    ensures same { F.contents files.new ≡ F.contents files.old }
    ensures none_failed { F.failures files.new ≡ F.failures files.old }
{
    let mut tests = Vec::new(alloc);
    put_named(alloc, words, files, &mut tests)?;
    Ok(tests)
}
