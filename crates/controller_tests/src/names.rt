//! The names of the files beside a program's text.

ghost use Rattle.std.specs.Prelude.{◌≡◌, IfOk, option_map, string_bytes};
ghost use Rattle.controller_tests.specs.Names.{beside, front, in_folder, is_text, stem, without};

use std::alloc::{AllocError, Global};

// A name without this ending. None: it does not end so.
#[tactic(auto, using(crate::proofs::Stem::without_is))]
fn without<'a>(ending: &str, name: &'a str) -> Option<&'a str>
    ensures { option_map (λ front. front.now) result ≡ without ending.now name.now }
{
    name.strip_suffix(ending)
}

// The name of a file of text without its ending. None: it does not end so.
fn front(name: &str) -> Option<&str>
    ensures { option_map (λ text. text.now) result ≡ front name.now }
{
    match without(".chart", name) {
        Some(front) => Some(front),
        None => match without(".extended", name) {
            Some(front) => Some(front),
            None => without(".scl", name),
        },
    }
}

// The name of a file of text, without its ending.
fn stem(name: &str) -> &str
    ensures { result.now ≡ stem name.now }
{
    front(name).unwrap_or(name)
}

/// Whether a name ends as that of a chart, of an extended chart or of an SCL text.
pub(crate) fn is_text(name: &str) -> bool
    ensures { result ≡ is_text name.now }
{
    front(name).is_some()
}

/// The name of the file beside the one of this name: the name without its ending `.chart`, `.extended` or `.scl`, or
/// else the whole name, with this ending.
pub fn beside(alloc: Global, name: &str, ending: &str) -> Result<String, AllocError>
    ensures { IfOk result (λ other. string_bytes other ≡ beside name.now ending.now) }
{
    let stem = stem(name);
    format!(in alloc; "{stem}{ending}")
}

/// The name of a file in a folder: behind the name of the folder and one slash.
pub(crate) fn in_folder(alloc: Global, folder: &str, name: &str) -> Result<String, AllocError>
    ensures { IfOk result (λ path. string_bytes path ≡ in_folder folder.now name.now) }
{
    let front = without("/", folder).unwrap_or(folder);
    format!(in alloc; "{front}/{name}")
}
