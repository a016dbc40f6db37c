//! The warnings of what is written in a file.

ghost use Rattle.std.specs.Prelude.{◌≡◌, IfOk, string_bytes};
ghost use Rattle.std.specs.Str.{IsUtf8};
ghost use Rattle.command_files.specs.FaultText.{shown_name};
ghost use Rattle.sct_command.specs.Beside.{AreWarnings};
ghost use Rattle.sct_command.specs.Warned.{IsWarned};

use chart_texts::begins_extended;
use chart_warnings::{author_warnings_told, warnings_told};
use command_files::shown_name;
use std::alloc::{AllocError, Global};
use std::str;

// These bytes as text.
fn text_in(bytes: &[u8]) -> &str
    requires { IsUtf8 bytes.now }
    ensures { result.now ≡ bytes.now }
{
    match str::from_utf8(bytes) {
        Ok(text) => text,
        Err(_) => "",
    }
}

// The warnings of this text, which is shown under this name.
fn warnings_shown(alloc: Global, shown: &str, written: &str) -> Result<String, AllocError>
    ensures { IfOk result (λ told. IsWarned shown.now written.now (string_bytes told)) }
{
    if begins_extended(written.as_bytes()) {
        author_warnings_told(alloc, shown, written)
    } else {
        warnings_told(alloc, shown, written)
    }
}

/// The warnings of what is written in the file of this name, which is text. Err: memory was refused.
pub(crate) fn warnings_in(alloc: Global, name: &str, written: &[u8]) -> Result<String, AllocError>
    requires { IsUtf8 written.now }
    ensures { IfOk result (λ told. IsWarned (shown_name name.now) written.now (string_bytes told)) }
{
    let shown = shown_name(alloc, name)?;
    warnings_shown(alloc, shown.as_str(), text_in(written))
}

/// The same where they are wanted, and else nothing.
pub(crate) fn warnings_wanted(
    alloc: Global,
    name: &str,
    written: &[u8],
    warns: bool,
) -> Result<String, AllocError>
    requires { IsUtf8 written.now }
    ensures { IfOk result (λ told. AreWarnings name.now written.now warns (string_bytes told)) }
{
    if warns {
        warnings_in(alloc, name, written)
    } else {
        Ok(String::new(alloc))
    }
}
