//! A line as it is shown.

ghost use Rattle.std.specs.Prelude.{◌≡◌, IfOk, map, option_map, string_bytes};
ghost use Rattle.controller_tests.specs.Told.{shown_byte, shown_line};

use std::alloc::{AllocError, Global};

// A byte as it is shown.
fn shown_byte(byte: u8) -> u8
    ensures { result ≡ shown_byte byte }
{
    if byte.is_ascii_control() { b'?' } else { byte }
}

// The bytes of a line as they are shown.
fn shown_bytes(alloc: Global, line: &[u8]) -> Result<Vec<u8>, AllocError>
    ensures { IfOk result (λ shown. shown.items ≡ map shown_byte line.now) }
{
    let mut shown = Vec::new(alloc);
    for byte in line {
        shown.push(shown_byte(*byte))?;
    }
    Ok(shown)
}

/// A line as it is shown, or that there is none.
pub(crate) fn shown_line(alloc: Global, line: Option<&[u8]>) -> Result<String, AllocError>
    ensures { IfOk result (λ shown. string_bytes shown ≡ shown_line (option_map (λ bytes. bytes.now) line.entry)) }
{
    match line {
        Some(line) => {
            let shown = shown_bytes(alloc, line)?;
            String::from_utf8_lossy(alloc, &shown)
        }
        None => String::from_str(alloc, "no line"),
    }
}
