//! The texts of faults, and of the names of files in them.

ghost use Rattle.std.specs.Prelude.{◌≡◌, IfOk, string_bytes};
ghost use Rattle.command_files.specs.FaultText.{shown_byte, shown_name};

use crate::fault::LoadFault;
use std::alloc::{AllocError, Global};
use std::error::Error;
use std::fmt;

impl fmt::Display for LoadFault {
    ghost use Rattle.std.specs.Prelude.{Some};
    ghost use Rattle.command_files.specs.FaultText.{fault_text};

    ghost output = { λ fault. Some (fault_text fault) };

    fn fmt<W: fmt::Write>(&self, f: &mut fmt::Formatter<W>) -> fmt::Result {
        match self {
            LoadFault::Memory => write!(f, "E52"),
            LoadFault::Image(fault) => write!(f, "{fault}"),
            LoadFault::Rule(refusal) => write!(f, "{refusal}"),
            LoadFault::Text(fault) => write!(f, "{fault}"),
            LoadFault::Program(fault) => write!(f, "{fault}"),
            LoadFault::File(shown) => write!(f, "E64 {shown}"),
            LoadFault::Source(shown) => write!(f, "E65 {shown}"),
        }
    }
}

impl Error for LoadFault {}

// A character of a name as it is shown.
fn shown_char(letter: char) -> char
    ensures { result ≡ shown_byte letter }
{
    if letter.is_ascii_control() {
        '?'
    } else {
        letter
    }
}

/// The name of a file as a fault shows it, on one line: each control character is shown as `?`.
pub fn shown_name(alloc: Global, name: &str) -> Result<String, AllocError>
    ensures { IfOk result (λ shown. string_bytes shown ≡ shown_name name.now) }
{
    let mut shown = String::new(alloc);
    for letter in name.chars() {
        shown.push(shown_char(letter))?;
    }
    Ok(shown)
}
