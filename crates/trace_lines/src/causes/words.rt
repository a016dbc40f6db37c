//! Why a line gives no inputs, in words.

ghost use Rattle.std.specs.Prelude.{◌≡◌, IfOk, string_bytes};
ghost use Rattle.trace_lines.specs.Words.{cause_words, kind_words, met_words, value_words, whole_words};

use crate::causes::cause::{Cause, Met};
use crate::quoted;
use sc_values::Kind;
use std::alloc::{AllocError, Global};

fn kind_words(kind: Kind) -> &'static str
    ensures { result.now ≡ kind_words kind }
{
    match kind {
        Kind::Bool => "true or false",
        Kind::Int => "a whole number from -2147483648 to 2147483647",
    }
}

// What a whole number is that an input of this kind does not take.
fn whole_words(kind: Kind) -> &'static str
    ensures { result.now ≡ whole_words kind }
{
    match kind {
        Kind::Bool => "a number",
        Kind::Int => "a number beyond",
    }
}

fn met_words(kind: Kind, met: Met) -> &'static str
    ensures { result.now ≡ met_words kind met }
{
    match met {
        Met::Null => "null",
        Met::Truth(true) => "true",
        Met::Truth(false) => "false",
        Met::Whole => whole_words(kind),
        Met::Fraction => "a number with a fraction or an exponent",
        Met::Text => "a text",
        Met::List => "a list",
        Met::Object => "an object",
    }
}

// What an input of this name and kind takes, and what this value is.
fn value_words(alloc: Global, name: &str, kind: Kind, met: Met) -> Result<String, AllocError>
    ensures { IfOk result (λ words. string_bytes words ≡ value_words name.now kind met) }
{
    let wanted = kind_words(kind);
    let is = met_words(kind, met);
    format!(in alloc; "{name} takes {wanted}, and this is {is}")
}

/// What is said of why a line gives no inputs. Err: memory was refused.
pub fn cause_words(alloc: Global, cause: &Cause) -> Result<String, AllocError>
    ensures { IfOk result (λ words. string_bytes words ≡ cause_words cause.now) }
{
    match cause {
        Cause::TooLong => String::from_str(alloc, "longer than 65,536 bytes"),
        Cause::NoObject => String::from_str(alloc, "not a JSON object"),
        Cause::NoInput(name) => {
            let name = quoted(alloc, name.as_str())?;
            format!(in alloc; "no input {name}")
        }
        Cause::Missing(name) => {
            let name = quoted(alloc, name.as_str())?;
            format!(in alloc; "no value for input {name}")
        }
        Cause::NoValue(name, kind, met) => value_words(alloc, name.as_str(), *kind, *met),
    }
}
