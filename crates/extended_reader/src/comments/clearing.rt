//! Block comments become white space.

ghost use Rattle.std.specs.Prelude.{◌≡◌, IfOk, string_bytes};
ghost use Rattle.extended_reader.specs.Comments.{blank, is_closed, opened, opens, shown, without_comments};
ghost use Rattle.extended_reader.specs.declared.comments.part.Part.TheVariants as part;

use crate::comments::part::Part;
use std::alloc::{AllocError, Global};

/// The text with each byte of its block comments as a space, but for the ends of lines in them. Of a comment that is
/// not closed the first byte is one with which nothing begins in a text. Err: memory was refused.
pub fn without_comments(alloc: Global, text: &str) -> Result<String, AllocError>
    ensures { IfOk result (λ cleared. string_bytes cleared ≡ without_comments text.now) }
{
    let bytes = cleared(alloc, text.as_bytes())?;
    match String::from_utf8(bytes) {
        Ok(cleared) => Ok(cleared),
        Err(_) => unreachable!(),
    }
}

fn cleared(alloc: Global, text: &[u8]) -> Result<Vec<u8>, AllocError>
    ensures { IfOk result (λ cleared. cleared.items ≡ without_comments text.now) }
{
    let mut cleared = Vec::with_capacity(alloc, text.len())?;
    let mut part = Part::Plain;
    for (i, byte) in text.iter().enumerate() {
        cleared.push(shown(part, *byte, &text[i + 1..]))?;
        part = part.behind(*byte);
    }
    Ok(cleared)
}

// What becomes of a byte that is part of this, with these behind it.
fn shown(part: Part, byte: u8, rest: &[u8]) -> u8
    ensures { result ≡ shown part byte rest.now }
{
    match part {
        Part::Plain if opens(byte, rest) => opened(rest),
        Part::BehindSlash if byte == b'*' => b' ',
        Part::Plain | Part::BehindSlash | Part::Line => byte,
        Part::Block | Part::BehindStar => blank(byte),
    }
}

fn opens(byte: u8, rest: &[u8]) -> bool
    ensures { result ≡ opens byte rest.now }
{
    match rest {
        [next, ..] => byte == b'/' && *next == b'*',
        [] => false,
    }
}

// The first byte of a block comment with these behind it.
fn opened(rest: &[u8]) -> u8
    ensures { result ≡ opened rest.now }
{
    if is_closed(rest) { b' ' } else { 0 }
}

// Whether a comment is closed behind its first byte.
fn is_closed(rest: &[u8]) -> bool
    ensures { result ≡ is_closed part.BehindSlash rest.now }
{
    let mut part = Part::BehindSlash;
    for byte in rest {
        if part.ends(*byte) {
            return true;
        }
        part = part.behind(*byte);
    }
    false
}

fn blank(byte: u8) -> u8
    ensures { result ≡ blank byte }
{
    if byte == b'\n' { byte } else { b' ' }
}
