//! What is declared where a module is used.

ghost use Rattle.std.specs.Prelude.{◌≡◌, ◌++◌, OnOk, IfOk, map};
ghost use Rattle.std.specs.Option.{option_copied};
ghost use Rattle.extended_reader.specs.Known.{kind_by, is_writing, known_by, known_in, is_output, is_constant};
ghost use Rattle.extended_reader.specs.Known.{known_parameter, known_named};

use crate::modules::parts::{Known, Parameter, ParameterRole};
use crate::modules::words::{is_declaring, is_word};
use sc_text::{Token, TokenKind, Word};
use sc_values::{Kind, Name};
use sqlite_items::Items;
use std::alloc::{AllocError, Global};

fn kind_by(kind: TokenKind) -> Kind
    ensures { result ≡ kind_by kind }
{
    match kind {
        TokenKind::Word(Word::Int) => Kind::Int,
        _ => Kind::Bool,
    }
}

fn is_writing(kind: TokenKind) -> bool
    ensures { result ≡ is_writing kind }
{
    match kind {
        TokenKind::Word(Word::Output) => true,
        TokenKind::Word(Word::Local) => true,
        _ => false,
    }
}

// Puts what is declared by three tokens behind the rest. Err: memory was refused.
fn put_known(
    before: &TokenKind,
    by: &TokenKind,
    kind: TokenKind,
    known: &mut Items<Known>,
) -> Result<(), AllocError>
    ensures { OnOk result (known.new ≡ known.old ++ known_by before.now by.now kind) }
{
    match kind {
        TokenKind::Name(name) if is_declaring(*by) => known.push(Known {
            kind: kind_by(*by),
            is_constant: is_word("const", *before),
            is_assignable: is_writing(*before) || is_word("signal", *by),
            name,
        }),
        _ => Ok(()),
    }
}

/// Puts what is declared in a text behind the rest, where these two tokens stand before it. Err: memory was refused.
pub(crate) fn put_known_in<'a>(
    first: &'a TokenKind,
    text: &'a [Token],
    known: &mut Items<Known>,
) -> Result<(), AllocError>
    ensures { OnOk result (known.new ≡ known.old ++ known_in first.now first.now text.now) }
{
    let mut before = first;
    let mut by = first;
    for token in text {
        put_known(before, by, token.kind, known)?;
        before = by;
        by = &token.kind;
    }
    Ok(())
}

/// Whether a parameter is an output.
pub(crate) fn is_output(role: ParameterRole) -> bool
    ensures { result ≡ is_output role }
{
    match role {
        ParameterRole::Output => true,
        _ => false,
    }
}

/// Whether a parameter is a constant.
pub(crate) fn is_constant(role: ParameterRole) -> bool
    ensures { result ≡ is_constant role }
{
    match role {
        ParameterRole::Constant => true,
        _ => false,
    }
}

/// What parameters are where their module uses others. Err: memory was refused.
pub(crate) fn known_parameters(
    alloc: Global,
    parameters: &[Parameter],
) -> Result<Items<Known>, AllocError>
    ensures { IfOk result (λ known. known ≡ map known_parameter parameters.now) }
{
    let mut known = Items::new(alloc);
    for parameter in parameters {
        known.push(Known {
            kind: parameter.kind,
            is_constant: is_constant(parameter.role),
            is_assignable: is_output(parameter.role),
            name: parameter.named.name,
        })?;
    }
    Ok(known)
}

/// What is declared under a name.
pub(crate) fn known_named(known: &[Known], name: Name) -> Option<Known>
    ensures { result ≡ known_named known.now name }
{
    for one in known {
        if one.name == name {
            return Some(*one);
        }
    }
    None
}
