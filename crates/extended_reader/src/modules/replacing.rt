//! Tokens with some names replaced.

ghost use Rattle.std.specs.Prelude.{◌≡◌, IfOk, false, map};
ghost use Rattle.extended_reader.specs.Uses.{bound, in_place_of, replaced, renamed_token, renamed_regions};

use crate::modules::fresh::{depth_behind, is_titled};
use crate::modules::parts::{Parameter, Replacement};
use crate::modules::words::is_region;
use sc_text::{Token, TokenKind};
use sc_values::Name;
use sqlite_items::Items;
use std::alloc::{AllocError, Global};

/// The parameters, and the arguments in place of them. Err: memory was refused.
pub(crate) fn bound(
    alloc: Global,
    parameters: &[Parameter],
    arguments: &[Token],
) -> Result<Items<Replacement>, AllocError>
    ensures { IfOk result (λ table. table ≡ bound parameters.now arguments.now) }
{
    let mut table = Items::new(alloc);
    let mut left = arguments;
    for parameter in parameters {
        match left {
            [argument, behind @ ..] => {
                table.push(Replacement {
                    name: parameter.named.name,
                    by: argument.kind,
                })?;
                left = behind;
            }
            [] => return Ok(table),
        }
    }
    Ok(table)
}

fn in_place_of(table: &[Replacement], name: Name) -> TokenKind
    ensures { result ≡ in_place_of table.now name }
{
    for one in table {
        if one.name == name {
            return one.by;
        }
    }
    TokenKind::Name(name)
}

fn replaced(table: &[Replacement], kind: TokenKind) -> TokenKind
    ensures { result ≡ replaced table.now kind }
{
    match kind {
        TokenKind::Name(name) => in_place_of(table, name),
        _ => kind,
    }
}

fn renamed_token(table: &[Replacement], token: &Token) -> Token
    ensures { result ≡ renamed_token table.now token.now }
{
    Token {
        kind: replaced(table, token.kind),
        at: token.at,
    }
}

/// Items with these names replaced. Err: memory was refused.
pub(crate) fn renamed_items(
    alloc: Global,
    table: &[Replacement],
    items: &[Token],
) -> Result<Items<Token>, AllocError>
    ensures { IfOk result (λ all. all ≡ map (renamed_token table.now) items.now) }
{
    let mut all = Items::new(alloc);
    for token in items {
        all.push(renamed_token(table, token))?;
    }
    Ok(all)
}

/// Regions with these names replaced, and their own by `titles`. Err: memory was refused.
pub(crate) fn renamed_regions(
    alloc: Global,
    names: &[Replacement],
    titles: &[Replacement],
    regions: &[Token],
) -> Result<Items<Token>, AllocError>
    ensures { IfOk result (λ all. all ≡ renamed_regions names.now titles.now false 0 regions.now) }
{
    let mut all = Items::new(alloc);
    let mut is_behind = false;
    let mut depth = 0;
    for token in regions {
        let table = if is_titled(is_behind, depth) {
            titles
        } else {
            names
        };
        all.push(renamed_token(table, token))?;
        is_behind = is_region(token.kind);
        depth = depth_behind(depth, token.kind);
    }
    Ok(all)
}
