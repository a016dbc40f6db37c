//! The names that a use gives to what a module declares, and to its regions.

ghost use Rattle.std.specs.Prelude.{◌≡◌, ◌<◌, ◌++◌, ◌-◌, ◌^◌, [], IfOk, IsTrue, MatchResult};
ghost use Rattle.std.specs.Prelude.{OnOk, SomeIff, false, suc, if◌then◌else◌};
ghost use Rattle.sc_values.specs.Name.{is_name};
ghost use Rattle.extended_reader.specs.Answer.{Good, Tells};
ghost use Rattle.extended_reader.specs.Uses.{names_in, own_names, depth_behind, is_titled, region_names, joined_name};
ghost use Rattle.extended_reader.specs.Uses.{fresh_one, all_fresh};

use crate::modules::parts::Replacement;
use crate::modules::words::{is_declaring, is_region};
use arrayvec::ArrayString;
use sc_text::{FaultKind, Named, ReadFault, Sign, Token, TokenKind};
use sc_values::{NAME_LIMIT, Name};
use sqlite_items::Items;
use std::alloc::{AllocError, Global};

// Puts the name that a token is behind the rest, where it is one and is asked for. Err: memory was refused.
fn put_name(is_asked: bool, kind: TokenKind, names: &mut Items<Name>) -> Result<(), AllocError>
    ensures { OnOk result (names.new ≡ names.old ++ (if is_asked then names_in kind else [])) }
{
    match kind {
        TokenKind::Name(name) if is_asked => names.push(name),
        _ => Ok(()),
    }
}

/// The names that items declare. Err: memory was refused.
pub(crate) fn own_names(
    alloc: Global,
    first: TokenKind,
    items: &[Token],
) -> Result<Items<Name>, AllocError>
    ensures { IfOk result (λ names. names ≡ own_names first items.now) }
{
    let mut names = Items::new(alloc);
    let mut by = first;
    for token in items {
        put_name(is_declaring(by), token.kind, &mut names)?;
        by = token.kind;
    }
    Ok(names)
}

/// How many braces are open behind a token.
pub(crate) fn depth_behind(depth: usize, kind: TokenKind) -> usize
    requires { suc depth < 2 ^ 64 }
    ensures { result ≡ depth_behind depth kind }
{
    match kind {
        TokenKind::Sign(Sign::OpenBrace) => depth + 1,
        TokenKind::Sign(Sign::CloseBrace) => depth.saturating_sub(1),
        _ => depth,
    }
}

/// Whether the name of a region of a module itself stands behind a word.
pub(crate) fn is_titled(is_behind: bool, depth: usize) -> bool
    ensures { result ≡ is_titled is_behind depth }
{
    is_behind && depth == 0
}

/// The names of regions. Err: memory was refused.
pub(crate) fn region_names(alloc: Global, regions: &[Token]) -> Result<Items<Name>, AllocError>
    ensures { IfOk result (λ names. names ≡ region_names false 0 regions.now) }
{
    let mut names = Items::new(alloc);
    let mut is_behind = false;
    let mut depth = 0;
    for token in regions {
        put_name(is_titled(is_behind, depth), token.kind, &mut names)?;
        is_behind = is_region(token.kind);
        depth = depth_behind(depth, token.kind);
    }
    Ok(names)
}

// The name of a use, `_` and a name. None: it is too long.
#[tactic(auto, using(crate::proofs::LongNames::too_long))]
fn joined_name(usage: &Name, name: &Name) -> Option<Name>
    ensures { SomeIff result (IsTrue (is_name (joined_name usage.now name.now))) (joined_name usage.now name.now) }
{
    let first = usage.as_str();
    let second = name.as_str();
    if first.len() + 1 + second.len() > NAME_LIMIT {
        return None;
    }
    let mut text = ArrayString::<NAME_LIMIT>::new();
    text.push_str(first);
    text.push_str("_");
    text.push_str(second);
    Name::of(text.as_str())
}

/// The names of a use in place of these. Err: its own is too long; or memory was refused.
#[tactic(auto, using(crate::proofs::FreshNames::named, crate::proofs::FreshNames::unnamed))]
pub(crate) fn all_fresh(
    alloc: Global,
    usage: &Named,
    names: &[Name],
) -> Result<Items<Replacement>, ReadFault>
    ensures { MatchResult result (λ all. all_fresh usage.now names.now ≡ Good all)
        (Tells (all_fresh usage.now names.now)) }
{
    let mut all = Items::new(alloc);
    for name in names {
        match joined_name(&usage.name, name) {
            Some(fresh) => all.push(Replacement {
                name: *name,
                by: TokenKind::Name(fresh),
            })?,
            None => return Err(ReadFault::Text(FaultKind::Limit, usage.at)),
        }
    }
    Ok(all)
}
