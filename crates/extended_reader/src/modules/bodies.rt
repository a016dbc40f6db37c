//! Modules, of which the bodies use those before them.

ghost use Rattle.std.specs.Prelude.{◌≡◌, ◌<◌, ◌≤◌, ◌+◌, ◌++◌, [], IfOk, IfSome, MatchResult, Some};
ghost use Rattle.std.specs.Prelude.{length, map, take, drop, suc};
ghost use Rattle.sc_text.specs.Flaws.{is_among};
ghost use Rattle.extended_reader.specs.Answer.{Good, Tells};
ghost use Rattle.extended_reader.specs.Known.{known_in, known_parameter};
ghost use Rattle.extended_reader.specs.Modules.{module_limit, semicolon, is_other, right_parameter, right_parameters};
ghost use Rattle.extended_reader.specs.Modules.{right_head, closing, item_count, module_with, known_of, module_of};
ghost use Rattle.extended_reader.specs.Modules.{closed, next_module};

use crate::modules::fresh::depth_behind;
use crate::modules::heads::opened;
use crate::modules::known::{known_parameters, put_known_in};
use crate::modules::parts::{Known, Module, ModuleHead, Parameter, ParameterRole};
use crate::modules::uses::{Site, module_named, used};
use crate::modules::words::{is_closing, is_region, rest_of};
use chart_reader::text_parts::Ahead;
use sc_text::ahead::behind;
use sc_text::{FaultKind, ReadFault, Sign, Token, TokenKind};
use sc_values::Name;
use sqlite_items::Items;
use std::alloc::{AllocError, Global};

const MODULE_LIMIT: usize = 64;

fn is_other(role: ParameterRole) -> bool
    ensures { result ≡ is_other role }
{
    match role {
        ParameterRole::Other => true,
        _ => false,
    }
}

#[tactic(auto, using(crate::proofs::Among::is_this, crate::proofs::Among::is_other))]
fn is_among(names: &[Name], name: Name) -> bool
    ensures { result ≡ is_among names.now name }
{
    for one in names {
        if *one == name {
            return true;
        }
    }
    false
}

fn right_parameter(before: &[Name], parameter: &Parameter) -> Result<(), ReadFault>
    ensures { MatchResult result (λ _. right_parameter before.now parameter.now ≡ Good tt)
        (Tells (right_parameter before.now parameter.now)) }
{
    if is_other(parameter.role) {
        return Err(ReadFault::Text(FaultKind::Grammar, parameter.at));
    }
    if is_among(before, parameter.named.name) {
        return Err(ReadFault::Text(FaultKind::Repeated, parameter.named.at));
    }
    Ok(())
}

fn right_parameters(alloc: Global, parameters: &[Parameter]) -> Result<(), ReadFault>
    ensures { MatchResult result (λ _. right_parameters [] parameters.now ≡ Good tt)
        (Tells (right_parameters [] parameters.now)) }
{
    let mut before = Items::new(alloc);
    for parameter in parameters {
        right_parameter(before.as_slice(), parameter)?;
        before.push(parameter.named.name)?;
    }
    Ok(())
}

fn right_head(alloc: Global, modules: &[Module], head: &ModuleHead) -> Result<(), ReadFault>
    ensures { MatchResult result (λ _. right_head modules.now head.now ≡ Good tt)
        (Tells (right_head modules.now head.now)) }
{
    if module_named(modules, head.named.name).is_some() {
        return Err(ReadFault::Text(FaultKind::Repeated, head.named.at));
    }
    if modules.len() >= MODULE_LIMIT {
        return Err(ReadFault::Text(FaultKind::Limit, head.named.at));
    }
    right_parameters(alloc, head.parameters.as_slice())
}

// Where the brace stands that closes the text.
fn closing(text: &[Token]) -> Option<usize>
    ensures place { result ≡ closing 0 0 text.now }
    ensures within { IfSome result (λ at. at < length text.now) }
{
    let mut depth = 0;
    for (at, token) in text.iter().enumerate() {
        if is_closing(token.kind) && depth == 0 {
            return Some(at);
        }
        depth = depth_behind(depth, token.kind);
    }
    None
}

fn item_count(text: &[Token]) -> usize
    ensures count { result ≡ item_count text.now }
    ensures within { result ≤ length text.now }
{
    for (at, token) in text.iter().enumerate() {
        if is_region(token.kind) {
            return at;
        }
    }
    text.len()
}

// What is known in the body of a module. Err: memory was refused.
fn known_of(alloc: Global, head: &ModuleHead, body: &[Token]) -> Result<Items<Known>, AllocError>
    ensures { IfOk result (λ known. known ≡ known_of head.now body.now) }
{
    let mut known = known_parameters(alloc, head.parameters.as_slice())?;
    put_known_in(&TokenKind::Sign(Sign::Semicolon), body, &mut known)?;
    Ok(known)
}

fn module_with(
    alloc: Global,
    head: ModuleHead,
    used: Items<Token>,
    regions: Items<Token>,
) -> Result<Module, AllocError>
    ensures { IfOk result (λ one. one ≡ module_with head (used, regions)) }
{
    let text = regions.as_slice();
    let count = item_count(text);
    let mut items = Items::from_slice(alloc, &text[..count])?;
    items.append(used)?;
    let behind = Items::from_slice(alloc, rest_of(text, count))?;
    let ModuleHead { named, parameters } = head;
    Ok(Module {
        named,
        parameters,
        items,
        regions: behind,
    })
}

// The name of a module, in which its uses lie.
fn own_name(head: &ModuleHead) -> Option<Name>
    ensures { result ≡ Some head.now.named.name }
{
    Some(head.named.name)
}

// The module of a head and a body, behind these. Err: what is wrong with a use in it; or memory was refused.
fn module_of(
    alloc: Global,
    end: usize,
    modules: &[Module],
    head: ModuleHead,
    body: &[Token],
) -> Result<Module, ReadFault>
    ensures { MatchResult result (λ one. module_of end modules.now head body.now ≡ Good one)
        (Tells (module_of end modules.now head body.now)) }
{
    let known = known_of(alloc, &head, body)?;
    let own = own_name(&head);
    let site = Site {
        modules,
        known: known.as_slice(),
        own,
    };
    let (items, text) = used(alloc, &site, end, body)?;
    let module = module_with(alloc, head, items, text)?;
    Ok(module)
}

// The module of a head, by the text behind that. It is taken off the front. Err: what is wrong with it; or memory was
// refused.
fn closed(
    alloc: Global,
    end: usize,
    modules: &[Module],
    head: ModuleHead,
    ahead: &mut Ahead,
) -> Result<Module, ReadFault>
    ensures { MatchResult result
        (λ one. closed end modules.now head ahead.old.tokens.now (closing 0 0 ahead.old.tokens.now)
        ≡ Good (one, ahead.new.tokens.now))
        (Tells (closed end modules.now head ahead.old.tokens.now (closing 0 0 ahead.old.tokens.now))) }
{
    let text = ahead.tokens;
    match closing(text) {
        Some(count) => {
            let module = module_of(alloc, end, modules, head, &text[..count])?;
            ahead.tokens = rest_of(text, count + 1);
            Ok(module)
        }
        None => Err(ReadFault::Text(FaultKind::Grammar, end)),
    }
}

/// The module at the front, behind these. It is taken off the front. Err: what is wrong with it; or memory was refused.
#[tactic(auto, using(crate::proofs::Nexts::head_unread, crate::proofs::Nexts::head_wrong, crate::proofs::Nexts::body_wrong, crate::proofs::Nexts::module_read))]
pub(crate) fn next_module(
    alloc: Global,
    end: usize,
    modules: &[Module],
    ahead: &mut Ahead,
) -> Result<Module, ReadFault>
    ensures { MatchResult result
        (λ one. next_module end modules.now ahead.old.tokens.now ≡ Good (one, ahead.new.tokens.now))
        (Tells (next_module end modules.now ahead.old.tokens.now)) }
{
    ahead.tokens = behind(ahead.tokens);
    let head = opened(alloc, ahead, end)?;
    right_head(alloc, modules, &head)?;
    closed(alloc, end, modules, head, ahead)
}
