//! What a use stands for, and a text of which all uses stand for that.

ghost use Rattle.std.specs.Prelude.{◌≡◌, ◌≤◌, ◌↔◌, ◌+◌, ◌&&◌, IfOk, IsTrue, MatchResult, OnOk};
ghost use Rattle.std.specs.Prelude.{true, false, codes, length, nat_le};
ghost use Rattle.std.specs.Option.{option_copied};
ghost use Rattle.extended_reader.specs.Answer.{Good, Tells};
ghost use Rattle.extended_reader.specs.Uses.{own_names, region_names, all_fresh};
ghost use Rattle.extended_reader.specs.Uses.{made_limit, made_with, made_of, module_named, checked, made_if, is_own};
ghost use Rattle.extended_reader.specs.Uses.{stands_for, next_use, used};
ghost use Rattle.extended_reader.specs.Words.{begins};
ghost use Rattle.extended_reader.specs.Inside.Modules.{gone, IsRound, IsTokenRound, IsStop};

use crate::modules::arguments::fitting;
use crate::modules::fresh::{all_fresh, own_names, region_names};
use crate::modules::parts::{Known, Module, ModuleUse, Replacement};
use crate::modules::phrases::using;
use crate::modules::replacing::{bound, renamed_items, renamed_regions};
use crate::modules::words::{follows, is_end, is_word};
use chart_reader::text_parts::Ahead;
use sc_text::ahead::behind;
use sc_text::{FaultKind, Named, ReadFault, Sign, Token, TokenKind};
use sc_values::Name;
use sqlite_items::Items;
use std::alloc::{AllocError, Global};

const MADE_LIMIT: usize = 65_536;

/// Where uses stand: behind these modules, where these names are declared, in this module or in none.
#[derive(Drop)]
pub(crate) struct Site<'a> {
    pub(crate) modules: &'a [Module],
    pub(crate) known: &'a [Known],
    pub(crate) own: Option<Name>,
}

fn made_with(
    alloc: Global,
    origin: &Module,
    names: &[Replacement],
    titles: &[Replacement],
) -> Result<(Items<Token>, Items<Token>), AllocError>
    ensures { IfOk result (λ made. made ≡ made_with origin.now names.now titles.now) }
{
    let items = renamed_items(alloc, names, origin.items.as_slice())?;
    let regions = renamed_regions(alloc, names, titles, origin.regions.as_slice())?;
    Ok((items, regions))
}

// The names of a use for what its module declares. Err: one is too long; or memory was refused.
fn own_of(alloc: Global, usage: &Named, items: &[Token]) -> Result<Items<Replacement>, ReadFault>
    ensures { MatchResult result
        (λ all. all_fresh usage.now (own_names (TokenKind.Sign Sign.Semicolon) items.now) ≡ Good all)
        (Tells (all_fresh usage.now (own_names (TokenKind.Sign Sign.Semicolon) items.now))) }
{
    let names = own_names(alloc, TokenKind::Sign(Sign::Semicolon), items)?;
    all_fresh(alloc, usage, names.as_slice())
}

// The names of a use for the regions of its module. Err: one is too long; or memory was refused.
fn titles_of(
    alloc: Global,
    usage: &Named,
    regions: &[Token],
) -> Result<Items<Replacement>, ReadFault>
    ensures { MatchResult result
        (λ all. all_fresh usage.now (region_names false 0 regions.now) ≡ Good all)
        (Tells (all_fresh usage.now (region_names false 0 regions.now))) }
{
    let names = region_names(alloc, regions)?;
    all_fresh(alloc, usage, names.as_slice())
}

// What a use of a module is made into. Err: its name is too long; or memory was refused.
fn made_of(
    alloc: Global,
    usage: &ModuleUse,
    origin: &Module,
) -> Result<(Items<Token>, Items<Token>), ReadFault>
    ensures { MatchResult result (λ made. made_of usage.now origin.now ≡ Good made)
        (Tells (made_of usage.now origin.now)) }
{
    let own = own_of(alloc, &usage.named, origin.items.as_slice())?;
    let titles = titles_of(alloc, &usage.named, origin.regions.as_slice())?;
    let parameters = origin.parameters.as_slice();
    let mut names = bound(alloc, parameters, usage.arguments.as_slice())?;
    names.append(own)?;
    let made = made_with(alloc, origin, names.as_slice(), titles.as_slice())?;
    Ok(made)
}

/// The module of a name.
pub(crate) fn module_named(modules: &[Module], name: Name) -> Option<&Module>
    ensures { option_copied result ≡ module_named modules.now name }
{
    for one in modules {
        if one.named.name == name {
            return Some(one);
        }
    }
    None
}

fn checked(known: &[Known], usage: &ModuleUse, origin: &Module) -> Result<(), ReadFault>
    ensures { MatchResult result (λ _. checked known.now usage.now origin.now ≡ Good tt)
        (Tells (checked known.now usage.now origin.now)) }
{
    if origin.parameters.len() != usage.arguments.len() {
        return Err(ReadFault::Text(FaultKind::Rule, usage.called.at));
    }
    let parameters = origin.parameters.as_slice();
    fitting(known, parameters, usage.arguments.as_slice())
}

fn made_if(
    alloc: Global,
    known: &[Known],
    usage: &ModuleUse,
    origin: Option<&Module>,
) -> Result<(Items<Token>, Items<Token>), ReadFault>
    ensures { MatchResult result (λ made. made_if known.now usage.now (option_copied origin.entry) ≡ Good made)
        (Tells (made_if known.now usage.now (option_copied origin.entry))) }
{
    match origin {
        Some(origin) => {
            checked(known, usage, origin)?;
            made_of(alloc, usage, origin)
        }
        None => Err(ReadFault::Text(FaultKind::Unknown, usage.called.at)),
    }
}

fn is_own(own: Option<Name>, name: Name) -> bool
    ensures { result ≡ is_own own name }
{
    match own {
        Some(own) => own == name,
        None => false,
    }
}

// What a use stands for. Err: what is wrong with it; or memory was refused.
fn stands_for(
    alloc: Global,
    site: &Site,
    usage: &ModuleUse,
) -> Result<(Items<Token>, Items<Token>), ReadFault>
    ensures { MatchResult result
        (λ made. stands_for site.now.modules.now site.now.known.now site.now.own usage.now ≡ Good made)
        (Tells (stands_for site.now.modules.now site.now.known.now site.now.own usage.now)) }
{
    if !is_word("as", TokenKind::Name(usage.word.name)) {
        return Err(ReadFault::Text(FaultKind::Grammar, usage.word.at));
    }
    if is_own(site.own, usage.called.name) {
        return Err(ReadFault::Text(FaultKind::Rule, usage.called.at));
    }
    let origin = module_named(site.modules, usage.called.name);
    made_if(alloc, site.known, usage, origin)
}

// What the use at the front stands for, behind so many tokens that uses made. It is taken off the front. Err: what is
// wrong with it; or memory was refused.
#[tactic(auto, using(crate::proofs::Nexts::use_unread, crate::proofs::Nexts::use_wrong, crate::proofs::Nexts::use_large, crate::proofs::Nexts::use_made))]
fn next_use(
    alloc: Global,
    site: &Site,
    end: usize,
    made: usize,
    ahead: &mut Ahead,
) -> Result<(Items<Token>, Items<Token>), ReadFault>
    requires { made ≤ made_limit }
    ensures room { IfOk result (λ x. made + (length x.0 + length x.1) ≤ made_limit) }
    ensures made { MatchResult result
        (λ x. next_use (stands_for site.now.modules.now site.now.known.now site.now.own) end made
        ahead.old.tokens.now ≡ Good (x, ahead.new.tokens.now))
        (Tells (next_use (stands_for site.now.modules.now site.now.known.now site.now.own) end made
        ahead.old.tokens.now)) }
{
    ahead.tokens = behind(ahead.tokens);
    let usage = using(alloc, ahead, end)?;
    let (items, regions) = stands_for(alloc, site, &usage)?;
    if !has_room(made, items.len(), regions.len()) {
        return Err(ReadFault::Text(FaultKind::Limit, usage.called.at));
    }
    Ok((items, regions))
}

// Whether so many more tokens may be made.
fn has_room(made: usize, first: usize, second: usize) -> bool
    requires { made ≤ made_limit }
    ensures test { result ≡ nat_le (made + (first + second)) made_limit }
    ensures room { IsTrue result ↔ (made + (first + second) ≤ made_limit) }
{
    let left = MADE_LIMIT - made;
    first <= left && second <= left - first
}

/// A text that is gone over: the items that its uses make, the text with regions in place of uses, what is left,
/// whether a use may begin there, and how many tokens were made.
#[derive(Drop)]
struct Walk<'a> {
    items: Items<Token>,
    out: Items<Token>,
    left: &'a [Token],
    may_begin: bool,
    made: usize,
}

// Goes over the use that is next.
fn pass_use(alloc: Global, site: &Site, end: usize, walk: &mut Walk) -> Result<(), ReadFault>
    requires few { walk.old.made ≤ made_limit }
    requires begun { (walk.old.may_begin && begins (codes "use") walk.old.left.now) ≡ true }
    ensures few { OnOk result (walk.new.made ≤ made_limit) }
    ensures goes { MatchResult result
        (λ _. IsRound (stands_for site.now.modules.now site.now.known.now site.now.own) end
        (gone walk.old.items walk.old.out walk.old.left.now walk.old.may_begin walk.old.made)
        (gone walk.new.items walk.new.out walk.new.left.now walk.new.may_begin walk.new.made))
        (IsStop (stands_for site.now.modules.now site.now.known.now site.now.own) end
        (gone walk.old.items walk.old.out walk.old.left.now walk.old.may_begin walk.old.made)) }
{
    let mut ahead = Ahead { tokens: walk.left };
    let (items, regions) = next_use(alloc, site, end, walk.made, &mut ahead)?;
    walk.made += items.len() + regions.len();
    walk.items.append(items)?;
    walk.out.append(regions)?;
    walk.left = ahead.tokens;
    walk.may_begin = true;
    Ok(())
}

// Goes over the token that is next, where there is one. Err: memory was refused.
#[tactic(auto, using(crate::proofs::UsesInOrder::token_round, crate::proofs::UsesInOrder::none_round))]
fn pass_token(walk: &mut Walk) -> Result<(), AllocError>
    requires other { (walk.old.may_begin && begins (codes "use") walk.old.left.now) ≡ false }
    ensures made { OnOk result (walk.new.made ≡ walk.old.made) }
    ensures goes { OnOk result (IsTokenRound
        (gone walk.old.items walk.old.out walk.old.left.now walk.old.may_begin walk.old.made)
        (gone walk.new.items walk.new.out walk.new.left.now walk.new.may_begin walk.new.made)) }
{
    match walk.left {
        [] => Ok(()),
        [next, behind @ ..] => {
            walk.out.push(*next)?;
            walk.may_begin = is_end(next.kind);
            walk.left = behind;
            Ok(())
        }
    }
}

// Goes over what is next: a use, or a token.
#[tactic(auto, using(crate::proofs::UsesInOrder::for_site, crate::proofs::UsesInOrder::memory_stops))]
fn pass(alloc: Global, site: &Site, end: usize, walk: &mut Walk) -> Result<(), ReadFault>
    requires few { walk.old.made ≤ made_limit }
    ensures few { OnOk result (walk.new.made ≤ made_limit) }
    ensures goes { MatchResult result
        (λ _. IsRound (stands_for site.now.modules.now site.now.known.now site.now.own) end
        (gone walk.old.items walk.old.out walk.old.left.now walk.old.may_begin walk.old.made)
        (gone walk.new.items walk.new.out walk.new.left.now walk.new.may_begin walk.new.made))
        (IsStop (stands_for site.now.modules.now site.now.known.now site.now.own) end
        (gone walk.old.items walk.old.out walk.old.left.now walk.old.may_begin walk.old.made)) }
{
    if follows(walk.may_begin, "use", walk.left) {
        return pass_use(alloc, site, end, walk);
    }
    pass_token(walk)?;
    Ok(())
}

/// The items that the uses in a text stand for, and the text with regions in place of uses, where one may begin at its
/// front. Err: what is wrong with the first that stands for nothing; or memory was refused.
#[tactic(auto, using(crate::proofs::UsesInOrder::first_round, crate::proofs::UsesInOrder::next_round, crate::proofs::UsesInOrder::last_round, crate::proofs::UsesInOrder::stopped))]
pub(crate) fn used(
    alloc: Global,
    site: &Site,
    end: usize,
    text: &[Token],
) -> Result<(Items<Token>, Items<Token>), ReadFault>
    ensures { MatchResult result
        (λ made. used (stands_for site.now.modules.now site.now.known.now site.now.own) end (length text.now) 0 true
        text.now ≡ Good made)
        (Tells (used (stands_for site.now.modules.now site.now.known.now site.now.own) end (length text.now) 0 true
        text.now)) }
{
    let mut walk = Walk {
        items: Items::new(alloc),
        out: Items::new(alloc),
        left: text,
        may_begin: true,
        made: 0,
    };
    let most = text.len();
    for count in 0..most {
        pass(alloc, site, end, &mut walk)?;
    }
    let Walk { items, out, .. } = walk;
    Ok((items, out))
}
