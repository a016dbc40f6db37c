//! Texts without their modules.

ghost use Rattle.std.specs.Prelude.{◌≡◌, ◌≤◌, ◌++◌, [], IfOk, MatchResult, false, length, take, drop};
ghost use Rattle.extended_reader.specs.Answer.{Good, Tells};
ghost use Rattle.extended_reader.specs.Known.{known_in};
ghost use Rattle.extended_reader.specs.Modules.{semicolon, all_modules, module_place, put_together, plain_text};

use crate::modules::bodies::next_module;
use crate::modules::known::put_known_in;
use crate::modules::parts::{Known, Module};
use crate::modules::uses::{Site, used};
use crate::modules::well::well_text;
use crate::modules::words::{begins, follows, is_end, is_region, rest_of};
use chart_reader::text_parts::Ahead;
use sc_text::{ReadFault, Sign, Token, TokenKind};
use sqlite_items::Items;
use std::alloc::{AllocError, Global};

// The modules at the front. They are taken off it. Err: what is wrong with the first wrong one; or memory was refused.
fn all_modules(alloc: Global, end: usize, ahead: &mut Ahead) -> Result<Items<Module>, ReadFault>
    ensures { MatchResult result
        (λ modules. all_modules end (length ahead.old.tokens.now) [] ahead.old.tokens.now
        ≡ Good (modules, ahead.new.tokens.now))
        (Tells (all_modules end (length ahead.old.tokens.now) [] ahead.old.tokens.now)) }
{
    let mut modules = Items::new(alloc);
    let most = ahead.tokens.len();
    for count in 0..most {
        if !begins("module", ahead.tokens) {
            return Ok(modules);
        }
        let module = next_module(alloc, end, modules.as_slice(), ahead)?;
        modules.push(module)?;
    }
    Ok(modules)
}

// How many tokens stand before the first module, or in a text with none before its regions.
fn module_place(text: &[Token]) -> usize
    ensures place { result ≡ module_place false text.now }
    ensures within { result ≤ length text.now }
{
    let mut may_begin = false;
    let mut left = text;
    for at in 0..text.len() {
        if follows(may_begin, "module", left) {
            return at;
        }
        match left {
            [next, behind @ ..] if !is_region(next.kind) => {
                may_begin = is_end(next.kind);
                left = behind;
            }
            _ => return text.len(),
        }
    }
    text.len()
}

// What is known in a chart, by what stands before its modules. Err: memory was refused.
fn known_before(alloc: Global, front: &[Token]) -> Result<Items<Known>, AllocError>
    ensures { IfOk result (λ known. known ≡ known_in semicolon semicolon front.now) }
{
    let mut known = Items::new(alloc);
    put_known_in(&TokenKind::Sign(Sign::Semicolon), front, &mut known)?;
    Ok(known)
}

// The text of what stands before the modules, and of what stands from there on. Err: what is wrong with a module or a
// use; or memory was refused.
fn put_together(
    alloc: Global,
    end: usize,
    front: &[Token],
    text: &[Token],
) -> Result<Items<Token>, ReadFault>
    ensures { MatchResult result (λ plain. put_together end front.now text.now ≡ Good plain)
        (Tells (put_together end front.now text.now)) }
{
    let mut ahead = Ahead { tokens: text };
    let modules = all_modules(alloc, end, &mut ahead)?;
    let known = known_before(alloc, front)?;
    let site = Site {
        modules: modules.as_slice(),
        known: known.as_slice(),
        own: None,
    };
    let (items, regions) = used(alloc, &site, end, ahead.tokens)?;
    let mut plain = Items::from_slice(alloc, front)?;
    plain.append(items)?;
    plain.append(regions)?;
    well_text(plain, end)
}

/// The tokens of a text of so many bytes without its modules: each use stands for the items and the regions of its
/// module. Err: what is wrong with the first module, or the first use, in which something is wrong; or memory was
/// refused.
#[tactic(auto, using(crate::proofs::ModulesInOrder::stays, crate::proofs::ModulesInOrder::put_good, crate::proofs::ModulesInOrder::put_wrong))]
pub fn without_modules(
    alloc: Global,
    text: Items<Token>,
    end: usize,
) -> Result<Items<Token>, ReadFault>
    ensures { MatchResult result (λ plain. plain_text end text ≡ Good plain) (Tells (plain_text end text)) }
{
    let tokens = text.as_slice();
    let place = module_place(tokens);
    if place == tokens.len() {
        return Ok(text);
    }
    put_together(alloc, end, &tokens[..place], rest_of(tokens, place))
}
