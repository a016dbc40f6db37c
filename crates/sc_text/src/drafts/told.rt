//! Flaws in the order of the text, the first twenty of them.

ghost use Rattle.std.specs.Prelude.{◌≡◌, ◌∷◌, ◌++◌, IfOk, IsTrue, OnOk, List, None, Some, take};
ghost use Rattle.sc_text.specs.declared.drafts.flaw.Flaw.{Flaw};
ghost use Rattle.sc_text.specs.Flaws.{flaw_if};
ghost use Rattle.sc_text.specs.Told.{inserted, told_behind, told_limit, told_of};
ghost use Rattle.sc_text.specs.First.{first_behind};
ghost use Rattle.sc_text.specs.Inside.Drafts.{placed};

use crate::FaultKind;
use crate::drafts::flaw::Flaw;
use sqlite_items::Items;
use std::alloc::{AllocError, Global};

/// How many flaws of a draft are told at most.
pub const TOLD_LIMIT: usize = 20;

/// Where something is broken, puts the flaw at its place among those found so far, of which the first twenty stay. Err:
/// memory was refused; none is asked for where twenty are there and the flaw comes before none of them.
pub fn note_told(
    alloc: Global,
    found: &mut Items<Flaw>,
    is_broken: bool,
    broken: FaultKind,
    at: usize,
) -> Result<(), AllocError>
    ensures { OnOk result (found.new ≡ told_behind found.old (flaw_if is_broken broken at)) }
{
    if !is_broken {
        return Ok(());
    }
    let flaw = Flaw { broken, at };
    if is_past_told(found.as_slice(), flaw) {
        return Ok(());
    }
    *found = noted(alloc, found.as_slice(), flaw)?;
    Ok(())
}

// Whether there are as many flaws as are told, and this one comes before none of them.
fn is_past_told(found: &[Flaw], flaw: Flaw) -> bool
    ensures { IsTrue result → take told_limit (inserted flaw found.now) ≡ found.now }
{
    if found.len() != TOLD_LIMIT {
        return false;
    }
    for other in found {
        if flaw.comes_before(*other) {
            return false;
        }
    }
    true
}

/// Of flaws that are told the first, which is that of all of them. None: there is none.
#[tactic(auto, using(crate::proofs::ToldInOrder::first_is))]
pub fn first_told(told: &[Flaw]) -> Option<Flaw>
    ensures { (flaws : List Flaw) → told.now ≡ told_of flaws → result ≡ first_behind None flaws }
{
    match told {
        [] => None,
        [first, ..] => Some(*first),
    }
}

// Of these flaws and one more the first twenty.
fn noted(alloc: Global, found: &[Flaw], flaw: Flaw) -> Result<Items<Flaw>, AllocError>
    ensures { IfOk result (λ told. told ≡ take told_limit (inserted flaw found.now)) }
{
    let all = inserted(alloc, found, flaw)?;
    first_of(alloc, all.as_slice())
}

fn first_of(alloc: Global, all: &[Flaw]) -> Result<Items<Flaw>, AllocError>
    ensures { IfOk result (λ first. first ≡ take told_limit all.now) }
{
    if all.len() <= TOLD_LIMIT {
        return Items::from_slice(alloc, all);
    }
    Items::from_slice(alloc, &all[..TOLD_LIMIT])
}

// These flaws with one more, at its place.
fn inserted(alloc: Global, found: &[Flaw], flaw: Flaw) -> Result<Items<Flaw>, AllocError>
    ensures { IfOk result (λ all. all ≡ inserted flaw found.now) }
{
    let mut all = Items::new(alloc);
    let mut left = Some(flaw);
    for other in found {
        left = put_next(&mut all, left, *other)?;
    }
    if let Some(flaw) = left {
        all.push(flaw)?;
    }
    Ok(all)
}

// Puts the next of the flaws behind those before it, and before it the one that is left, where its place is there.
fn put_next(
    all: &mut Items<Flaw>,
    left: Option<Flaw>,
    next: Flaw,
) -> Result<Option<Flaw>, AllocError>
    ensures { IfOk result (λ still. (rest : List Flaw)
        → all.new ++ placed still rest ≡ all.old ++ placed left (next ∷ rest)) }
{
    match left {
        Some(flaw) => {
            if flaw.comes_before(next) {
                all.push(flaw)?;
                all.push(next)?;
                return Ok(None);
            }
            all.push(next)?;
            if next.comes_before(flaw) {
                Ok(Some(flaw))
            } else {
                Ok(None)
            }
        }
        None => {
            all.push(next)?;
            Ok(None)
        }
    }
}
