//! The origins of transitions.

ghost use Rattle.std.specs.Prelude.{◌≡◌, ◌++◌, false, slice_get, unwrap_or, IfOk};
ghost use Rattle.node_elements.specs.ExpansionOrigins.{beside, check, chosen, is_chosen, raised, strong_checks, taken};
ghost use Rattle.node_elements.specs.ExpansionOrigins.{weak_checks};
ghost use Rattle.node_elements.specs.declared.expansion.transitions.Choice.TheVariants as choice;

use crate::expansion::around::{Around, Sort};
use crate::expansion::origins::Origins;
use core_charts::{Element, ElementNumbers, Transition, put_effects};
use sqlite_items::Items;
use std::alloc::AllocError;

/// Which transitions of a state are meant.
#[derive(Clone, Copy)]
pub(crate) enum Choice {
    All,
    /// The immediate strong aborts, which are tested where their superstate is entered.
    AtEntry,
    Of(Sort),
}

impl Choice {
    fn has(self, transition: &Transition) -> bool
        ensures { result ≡ is_chosen self transition.now }
    {
        match self {
            Choice::All => true,
            Choice::AtEntry => transition.kind.is_strong() && transition.immediate,
            Choice::Of(sort) => sort.has(transition.kind),
        }
    }
}

/// How a region ends: of each of its states whether it is final, and whether the superstate that holds it counts.
#[derive(Drop)]
pub struct Ends {
    pub finals: Items<bool>,
    pub counts: bool,
}

impl Ends {
    fn is_final(&self, target: u32) -> bool
        ensures { result ≡ unwrap_or (slice_get self.now.finals target) false }
    {
        match self.finals.get(target as usize) {
            Some(is_final) => *is_final,
            None => false,
        }
    }
}

/// Puts those of what looks for this transition behind the others, where there is one.
pub(crate) fn put_check(first: Option<u32>, origins: &mut Origins) -> Result<(), AllocError>
    ensures { IfOk result (λ _. origins.new ≡ beside origins.old (check first)) }
{
    match first {
        Some(number) => origins.put_transition(Element::Transition(number)),
        None => Ok(()),
    }
}

/// Puts those of the checks of strong aborts behind the others.
pub(crate) fn put_strong_checks(around: &[Around], origins: &mut Origins) -> Result<(), AllocError>
    ensures { IfOk result (λ _. origins.new ≡ beside origins.old (strong_checks around.now)) }
{
    for superstate in around {
        put_check(superstate.strong, origins)?;
    }
    Ok(())
}

/// Puts those of the checks of weak aborts behind the others.
pub(crate) fn put_weak_checks(around: &[Around], origins: &mut Origins) -> Result<(), AllocError>
    ensures { IfOk result (λ _. origins.new ≡ beside origins.old (weak_checks around.now)) }
{
    for superstate in around {
        put_check(superstate.weak, origins)?;
    }
    Ok(())
}

/// Puts those of what does as a transition of the text does behind the others.
pub(crate) fn put_taken(
    to: &Ends,
    transition: &Transition,
    at: ElementNumbers,
    origins: &mut Origins,
) -> Result<(), AllocError>
    ensures { IfOk result (λ _. origins.new ≡ beside origins.old (taken to.now transition.now at)) }
{
    origins.put_transition(Element::Transition(at.transition))?;
    put_effects(
        transition.effects.as_slice(),
        at.effect,
        &mut origins.effects,
    )?;
    if to.counts && to.is_final(transition.target) {
        origins.effects.push(Element::Transition(at.transition))?;
    }
    Ok(())
}

/// Puts those of what does as the chosen transitions do behind the others.
pub(crate) fn put_chosen(
    choice: Choice,
    to: &Ends,
    own: &[Transition],
    at: ElementNumbers,
    origins: &mut Origins,
) -> Result<(), AllocError>
    ensures { IfOk result (λ _. origins.new ≡ beside origins.old (chosen choice (taken to.now) own.now at)) }
{
    let mut here = at;
    for transition in own {
        if choice.has(transition) {
            put_taken(to, transition, here, origins)?;
        }
        here = here.behind_transition(transition)?;
    }
    Ok(())
}

// Puts those of what raises the flag of an abort behind the others.
fn put_raised(at: ElementNumbers, origins: &mut Origins) -> Result<(), AllocError>
    ensures { IfOk result (λ _. origins.new ≡ beside origins.old (raised at)) }
{
    origins.put_transition(Element::Transition(at.transition))?;
    origins.effects.push(Element::Transition(at.transition))
}

/// Puts those of what raises the flags of aborts of this sort behind the others.
pub(crate) fn put_all_raised(
    sort: Sort,
    own: &[Transition],
    at: ElementNumbers,
    origins: &mut Origins,
) -> Result<(), AllocError>
    ensures { IfOk result (λ _. origins.new ≡ beside origins.old (chosen (choice.Of sort) (λ t. raised) own.now at)) }
{
    let mut here = at;
    for transition in own {
        if sort.has(transition.kind) {
            put_raised(here, origins)?;
        }
        here = here.behind_transition(transition)?;
    }
    Ok(())
}
