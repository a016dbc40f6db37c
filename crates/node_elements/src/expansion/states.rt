//! The origins of simple states, and of the states of a superstate without what is inside it.

ghost use Rattle.std.specs.Prelude.{◌≡◌, ◌++◌, IfOk};
ghost use Rattle.node_elements.specs.ExpansionOrigins.{beside, closing, continuation, monitor, monitor_transitions};
ghost use Rattle.node_elements.specs.ExpansionOrigins.{once};
ghost use Rattle.node_elements.specs.ExpansionOrigins.{preparation, resets, simple};

use crate::expansion::around::{Around, Sort, counts, first_of, weak_around};
use crate::expansion::origins::Origins;
use crate::expansion::transitions::{
    Choice, Ends, put_all_raised, put_check, put_chosen, put_strong_checks, put_taken,
    put_weak_checks,
};
use core_charts::{Element, ElementNumbers, Transition, has_strong, has_weak};
use sqlite_items::Items;
use std::alloc::AllocError;

/// Puts those of a simple state behind the others: of itself, of the checks of strong aborts, of its own transitions,
/// and of the checks of weak aborts.
pub(crate) fn put_simple(
    is_final: bool,
    own: &[Transition],
    around: &[Around],
    to: &Ends,
    at: ElementNumbers,
    origins: &mut Origins,
) -> Result<(), AllocError>
    ensures { IfOk result (λ _. origins.new ≡ beside origins.old (simple is_final own.now around.now to.now at)) }
{
    origins.put_state(Element::State(at.state))?;
    if is_final {
        return Ok(());
    }
    put_strong_checks(around, origins)?;
    put_chosen(Choice::All, to, own, at, origins)?;
    put_weak_checks(around, origins)
}

// Puts an element behind others, where it is there.
fn put_once(is_there: bool, from: Element, effects: &mut Items<Element>) -> Result<(), AllocError>
    ensures { IfOk result (λ _. effects.new ≡ effects.old ++ once is_there from) }
{
    if is_there {
        effects.push(from)?;
    }
    Ok(())
}

// Puts the origins of the effects that set the flags and the counter behind others.
fn put_resets(
    own: &[Transition],
    around: &[Around],
    from: Element,
    effects: &mut Items<Element>,
) -> Result<(), AllocError>
    ensures { IfOk result (λ _. effects.new ≡ effects.old ++ resets own.now around.now from) }
{
    put_once(has_strong(own), from, effects)?;
    put_once(has_weak(own), from, effects)?;
    put_once(counts(weak_around(around), own), from, effects)
}

/// Puts those of the preparation state of a superstate behind the others.
pub(crate) fn put_preparation(
    own: &[Transition],
    around: &[Around],
    to: &Ends,
    at: ElementNumbers,
    origins: &mut Origins,
) -> Result<(), AllocError>
    ensures { IfOk result (λ _. origins.new ≡ beside origins.old (preparation own.now around.now to.now at)) }
{
    let from = Element::State(at.state);
    origins.put_state(from)?;
    put_chosen(Choice::AtEntry, to, own, at, origins)?;
    origins.put_transition(from)?;
    put_resets(own, around, from, &mut origins.effects)
}

// Puts those of the transitions of an abort monitor behind the others.
fn put_monitor_transitions(
    own: &[Transition],
    around: &[Around],
    at: ElementNumbers,
    origins: &mut Origins,
) -> Result<(), AllocError>
    ensures { IfOk result (λ _. origins.new ≡ beside origins.old (monitor_transitions own.now around.now at)) }
{
    put_strong_checks(around, origins)?;
    put_all_raised(Sort::Strong, own, at, origins)?;
    put_all_raised(Sort::Weak, own, at, origins)?;
    put_check(first_of(Sort::Join, own, at.transition)?, origins)?;
    put_weak_checks(around, origins)
}

/// Puts those of the abort monitor of a superstate behind the others, where it has a first abort.
pub(crate) fn put_monitor(
    first: Option<u32>,
    own: &[Transition],
    around: &[Around],
    at: ElementNumbers,
    origins: &mut Origins,
) -> Result<(), AllocError>
    ensures { IfOk result (λ _. origins.new ≡ beside origins.old (monitor first own.now around.now at)) }
{
    let Some(number) = first else {
        return Ok(());
    };
    let from = Element::Transition(number);
    origins.put_region(from)?;
    origins.put_state(from)?;
    put_monitor_transitions(own, around, at, origins)?;
    origins.put_state(from)
}

// Puts those of what a continuation state does where no flag is raised behind the others.
fn put_closing(
    own: &[Transition],
    around: &[Around],
    to: &Ends,
    at: ElementNumbers,
    origins: &mut Origins,
) -> Result<(), AllocError>
    ensures { IfOk result (λ _. origins.new ≡ beside origins.old (closing own.now around.now to.now at)) }
{
    let mut here = at;
    for transition in own {
        if transition.kind.is_join() {
            put_taken(to, transition, here, origins)?;
            if weak_around(around) {
                origins.put_transition(Element::State(here.state))?;
            }
            return Ok(());
        }
        here = here.behind_transition(transition)?;
    }
    put_weak_checks(around, origins)
}

/// Puts those of the continuation state of a superstate behind the others.
pub(crate) fn put_continuation(
    own: &[Transition],
    around: &[Around],
    to: &Ends,
    at: ElementNumbers,
    origins: &mut Origins,
) -> Result<(), AllocError>
    ensures { IfOk result (λ _. origins.new ≡ beside origins.old (continuation own.now around.now to.now at)) }
{
    origins.put_state(Element::State(at.state))?;
    put_strong_checks(around, origins)?;
    put_chosen(Choice::Of(Sort::Strong), to, own, at, origins)?;
    put_chosen(Choice::Of(Sort::Weak), to, own, at, origins)?;
    put_closing(own, around, to, at, origins)
}
