//! The origins of transitions and their effects.

ghost use Rattle.std.specs.Prelude.{◌≡◌, ◌++◌, IfOk, OnOk, length};
ghost use Rattle.node_sources.specs.Origins.{behind_transition, behind_transitions, effect_origin, effects_from};
ghost use Rattle.node_sources.specs.Origins.{made_before, made_behind, own_in, row_of, transition_origin};

use crate::extended::text_places::author::{Author, EffectRow};
use crate::extended::text_places::origins::{AuthorOrigin, AuthorOrigins};
use core_charts::{Effect, Element, Transition};
use sqlite_items::{Items, at};
use std::alloc::AllocError;

/// The number of the author's at this place of a row, if there is one.
pub(crate) fn own_in(row: &[Option<u32>], number: usize) -> Option<u32>
    ensures { result ≡ own_in row.now number }
{
    match at(row, number) {
        Some(own) => *own,
        None => None,
    }
}

// The effects of a transition of this number of the author's; of none where it is made.
fn row_of(rows: &[EffectRow], own: Option<u32>) -> EffectRow
    ensures { result ≡ row_of rows.now own }
{
    let none = EffectRow { first: 0, count: 0 };
    match own {
        Some(number) => match at(rows, number as usize) {
            Some(row) => *row,
            None => none,
        },
        None => none,
    }
}

// How many of the last effects set variables that are made.
fn made_behind(variables: usize, effects: &[Effect]) -> usize
    ensures { result ≡ made_behind variables 0 effects.now }
{
    let mut made = 0;
    for effect in effects {
        if (effect.variable as usize) < variables {
            made = 0;
        } else {
            made += 1;
        }
    }
    made
}

// How many effects stand before those of the author's.
fn made_before(variables: usize, row: EffectRow, effects: &[Effect]) -> usize
    ensures { result ≡ made_before variables row effects.now }
{
    let made = made_behind(variables, effects);
    effects.len().saturating_sub(made).saturating_sub(row.count)
}

// The origin of the effect of this place. Err: no memory holds a chart with so many.
fn effect_origin(
    from: Element,
    row: EffectRow,
    before: usize,
    place: usize,
) -> Result<AuthorOrigin, AllocError>
    ensures { IfOk result (λ origin. origin ≡ effect_origin from row before place) }
{
    if place < before {
        return Ok(AuthorOrigin::made_for(from));
    }
    let own = place - before;
    if own < row.count {
        let Ok(own) = u32::try_from(own) else {
            return Err(AllocError);
        };
        let Some(number) = row.first.checked_add(own) else {
            return Err(AllocError);
        };
        Ok(AuthorOrigin::own(Element::Effect(number)))
    } else {
        Ok(AuthorOrigin::made_for(from))
    }
}

// Puts the origins of effects behind others, where so many stand before those of the author's.
fn put_effects(
    from: Element,
    row: EffectRow,
    before: usize,
    effects: &[Effect],
    origins: &mut Items<AuthorOrigin>,
) -> Result<(), AllocError>
    ensures { OnOk result (origins.new ≡ origins.old ++ effects_from from row before 0 effects.now) }
{
    for (place, _) in effects.iter().enumerate() {
        origins.push(effect_origin(from, row, before, place)?)?;
    }
    Ok(())
}

fn transition_origin(from: Element, own: Option<u32>) -> AuthorOrigin
    ensures { result ≡ transition_origin from own }
{
    match own {
        Some(number) => AuthorOrigin::own(Element::Transition(number)),
        None => AuthorOrigin::made_for(from),
    }
}

// Puts the origins of a transition of a state, and of its effects, behind the others.
fn put_transition(
    author: &Author,
    from: Element,
    transition: &Transition,
    own: Option<u32>,
    origins: &mut AuthorOrigins,
) -> Result<(), AllocError>
    ensures { OnOk result (origins.new ≡ behind_transition author.now from transition.now own origins.old) }
{
    let origin = transition_origin(from, own);
    let row = row_of(author.effects.as_slice(), own);
    let effects = transition.effects.as_slice();
    let before = made_before(author.variables, row, effects);
    origins.transitions.push(origin)?;
    put_effects(origin.from, row, before, effects, &mut origins.effects)
}

/// Puts the origins of the transitions of a state behind the others. Err: memory was refused.
pub(crate) fn put_transitions(
    author: &Author,
    from: Element,
    transitions: &[Transition],
    origins: &mut AuthorOrigins,
) -> Result<(), AllocError>
    ensures { OnOk result (origins.new ≡ behind_transitions author.now from transitions.now origins.old) }
{
    for transition in transitions {
        let own = own_in(
            author.rows.transitions.as_slice(),
            origins.transitions.len(),
        );
        put_transition(author, from, transition, own, origins)?;
    }
    Ok(())
}
