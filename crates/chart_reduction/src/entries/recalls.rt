//! To which states transitions lead by history, and which variables that needs.

ghost use Rattle.std.specs.Prelude.{◌≡◌, ◌++◌, IfOk, OnOk, length, map};
ghost use Rattle.chart_reduction.specs.Histories.{is_by_history, recalled_by, recalled_among, is_recalled};
ghost use Rattle.chart_reduction.specs.Histories.{asking, keeping, kept_in, kept_among, past_region, past_state};
ghost use Rattle.chart_reduction.specs.Histories.{variable_for, variables_for};

use core_charts::{Transition, next};
use extended_charts::{Declared, ExtendedRegion, ExtendedState, count, has_some, local};
use sc_text::numbered;
use sc_values::Kind;
use sqlite_items::Items;
use std::alloc::{AllocError, Global};

/// A variable that histories need.
#[derive(Clone, Copy)]
pub enum Kept {
    /// Whether the transition of a region that is taken goes by history.
    Asked,
    /// Whether the state of a region was entered by history.
    Entered,
    /// In which of its states a region is.
    Last,
}

/// Whether a transition of a region of so many states goes by history.
pub(crate) fn is_by_history(count: u32, transition: &Transition) -> bool
    ensures { result ≡ is_by_history count transition.now }
{
    !(transition.target < count)
}

// Puts the places to which these go by history.
fn put_recalled_by(
    count: u32,
    transitions: &[Transition],
    made: &mut Items<u32>,
) -> Result<(), AllocError>
    ensures { OnOk result (made.new ≡ made.old ++ recalled_by count transitions.now) }
{
    for transition in transitions {
        if is_by_history(count, transition) {
            made.push(transition.target - count)?;
        }
    }
    Ok(())
}

#[tactic(auto, using(crate::proofs::PastStates::state_transitions))]
fn put_recalled_among(
    count: u32,
    states: &[ExtendedState],
    made: &mut Items<u32>,
) -> Result<(), AllocError>
    ensures { OnOk result (made.new ≡ made.old ++ recalled_among count (map past_state states.now)) }
{
    for state in states {
        put_recalled_by(count, state.transitions.as_slice(), made)?;
    }
    Ok(())
}

/// The places to which transitions of these states go by history, in a region of so many. Err: memory was refused.
pub(crate) fn recalled_among(
    alloc: Global,
    count: u32,
    states: &[ExtendedState],
) -> Result<Items<u32>, AllocError>
    ensures { IfOk result (λ made. made ≡ recalled_among count (map past_state states.now)) }
{
    let mut made = Items::new(alloc);
    match put_recalled_among(count, states, &mut made) {
        Ok(()) => Ok(made),
        Err(error) => {
            drop(made);
            Err(error)
        }
    }
}

/// Whether one goes to this place.
pub(crate) fn is_recalled(place: u32, recalled: &[u32]) -> bool
    ensures { result ≡ is_recalled place recalled.now }
{
    recalled.iter().any(|other| place == *other)
}

// Puts the variables of a region itself, where transitions go to these places by history.
fn put_asking(recalled: &[u32], made: &mut Items<Kept>) -> Result<(), AllocError>
    ensures { OnOk result (made.new ≡ made.old ++ asking recalled.now) }
{
    if !has_some(recalled) {
        return Ok(());
    }
    made.push(Kept::Asked)?;
    made.push(Kept::Entered)
}

/// How many these are.
pub(crate) fn asking_count(recalled: &[u32]) -> u32
    ensures { result ≡ length (asking recalled.now) }
{
    if has_some(recalled) { 2 } else { 0 }
}

// Puts that of a region in a state, where one goes to it by history.
fn put_keeping(is_recalled: bool, made: &mut Items<Kept>) -> Result<(), AllocError>
    ensures { OnOk result (made.new ≡ made.old ++ keeping is_recalled) }
{
    if is_recalled {
        made.push(Kept::Last)
    } else {
        Ok(())
    }
}

/// Puts the variables of these regions and of those in them. Err: memory was refused.
#[cycle(keeping)]
pub(crate) fn put_kept_in(
    alloc: Global,
    is_recalled: bool,
    regions: &[ExtendedRegion],
    made: &mut Items<Kept>,
) -> Result<(), AllocError>
    ensures { OnOk result (made.new ≡ made.old ++ kept_in is_recalled (map past_region regions.now)) }
{
    for region in regions {
        put_keeping(is_recalled, made)?;
        put_region_kept(alloc, region, made)?;
    }
    Ok(())
}

// Puts the variables of a region and of those in it, but the one for where it is.
#[cycle(keeping)]
#[tactic(auto, using(crate::proofs::PastStates::region_kept))]
fn put_region_kept(
    alloc: Global,
    region: &ExtendedRegion,
    made: &mut Items<Kept>,
) -> Result<(), AllocError>
    ensures { OnOk result (made.new ≡ made.old ++ (past_region region.now).kept) }
{
    let states = region.states.as_slice();
    let recalled = recalled_among(alloc, count(states)?, states)?;
    match put_asking(recalled.as_slice(), made) {
        Ok(()) => put_kept_among(alloc, recalled.as_slice(), states, made),
        Err(error) => {
            drop(recalled);
            Err(error)
        }
    }
}

#[cycle(keeping)]
fn put_kept_among(
    alloc: Global,
    recalled: &[u32],
    states: &[ExtendedState],
    made: &mut Items<Kept>,
) -> Result<(), AllocError>
    ensures { OnOk result (made.new ≡ made.old ++ kept_among recalled.now 0 (map past_state states.now)) }
{
    let mut place = 0;
    for state in states {
        put_state_kept(alloc, is_recalled(place, recalled), state, made)?;
        place = next(place)?;
    }
    Ok(())
}

#[cycle(keeping)]
#[tactic(auto, using(crate::proofs::PastStates::state_kept))]
fn put_state_kept(
    alloc: Global,
    is_recalled: bool,
    state: &ExtendedState,
    made: &mut Items<Kept>,
) -> Result<(), AllocError>
    ensures { OnOk result (made.new ≡ made.old ++ (past_state state.now).kept is_recalled) }
{
    put_kept_in(alloc, is_recalled, state.regions.as_slice(), made)
}

/// How many variables a region and those in it have, but the one for where it is. Err: memory was refused.
pub(crate) fn region_count(alloc: Global, region: &ExtendedRegion) -> Result<u32, AllocError>
    ensures { IfOk result (λ count. count ≡ length (past_region region.now).kept) }
{
    let mut kept = Items::new(alloc);
    put_region_kept(alloc, region, &mut kept)?;
    count(kept.as_slice())
}

/// How many variables a state has. Err: memory was refused.
pub(crate) fn state_count(
    alloc: Global,
    is_recalled: bool,
    state: &ExtendedState,
) -> Result<u32, AllocError>
    ensures { IfOk result (λ count. count ≡ length ((past_state state.now).kept is_recalled)) }
{
    let mut kept = Items::new(alloc);
    put_state_kept(alloc, is_recalled, state, &mut kept)?;
    count(kept.as_slice())
}

fn variable_for(number: u32, kept: Kept) -> Declared
    ensures { result ≡ variable_for number kept }
{
    match kept {
        Kept::Asked => local(numbered("asked__", number as u64), Kind::Bool, None),
        Kept::Entered => local(numbered("history__", number as u64), Kind::Bool, None),
        Kept::Last => local(numbered("last__", number as u64), Kind::Int, None),
    }
}

/// Puts these variables, numbered from 1. Err: memory was refused.
pub(crate) fn put_variables(kept: &[Kept], made: &mut Items<Declared>) -> Result<(), AllocError>
    ensures { OnOk result (made.new ≡ made.old ++ variables_for 1 kept.now) }
{
    let mut number = 1;
    for one in kept {
        made.push(variable_for(number, *one))?;
        number = next(number)?;
    }
    Ok(())
}
