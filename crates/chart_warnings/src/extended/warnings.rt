//! The warnings of a reduced chart that speak of what is the author's, in the numbers of his text.

ghost use Rattle.std.specs.Prelude.{◌≡◌, ◌++◌, IfOk, OnOk};
ghost use Rattle.chart_warnings.specs.Author.{author_warning, author_warnings, forestalled, listed, never_ended};
ghost use Rattle.chart_warnings.specs.Author.{never_left, of_variable, stays_on, unreached, where_is};

use crate::extended::places::region_count;
use crate::extended::states::{around, entered, own};
use crate::{ChartPlaces, Warning};
use sqlite_items::Items;
use std::alloc::{AllocError, Global};

/// The warnings of a reduced chart that speak of what is the author's, in the numbers of his text, where these of its
/// states are his, and his elements have these places. Err: memory was refused.
pub fn author_warnings(
    alloc: Global,
    states: &[Option<u32>],
    places: &ChartPlaces,
    warnings: &[Warning],
) -> Result<Items<Warning>, AllocError>
    ensures { IfOk result (λ all. all ≡ author_warnings states.now places.now warnings.now) }
{
    let mut all = Items::new(alloc);
    for warning in warnings {
        put(states, places, *warning, &mut all)?;
    }
    Ok(all)
}

// Puts a warning behind others, where it speaks of what is the author's.
fn put(
    states: &[Option<u32>],
    places: &ChartPlaces,
    warning: Warning,
    all: &mut Items<Warning>,
) -> Result<(), AllocError>
    ensures { OnOk result (all.new ≡ all.old ++ listed (author_warning states.now places.now warning)) }
{
    match author_warning(states, places, warning) {
        Some(own) => all.push(own),
        None => Ok(()),
    }
}

fn author_warning(states: &[Option<u32>], places: &ChartPlaces, warning: Warning) -> Option<Warning>
    ensures { result ≡ author_warning states.now places.now warning }
{
    match warning {
        Warning::StaysOn {
            state,
            transition,
            output,
        } => stays_on(places, own(states, state), transition, output),
        Warning::Forestalled { state, transition } => forestalled(own(states, state), transition),
        Warning::Unreached { state } => unreached(entered(states, state)),
        Warning::NeverRead { variable } => of_variable(places, variable, warning),
        Warning::NeverSet { variable } => of_variable(places, variable, warning),
        Warning::NeverAsked { input } => of_variable(places, input, warning),
        Warning::NeverEnded {
            state,
            transition,
            region,
        } => never_ended(places, around(states, state), transition, region),
        Warning::NeverLeft { state } => never_left(own(states, state)),
    }
}

// A warning, where it is one.
fn where_is(is_one: bool, warning: Warning) -> Option<Warning>
    ensures { result ≡ where_is is_one warning }
{
    if is_one { Some(warning) } else { None }
}

// Of a variable that is the author's.
fn of_variable(places: &ChartPlaces, variable: usize, warning: Warning) -> Option<Warning>
    ensures { result ≡ of_variable places.now variable warning }
{
    where_is(variable < places.variables.len(), warning)
}

// Of an abort that leaves this state of the author's, where it is a superstate.
fn stays_on(
    places: &ChartPlaces,
    own: Option<usize>,
    transition: usize,
    output: usize,
) -> Option<Warning>
    ensures { result ≡ stays_on places.now own transition output }
{
    match own {
        Some(state) => where_is(
            0 < region_count(places, state),
            Warning::StaysOn {
                state,
                transition,
                output,
            },
        ),
        None => None,
    }
}

fn forestalled(own: Option<usize>, transition: usize) -> Option<Warning>
    ensures { result ≡ forestalled own transition }
{
    match own {
        Some(state) => Some(Warning::Forestalled { state, transition }),
        None => None,
    }
}

fn unreached(own: Option<usize>) -> Option<Warning>
    ensures { result ≡ unreached own }
{
    match own {
        Some(state) => Some(Warning::Unreached { state }),
        None => None,
    }
}

fn never_left(own: Option<usize>) -> Option<Warning>
    ensures { result ≡ never_left own }
{
    match own {
        Some(state) => Some(Warning::NeverLeft { state }),
        None => None,
    }
}

// Of a region of a state of the author's, where it is one of his.
fn never_ended(
    places: &ChartPlaces,
    own: Option<usize>,
    transition: usize,
    region: usize,
) -> Option<Warning>
    ensures { result ≡ never_ended places.now own transition region }
{
    match own {
        Some(state) => where_is(
            region < region_count(places, state),
            Warning::NeverEnded {
                state,
                transition,
                region,
            },
        ),
        None => None,
    }
}
