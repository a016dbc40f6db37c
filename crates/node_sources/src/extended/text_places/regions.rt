//! The origins of the elements of a reduced chart: one walk over it, in the order of their numbers.

ghost use Rattle.std.specs.Prelude.{◌≡◌, IfOk, OnOk, false, length, map};
ghost use Rattle.node_sources.specs.Origins.{all_regions, all_states, author_origins, behind_region, behind_state};
ghost use Rattle.node_sources.specs.Origins.{is_doubled, made_from, of_region, of_state, state_origin, state_or};

use crate::extended::text_places::author::Author;
use crate::extended::text_places::effects::{own_in, put_transitions};
use crate::extended::text_places::origins::{AuthorOrigin, AuthorOrigins};
use core_charts::{Chart, Element, Region, State, Transition};
use std::alloc::{AllocError, Global};

// Whether two underscores stand side by side in a name: those of regions that are made have such.
fn is_doubled(bytes: &[u8]) -> bool
    ensures { result ≡ is_doubled false bytes.now }
{
    let mut before = false;
    for byte in bytes {
        let is_underscore = *byte == b'_';
        if before && is_underscore {
            return true;
        }
        before = is_underscore;
    }
    false
}

fn state_or(from: Element, own: Option<u32>) -> Element
    ensures { result ≡ state_or from own }
{
    match own {
        Some(number) => Element::State(number),
        None => from,
    }
}

// What a state of this number is made for, before another one of its region or not. Err: no memory holds a chart with
// so many.
fn made_from(
    author: &Author,
    around: Element,
    before: bool,
    number: usize,
) -> Result<Element, AllocError>
    ensures { IfOk result (λ from. from ≡ made_from author.now around before number) }
{
    if !before {
        return Ok(around);
    }
    let Some(behind) = number.checked_add(1) else {
        return Err(AllocError);
    };
    let own = own_in(author.rows.states.as_slice(), behind);
    Ok(state_or(around, own))
}

fn state_origin(from: Element, own: Option<u32>) -> AuthorOrigin
    ensures { result ≡ state_origin from own }
{
    match own {
        Some(number) => AuthorOrigin::own(Element::State(number)),
        None => AuthorOrigin::made_for(from),
    }
}

/// For each element of a reduced chart the element of the author's from which it comes. Err: memory was refused.
pub fn author_origins(
    alloc: Global,
    author: &Author,
    chart: &Chart,
) -> Result<AuthorOrigins, AllocError>
    ensures { IfOk result (λ origins. origins ≡ author_origins author.now chart.now) }
{
    let mut origins = AuthorOrigins::none(alloc);
    put_regions(author, chart.regions(), Element::Chart, &mut origins)?;
    Ok(origins)
}

// Puts those of regions in this element, with all that is in them, behind the others.
#[cycle(chart)]
fn put_regions(
    author: &Author,
    regions: &[Region],
    around: Element,
    origins: &mut AuthorOrigins,
) -> Result<(), AllocError>
    ensures { OnOk result (origins.new ≡ all_regions (map (of_region author.now) regions.now) around origins.old) }
{
    for region in regions {
        put_region(author, region, around, origins)?;
    }
    Ok(())
}

#[cycle(chart)]
#[tactic(auto, using(crate::proofs::ExtendedParts::region_is))]
fn put_region(
    author: &Author,
    region: &Region,
    around: Element,
    origins: &mut AuthorOrigins,
) -> Result<(), AllocError>
    ensures { OnOk result (origins.new ≡ of_region author.now region.now around origins.old) }
{
    let is_made = is_doubled(region.name.as_bytes());
    put_region_over(author, is_made, region.states.as_slice(), around, origins)
}

// Puts those of a region of these states, which is made or not, behind the others.
#[cycle(chart)]
#[tactic(auto, using(crate::proofs::ExtendedParts::as_many))]
fn put_region_over(
    author: &Author,
    is_made: bool,
    states: &[State],
    around: Element,
    origins: &mut AuthorOrigins,
) -> Result<(), AllocError>
    ensures { OnOk result (origins.new
        ≡ behind_region is_made (map (of_state author.now) states.now) around origins.old) }
{
    if is_made {
        origins.put_made_region(around)?;
        put_states(author, states, around, origins)
    } else {
        let own = Element::Region(origins.own_regions);
        origins.put_own_region()?;
        put_states(author, states, own, origins)
    }
}

// Puts those of the states of a region, with all that is in them, behind the others.
#[cycle(chart)]
fn put_states(
    author: &Author,
    states: &[State],
    around: Element,
    origins: &mut AuthorOrigins,
) -> Result<(), AllocError>
    ensures { OnOk result (origins.new
        ≡ all_states (length states.now) 0 (map (of_state author.now) states.now) around origins.old) }
{
    for (place, state) in states.iter().enumerate() {
        let has_more = place + 1 < states.len();
        put_state(author, state, has_more, around, origins)?;
    }
    Ok(())
}

#[cycle(chart)]
#[tactic(auto, using(crate::proofs::ExtendedParts::state_is))]
fn put_state(
    author: &Author,
    state: &State,
    has_more: bool,
    around: Element,
    origins: &mut AuthorOrigins,
) -> Result<(), AllocError>
    ensures { OnOk result (origins.new ≡ of_state author.now state.now has_more around origins.old) }
{
    let number = origins.states.len();
    let from = made_from(author, around, has_more && !state.is_superstate(), number)?;
    let origin = state_origin(from, own_in(author.rows.states.as_slice(), number));
    put_state_over(
        author,
        origin,
        state.transitions.as_slice(),
        state.regions.as_slice(),
        origins,
    )
}

// Puts those of a state of this origin, with these parts, behind the others.
#[cycle(chart)]
fn put_state_over(
    author: &Author,
    origin: AuthorOrigin,
    transitions: &[Transition],
    regions: &[Region],
    origins: &mut AuthorOrigins,
) -> Result<(), AllocError>
    ensures { OnOk result (origins.new
        ≡ behind_state author.now origin transitions.now (map (of_region author.now) regions.now) origins.old) }
{
    origins.put_state(origin)?;
    put_transitions(author, origin.from, transitions, origins)?;
    put_regions(author, regions, origin.from, origins)
}
