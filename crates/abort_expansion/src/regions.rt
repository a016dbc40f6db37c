//! Regions, and states with what is inside them, expanded.

ghost use Rattle.std.specs.Prelude.{◌≡◌, ◌+◌, ◌++◌, IfOk, OnOk, map, length};
ghost use Rattle.core_charts.specs.declared.region.Region.TheViews.{out-State};
ghost use Rattle.abort_expansion.specs.Flags.{one};
ghost use Rattle.abort_expansion.specs.Pieces.{beside, expanded_regions, together};
ghost use Rattle.abort_expansion.specs.Expansion.{piece_of_region, piece_of_state, expanded_states, inside_superstate};
ghost use Rattle.abort_expansion.specs.Expansion.{widths, places, region_places, begins_anew, initial_place};
ghost use Rattle.abort_expansion.specs.Expansion.{new_initial, left_behind, inside_region, initial_number};

use crate::counting::initial_number;
use crate::flags::{Flags, aborts_around, flag_count, flags_of, weak_around};
use crate::making::{alone, go, put_counting_down};
use crate::names::first_name;
use crate::pieces::{NextNumbers, Regions, StatePieces};
use crate::places::RegionPlaces;
use crate::states::{abandoned, put_simple};
use crate::superstates::{Superstate, is_prepared, put_superstate, stays};
use core_charts::{Region, State};
use sc_graph::VariableId;
use sqlite_items::Items;
use std::alloc::{AllocError, Global};

/// The regions of a superstate with this counter, by the flags of the superstates around them.
pub(crate) fn expanded_regions(
    alloc: Global,
    regions: &[Region],
    around: &[Flags],
    counter: Option<VariableId>,
    at: NextNumbers,
) -> Result<Regions, AllocError>
    ensures { IfOk result (λ made. made ≡ expanded_regions (map piece_of_region regions.now) around.now counter at) }
{
    let mut made = Regions::none(alloc);
    put_regions(alloc, regions, around, counter, at, &mut made)?;
    Ok(made)
}

// Puts them behind others.
#[cycle(text)]
fn put_regions(
    alloc: Global,
    regions: &[Region],
    around: &[Flags],
    counter: Option<VariableId>,
    at: NextNumbers,
    made: &mut Regions,
) -> Result<(), AllocError>
    ensures { OnOk result (made.new
        ≡ together made.old (expanded_regions (map piece_of_region regions.now) around.now counter at)) }
{
    let mut here = at;
    for region in regions {
        put_region(alloc, region, around, counter, here, made)?;
        here = here.past_region(around, region)?;
    }
    Ok(())
}

#[cycle(text)]
#[tactic(auto, using(crate::proofs::PieceParts::region_made))]
fn put_region(
    alloc: Global,
    region: &Region,
    around: &[Flags],
    counter: Option<VariableId>,
    at: NextNumbers,
    made: &mut Regions,
) -> Result<(), AllocError>
    ensures { OnOk result (made.new ≡ together made.old ((piece_of_region region.now).made around.now counter at)) }
{
    let mut inside = StatePieces::none(alloc);
    put_inside_region(
        alloc,
        region.states.as_slice(),
        around,
        counter,
        at,
        &mut inside,
    )?;
    made.variables.append(inside.variables)?;
    made.stands_for.append(inside.stands_for)?;
    made.regions.push(Region {
        name: region.name,
        states: inside.states,
    })
}

// Puts all states of a region behind others: the new initial one, those of the text, and the abandoned one.
#[cycle(text)]
fn put_inside_region(
    alloc: Global,
    states: &[State],
    around: &[Flags],
    counter: Option<VariableId>,
    at: NextNumbers,
    made: &mut StatePieces,
) -> Result<(), AllocError>
    ensures { OnOk result (made.new
        ≡ beside made.old (inside_region (map piece_of_state states.now) around.now counter at)) }
{
    let anew = begins_anew(counter, states);
    let begin = one(anew);
    put_first(alloc, anew, states, around, counter, begin, at.state, made)?;
    let to = region_places(alloc, states, around, counter, begin)?;
    put_states(alloc, anew, states, around, &to, begin, at, made)?;
    put_left_behind(alloc, aborts_around(around), made)
}

// Puts the new initial state of a region behind others, where there is one: these are the place and the number of the
// first state of the text.
fn put_first(
    alloc: Global,
    anew: bool,
    states: &[State],
    around: &[Flags],
    counter: Option<VariableId>,
    begin: u32,
    first: u32,
    made: &mut StatePieces,
) -> Result<(), AllocError>
    ensures { OnOk result (made.new ≡ beside made.old (new_initial anew counter
        (initial_place (map piece_of_state states.now) around.now begin)
        (initial_number (map piece_of_state states.now) first))) }
{
    let target = initial_place(states, around, begin)?;
    let number = initial_number(states, first)?;
    put_new_initial(alloc, anew, counter, target, number, made)
}

// Puts the states of a region from this place on behind others; the initial one is initial still, unless the region
// begins elsewhere.
#[cycle(text)]
fn put_states(
    alloc: Global,
    anew: bool,
    states: &[State],
    around: &[Flags],
    to: &RegionPlaces,
    first: u32,
    at: NextNumbers,
    made: &mut StatePieces,
) -> Result<(), AllocError>
    ensures { OnOk result (made.new ≡ beside made.old
        (expanded_states anew (map piece_of_state states.now) around.now to.now first at)) }
{
    let mut here = at;
    let mut place = first;
    for state in states {
        let begins = state.is_initial && !anew;
        put_state(alloc, state, around, to, place, begins, here, made)?;
        place = past(place, width(state, around))?;
        here = here.past_state(around, state)?;
    }
    Ok(())
}

#[cycle(text)]
#[tactic(auto, using(crate::proofs::PieceParts::simple_made, crate::proofs::PieceParts::superstate_made))]
fn put_state(
    alloc: Global,
    state: &State,
    around: &[Flags],
    to: &RegionPlaces,
    place: u32,
    begins: bool,
    at: NextNumbers,
    made: &mut StatePieces,
) -> Result<(), AllocError>
    ensures { OnOk result (made.new ≡ beside made.old
        ((piece_of_state state.now).made around.now to.now place begins at)) }
{
    let own = state.transitions.as_slice();
    if !state.is_superstate() {
        made.stands_for.push(Some(at.state))?;
        let name = state.name;
        let states = &mut made.states;
        return put_simple(alloc, state.is_final, name, own, around, to, begins, states);
    }
    let flags = flags_of(weak_around(around), own, at.variable)?;
    let superstate = Superstate {
        name: state.name,
        regions: region_count(state.regions.as_slice())?,
        own,
        around,
        flags,
        place,
        begins,
        at,
    };
    let mut inside = Regions::none(alloc);
    put_inside_superstate(alloc, state, around, flags, at, &mut inside)?;
    put_superstate(alloc, &superstate, inside, to, made)
}

// Puts what is inside a superstate with these flags behind others.
#[cycle(text)]
fn put_inside_superstate(
    alloc: Global,
    state: &State,
    around: &[Flags],
    flags: Flags,
    at: NextNumbers,
    made: &mut Regions,
) -> Result<(), AllocError>
    ensures { OnOk result (made.new ≡ together made.old
        (inside_superstate (map piece_of_region (out-State state.now).regions)
        (out-State state.now).transitions around.now flags at)) }
{
    let variables = flag_count(weak_around(around), state.transitions.as_slice());
    let within = at.within(variables)?;
    let mut enclosing = Items::from_slice(alloc, around)?;
    enclosing.push(flags)?;
    let regions = state.regions.as_slice();
    put_regions(
        alloc,
        regions,
        enclosing.as_slice(),
        flags.counter,
        within,
        made,
    )
}

// Err: no memory holds so many.
fn region_count(regions: &[Region]) -> Result<u16, AllocError>
    ensures { IfOk result (λ count. count ≡ length regions.now) }
{
    match u16::try_from(regions.len()) {
        Ok(count) => Ok(count),
        Err(_) => Err(AllocError),
    }
}

fn one(is_there: bool) -> u32
    ensures { result ≡ one is_there }
{
    if is_there { 1 } else { 0 }
}

// The place behind so many states. Err: no memory holds them.
fn past(place: u32, width: u32) -> Result<u32, AllocError>
    ensures { IfOk result (λ next. next ≡ place + width) }
{
    match place.checked_add(width) {
        Some(next) => Ok(next),
        None => Err(AllocError),
    }
}

// How many states a state becomes.
fn width(state: &State, around: &[Flags]) -> u32
    ensures { result ≡ (piece_of_state state.now).width around.now }
{
    let own = state.transitions.as_slice();
    if !state.is_superstate() || stays(around, own) {
        1
    } else if is_prepared(around, own) {
        3
    } else {
        2
    }
}

// Where the states of a region are, of which the first one of the text has this place.
fn region_places(
    alloc: Global,
    states: &[State],
    around: &[Flags],
    counter: Option<VariableId>,
    begin: u32,
) -> Result<RegionPlaces, AllocError>
    ensures { IfOk result (λ made. made ≡ region_places (map piece_of_state states.now) around.now counter begin) }
{
    let mut places = Items::new(alloc);
    let left = put_places(states, around, begin, &mut places)?;
    let mut finals = Items::new(alloc);
    put_finals(states, &mut finals)?;
    Ok(RegionPlaces {
        states: places,
        finals,
        left,
        counter,
    })
}

// Puts the place of each state behind others, of which the first one has this place, and tells that behind them.
fn put_places(
    states: &[State],
    around: &[Flags],
    begin: u32,
    made: &mut Items<u32>,
) -> Result<u32, AllocError>
    ensures places { OnOk result (made.new ≡ made.old ++ places (map piece_of_state states.now) around.now begin) }
    ensures behind { IfOk result (λ left. left ≡ begin + widths (map piece_of_state states.now) around.now) }
{
    let mut place = begin;
    for state in states {
        made.push(place)?;
        place = past(place, width(state, around))?;
    }
    Ok(place)
}

// Puts whether each state is final behind others.
fn put_finals(states: &[State], made: &mut Items<bool>) -> Result<(), AllocError>
    ensures { OnOk result (made.new ≡ made.old ++ map (λ s. s.is_final) (map piece_of_state states.now)) }
{
    for state in states {
        made.push(state.is_final)?;
    }
    Ok(())
}

// Whether the initial state is final, in a superstate that counts.
fn begins_anew(counter: Option<VariableId>, states: &[State]) -> bool
    ensures { result ≡ begins_anew counter (map piece_of_state states.now) }
{
    if counter.is_none() {
        return false;
    }
    for state in states {
        if state.is_initial && state.is_final {
            return true;
        }
    }
    false
}

// The place of the initial state, where the first one has this place.
fn initial_place(states: &[State], around: &[Flags], begin: u32) -> Result<u32, AllocError>
    ensures { IfOk result (λ place. place ≡ initial_place (map piece_of_state states.now) around.now begin) }
{
    let mut place = begin;
    for state in states {
        if state.is_initial {
            return Ok(place);
        }
        place = past(place, width(state, around))?;
    }
    Ok(place)
}

// Puts the new initial state behind others, where there is one: it counts down and goes to that of the text.
fn put_new_initial(
    alloc: Global,
    anew: bool,
    counter: Option<VariableId>,
    target: u32,
    number: u32,
    made: &mut StatePieces,
) -> Result<(), AllocError>
    ensures { OnOk result (made.new ≡ beside made.old (new_initial anew counter target number)) }
{
    if !anew {
        return Ok(());
    }
    made.stands_for.push(Some(number))?;
    let mut effects = Items::new(alloc);
    put_counting_down(alloc, counter, &mut effects)?;
    let transitions = alone(alloc, go(true, None, effects, target))?;
    made.states.push(State {
        name: first_name(),
        is_initial: true,
        is_final: false,
        regions: Items::new(alloc),
        transitions,
    })
}

// Puts the abandoned state behind others, where superstates with aborts enclose the region.
fn put_left_behind(alloc: Global, is_there: bool, made: &mut StatePieces) -> Result<(), AllocError>
    ensures { OnOk result (made.new ≡ beside made.old (left_behind is_there)) }
{
    if !is_there {
        return Ok(());
    }
    made.stands_for.push(None)?;
    made.states.push(abandoned(alloc))
}
