//! The origins of what regions become, and states with what is inside them.

ghost use Rattle.std.specs.Prelude.{◌≡◌, ◌∷◌, [], ◌++◌, IfOk, map};
ghost use Rattle.core_charts.specs.Numbers.{within_region, within_state};
ghost use Rattle.core_charts.specs.declared.elements.element.Element.TheVariants as element;
ghost use Rattle.abort_expansion.specs.Flags.{counts};
ghost use Rattle.node_elements.specs.ExpansionOrigins.{all_regions, all_states, around_of, begins_anew, behind_regions};
ghost use Rattle.node_elements.specs.ExpansionOrigins.{behind_states, beside, ends_of, expansion_origins};
ghost use Rattle.node_elements.specs.ExpansionOrigins.{initial_number};
ghost use Rattle.node_elements.specs.ExpansionOrigins.{inside_region, left_behind, new_initial, piece_of_region};
ghost use Rattle.node_elements.specs.ExpansionOrigins.{piece_of_state, region_over, superstate, weak_around};

use crate::expansion::around::{Around, aborts_around, counts, weak_around};
use crate::expansion::behind::initial_number;
use crate::expansion::origins::Origins;
use crate::expansion::states::put_simple;
use crate::expansion::superstates::{put_ending, put_opening};
use crate::expansion::transitions::{Choice, Ends, put_chosen};
use core_charts::{Chart, Element, ElementNumbers, Region, State, Transition, has_aborts};
use sqlite_items::Items;
use std::alloc::{AllocError, Global};

/// For each element of the core chart of a chart the element of the chart from which it comes. Err: memory was refused.
pub fn expansion_origins(alloc: Global, chart: &Chart) -> Result<Origins, AllocError>
    ensures { IfOk result (λ origins. origins ≡ expansion_origins chart.now) }
{
    let mut origins = Origins::none(alloc);
    put_regions(
        alloc,
        chart.regions(),
        &[],
        false,
        ElementNumbers::first(),
        &mut origins,
    )?;
    Ok(origins)
}

// Puts those of regions side by side behind the others, by what encloses them and whether they are counted: the answer
// is the numbers behind them.
#[cycle(text)]
fn put_regions(
    alloc: Global,
    regions: &[Region],
    around: &[Around],
    counted: bool,
    at: ElementNumbers,
    origins: &mut Origins,
) -> Result<ElementNumbers, AllocError>
    ensures origins { IfOk result (λ _. origins.new
        ≡ beside origins.old (all_regions (map piece_of_region regions.now) around.now counted at)) }
    ensures behind { IfOk result (λ behind. behind ≡ behind_regions (map piece_of_region regions.now) at) }
{
    let mut here = at;
    for region in regions {
        here = put_region(alloc, region, around, counted, here, origins)?;
    }
    Ok(here)
}

#[cycle(text)]
#[tactic(auto, using(crate::proofs::PieceParts::region_origins))]
fn put_region(
    alloc: Global,
    region: &Region,
    around: &[Around],
    counted: bool,
    at: ElementNumbers,
    origins: &mut Origins,
) -> Result<ElementNumbers, AllocError>
    ensures origins { IfOk result (λ _. origins.new
        ≡ beside origins.old ((piece_of_region region.now).origins around.now counted at)) }
    ensures behind { IfOk result (λ behind. behind ≡ (piece_of_region region.now).behind at) }
{
    put_region_over(
        alloc,
        region.states.as_slice(),
        around,
        counted,
        at,
        origins,
    )
}

// Puts those of a region of these states behind the others.
#[cycle(text)]
fn put_region_over(
    alloc: Global,
    states: &[State],
    around: &[Around],
    counted: bool,
    at: ElementNumbers,
    origins: &mut Origins,
) -> Result<ElementNumbers, AllocError>
    ensures origins { IfOk result (λ _. origins.new ≡ beside origins.old
        (region_over (map piece_of_state states.now) around.now counted at)) }
    ensures behind { IfOk result (λ behind. behind
        ≡ behind_states (map piece_of_state states.now) (within_region at)) }
{
    let from = Element::Region(at.region);
    origins.put_region(from)?;
    put_inside_region(
        alloc,
        states,
        around,
        counted,
        from,
        at.within_region()?,
        origins,
    )
}

// Puts those of all states of a region behind the others: of the new initial one, of those of the text, and of the
// abandoned one, which comes from the region.
#[cycle(text)]
fn put_inside_region(
    alloc: Global,
    states: &[State],
    around: &[Around],
    counted: bool,
    region: Element,
    at: ElementNumbers,
    origins: &mut Origins,
) -> Result<ElementNumbers, AllocError>
    ensures origins { IfOk result (λ _. origins.new ≡ beside origins.old
        (inside_region (map piece_of_state states.now) around.now counted region at)) }
    ensures behind { IfOk result (λ behind. behind ≡ behind_states (map piece_of_state states.now) at) }
{
    put_new_initial(counted, states, at, origins)?;
    let to = ends_of(alloc, states, counted)?;
    let behind = put_states(alloc, states, around, &to, at, origins)?;
    put_left_behind(aborts_around(around), region, origins)?;
    Ok(behind)
}

// Puts those of states side by side behind the others.
#[cycle(text)]
fn put_states(
    alloc: Global,
    states: &[State],
    around: &[Around],
    to: &Ends,
    at: ElementNumbers,
    origins: &mut Origins,
) -> Result<ElementNumbers, AllocError>
    ensures origins { IfOk result (λ _. origins.new
        ≡ beside origins.old (all_states (map piece_of_state states.now) around.now to.now at)) }
    ensures behind { IfOk result (λ behind. behind ≡ behind_states (map piece_of_state states.now) at) }
{
    let mut here = at;
    for state in states {
        here = put_state(alloc, state, around, to, here, origins)?;
    }
    Ok(here)
}

#[cycle(text)]
fn put_state(
    alloc: Global,
    state: &State,
    around: &[Around],
    to: &Ends,
    at: ElementNumbers,
    origins: &mut Origins,
) -> Result<ElementNumbers, AllocError>
    ensures origins { IfOk result (λ _. origins.new
        ≡ beside origins.old ((piece_of_state state.now).origins around.now to.now at)) }
    ensures behind { IfOk result (λ behind. behind ≡ (piece_of_state state.now).behind at) }
{
    let own = state.transitions.as_slice();
    if !state.is_superstate() {
        put_simple(state.is_final, own, around, to, at, origins)?;
        return at.within_state(own);
    }
    put_superstate(
        alloc,
        state.regions.as_slice(),
        own,
        around,
        to,
        at,
        origins,
    )
}

// Puts those of a superstate behind the others.
#[cycle(text)]
fn put_superstate(
    alloc: Global,
    regions: &[Region],
    own: &[Transition],
    around: &[Around],
    to: &Ends,
    at: ElementNumbers,
    origins: &mut Origins,
) -> Result<ElementNumbers, AllocError>
    ensures origins { IfOk result (λ _. origins.new ≡ beside origins.old
        (superstate (map piece_of_region regions.now) own.now around.now to.now at)) }
    ensures behind { IfOk result (λ behind. behind
        ≡ behind_regions (map piece_of_region regions.now) (within_state own.now at)) }
{
    if has_aborts(own) || aborts_around(around) {
        put_opening(own, around, to, at, origins)?;
        let behind = put_inside(alloc, regions, own, around, at, origins)?;
        put_ending(own, around, to, at, origins)?;
        return Ok(behind);
    }
    origins.put_state(Element::State(at.state))?;
    put_chosen(Choice::All, to, own, at, origins)?;
    put_inside(alloc, regions, own, around, at, origins)
}

// Puts those of what is inside a superstate behind the others.
#[cycle(text)]
fn put_inside(
    alloc: Global,
    regions: &[Region],
    own: &[Transition],
    around: &[Around],
    at: ElementNumbers,
    origins: &mut Origins,
) -> Result<ElementNumbers, AllocError>
    ensures origins { IfOk result (λ _. origins.new ≡ beside origins.old
        (all_regions (map piece_of_region regions.now) (around.now ++ around_of own.now at.transition ∷ [])
        (counts (weak_around around.now) own.now) (within_state own.now at))) }
    ensures behind { IfOk result (λ behind. behind
        ≡ behind_regions (map piece_of_region regions.now) (within_state own.now at)) }
{
    let counted = counts(weak_around(around), own);
    let mut enclosing = Items::from_slice(alloc, around)?;
    enclosing.push(Around::of(own, at.transition)?)?;
    let within = at.within_state(own)?;
    put_regions(
        alloc,
        regions,
        enclosing.as_slice(),
        counted,
        within,
        origins,
    )
}

// How a region of these states ends.
fn ends_of(alloc: Global, states: &[State], counts: bool) -> Result<Ends, AllocError>
    ensures { IfOk result (λ ends. ends ≡ ends_of (map piece_of_state states.now) counts) }
{
    let mut finals = Items::new(alloc);
    for state in states {
        finals.push(state.is_final)?;
    }
    Ok(Ends { finals, counts })
}

// Whether the initial state is final, in a superstate that counts.
fn begins_anew(counts: bool, states: &[State]) -> bool
    ensures { result ≡ begins_anew counts (map piece_of_state states.now) }
{
    if !counts {
        return false;
    }
    for state in states {
        if state.is_initial && state.is_final {
            return true;
        }
    }
    false
}

// Puts those of the new initial state of a region behind the others, where there is one.
fn put_new_initial(
    counted: bool,
    states: &[State],
    at: ElementNumbers,
    origins: &mut Origins,
) -> Result<(), AllocError>
    ensures { IfOk result (λ _. origins.new ≡ beside origins.old
        (new_initial (begins_anew counted (map piece_of_state states.now))
        (element.State (initial_number (map piece_of_state states.now) at)))) }
{
    if !begins_anew(counted, states) {
        return Ok(());
    }
    let from = Element::State(initial_number(states, at)?);
    origins.put_state(from)?;
    origins.put_transition(from)?;
    origins.effects.push(from)
}

// Puts that of the abandoned state of a region behind the others, where there is one.
fn put_left_behind(is_there: bool, region: Element, origins: &mut Origins) -> Result<(), AllocError>
    ensures { IfOk result (λ _. origins.new ≡ beside origins.old (left_behind is_there region)) }
{
    if is_there {
        origins.put_state(region)?;
    }
    Ok(())
}
