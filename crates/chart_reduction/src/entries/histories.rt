//! Histories: regions that begin where they were last.

ghost use Rattle.std.specs.Prelude.{◌≡◌, [], ◌∷◌, ◌++◌, suc, IfOk, OnOk, map};
ghost use Rattle.chart_reduction.specs.Histories.{asks, entering, noted, led, own_past, past_own, begins, history_of};
ghost use Rattle.chart_reduction.specs.Histories.{all_regions, all_states, recalling};
ghost use Rattle.chart_reduction.specs.Histories.{made_region, past_region, past_state, with_histories};
ghost use Rattle.chart_reduction.specs.Inside.Entries.{fill_past};
ghost use Rattle.extended_charts.specs.Making.{region};

use crate::entries::departures::put_set;
use crate::entries::recalls::{
    Kept, asking_count, is_by_history, is_recalled, put_kept_in, put_variables, recalled_among,
    region_count, state_count,
};
use crate::entries::resuming::put_resuming;
use core_charts::{Effect, Transition, next};
use extended_charts::{
    ExtendedChart, ExtendedRegion, ExtendedState, bare, copy, count, has_some, put_copied_durings,
    put_copied_effects, reset, sum, variable,
};
use sc_graph::VariableId;
use sc_values::{Expr, Name, Value};
use sqlite_items::Items;
use std::alloc::{AllocError, Global};

/// A region that goes on where it was, in a state that was entered by history.
#[derive(Clone, Copy)]
pub struct Past {
    /// Whether it was.
    pub history: VariableId,
    /// In which of its states the region is. These count from 1.
    pub last: VariableId,
}

/// The region in which a state stands.
#[derive(Clone, Copy)]
pub struct EnclosingRegion {
    /// How many states it has.
    pub count: u32,
    /// Whether the transition that is taken goes by history; and the next variable, whether its state was entered so.
    pub asked: VariableId,
    /// Where it goes on where it was.
    pub own: Option<Past>,
}

/// The chart in which no transition leads by history. Err: memory was refused, or there are more than 65535 variables.
pub fn with_histories(alloc: Global, chart: ExtendedChart) -> Result<ExtendedChart, AllocError>
    ensures { IfOk result (λ made. made ≡ with_histories chart) }
{
    let mut chart = chart;
    match put_histories(alloc, &mut chart) {
        Ok(()) => Ok(chart),
        Err(error) => {
            drop(chart);
            Err(error)
        }
    }
}

// The chart is behind a reference, so that no `?` has to drop its parts.
fn put_histories(alloc: Global, chart: &mut ExtendedChart) -> Result<(), AllocError>
    ensures { OnOk result (chart.new ≡ with_histories chart.old) }
{
    let mut kept = Items::new(alloc);
    put_kept_in(alloc, false, chart.regions.as_slice(), &mut kept)?;
    if has_some(kept.as_slice()) {
        put_recalling(alloc, kept.as_slice(), chart)
    } else {
        Ok(())
    }
}

// Where these variables are needed.
fn put_recalling(alloc: Global, kept: &[Kept], chart: &mut ExtendedChart) -> Result<(), AllocError>
    ensures { OnOk result (chart.new ≡ recalling kept.now chart.old) }
{
    let first = u32::from(variable(chart.variables.len())?);
    let mut regions = Items::new(alloc);
    put_regions(alloc, None, first, chart.regions.as_slice(), &mut regions)?;
    chart.regions = regions;
    put_variables(kept, &mut chart.variables)
}

// The transition that is taken goes by history.
fn asks(asked: VariableId) -> Effect
    ensures { result ≡ asks asked }
{
    Effect {
        variable: asked,
        value: Expr::Literal(Value::Bool(true)),
    }
}

fn entered_of(asked: VariableId) -> Result<VariableId, AllocError>
    ensures { IfOk result (λ x. x ≡ suc asked) }
{
    variable(asked as usize + 1)
}

// Puts what is done as a state is entered, where a transition leads to it by history.
fn put_entering(
    asked: VariableId,
    is_recalled: bool,
    made: &mut Items<Effect>,
) -> Result<(), AllocError>
    ensures { OnOk result (made.new ≡ made.old ++ entering asked is_recalled) }
{
    if !is_recalled {
        return Ok(());
    }
    made.push(copy(entered_of(asked)?, asked))?;
    made.push(reset(asked))
}

// Puts what is done as the state of this place is entered, where the region keeps where it is.
fn put_noted(own: Option<Past>, place: u32, made: &mut Items<Effect>) -> Result<(), AllocError>
    ensures { OnOk result (made.new ≡ made.old ++ noted own place) }
{
    match own {
        Some(past) => put_set(past.last, next(place)?, made),
        None => Ok(()),
    }
}

fn put_led(
    alloc: Global,
    at: EnclosingRegion,
    transition: &Transition,
    made: &mut Items<Transition>,
) -> Result<(), AllocError>
    ensures { OnOk result (made.new ≡ made.old ++ led at transition.now ∷ []) }
{
    let mut copy = transition.copied(alloc)?;
    if !is_by_history(at.count, transition) {
        return made.push(copy);
    }
    copy.target = transition.target - at.count;
    match copy.effects.push(asks(at.asked)) {
        Ok(()) => made.push(copy),
        Err(error) => {
            drop(copy);
            Err(error)
        }
    }
}

fn put_all_led(
    alloc: Global,
    at: EnclosingRegion,
    transitions: &[Transition],
    made: &mut Items<Transition>,
) -> Result<(), AllocError>
    ensures { OnOk result (made.new ≡ made.old ++ map (led at) transitions.now) }
{
    for transition in transitions {
        put_led(alloc, at, transition, made)?;
    }
    Ok(())
}

fn own_past(history: Option<VariableId>, x: u32) -> Result<Option<Past>, AllocError>
    ensures { IfOk result (λ own. own ≡ own_past history x) }
{
    match history {
        Some(history) => {
            let last = variable(x as usize)?;
            Ok(Some(Past { history, last }))
        }
        None => Ok(None),
    }
}

// So many behind the number of the region's own variable, where it has one.
fn past_own(history: Option<VariableId>, x: u32) -> Result<u32, AllocError>
    ensures { IfOk result (λ behind. behind ≡ past_own history x) }
{
    match history {
        Some(_) => next(x),
        None => Ok(x),
    }
}

fn begins(own: Option<Past>, is_initial: bool) -> bool
    ensures { result ≡ begins own is_initial }
{
    match own {
        Some(_) => false,
        None => is_initial,
    }
}

fn history_of(asked: VariableId, is_recalled: bool) -> Result<Option<VariableId>, AllocError>
    ensures { IfOk result (λ history. history ≡ history_of asked is_recalled) }
{
    if is_recalled {
        Ok(Some(entered_of(asked)?))
    } else {
        Ok(None)
    }
}

// Puts what is made of regions behind others.
#[cycle(past)]
fn put_regions(
    alloc: Global,
    history: Option<VariableId>,
    first: u32,
    regions: &[ExtendedRegion],
    made: &mut Items<ExtendedRegion>,
) -> Result<(), AllocError>
    ensures { OnOk result (made.new ≡ made.old ++ all_regions history first (map past_region regions.now)) }
{
    let mut x = first;
    for region in regions {
        let own = own_past(history, x)?;
        let inside = past_own(history, x)?;
        put_region(alloc, own, inside, region, made)?;
        x = sum(x, past_own(history, region_count(alloc, region)?)?)?;
    }
    Ok(())
}

#[cycle(past)]
#[tactic(auto, using(crate::proofs::PastStates::region_made))]
fn put_region(
    alloc: Global,
    own: Option<Past>,
    x: u32,
    region: &ExtendedRegion,
    made: &mut Items<ExtendedRegion>,
) -> Result<(), AllocError>
    ensures { OnOk result (made.new ≡ made.old ++ (past_region region.now).made own x ∷ []) }
{
    let states = region.states.as_slice();
    let recalled = recalled_among(alloc, count(states)?, states)?;
    put_made_region(
        alloc,
        own,
        recalled.as_slice(),
        x,
        region.name,
        states,
        made,
    )
}

// Puts a region in which transitions go to these places by history.
#[cycle(past)]
fn put_made_region(
    alloc: Global,
    own: Option<Past>,
    recalled: &[u32],
    x: u32,
    name: Name,
    states: &[ExtendedState],
    made: &mut Items<ExtendedRegion>,
) -> Result<(), AllocError>
    ensures { OnOk result (made.new ≡ made.old
        ++ region name (made_region own recalled.now x (map past_state states.now)) ∷ []) }
{
    let mut inside = Items::new(alloc);
    match put_made(alloc, own, recalled, x, states, &mut inside) {
        Ok(()) => made.push(ExtendedRegion {
            name,
            states: inside,
        }),
        Err(error) => {
            drop(inside);
            Err(error)
        }
    }
}

// Puts the states of a region in which transitions go to these places by history.
#[cycle(past)]
fn put_made(
    alloc: Global,
    own: Option<Past>,
    recalled: &[u32],
    x: u32,
    states: &[ExtendedState],
    made: &mut Items<ExtendedState>,
) -> Result<(), AllocError>
    ensures { OnOk result (made.new ≡ made.old ++ made_region own recalled.now x (map past_state states.now)) }
{
    let at = EnclosingRegion {
        count: count(states)?,
        asked: variable(x as usize)?,
        own,
    };
    let inside = sum(x, asking_count(recalled))?;
    put_states(alloc, at, recalled, inside, states, made)?;
    put_resuming(alloc, own, states, made)
}

#[cycle(past)]
fn put_states(
    alloc: Global,
    at: EnclosingRegion,
    recalled: &[u32],
    first: u32,
    states: &[ExtendedState],
    made: &mut Items<ExtendedState>,
) -> Result<(), AllocError>
    ensures { OnOk result (made.new ≡ made.old ++ all_states at recalled.now 0 first (map past_state states.now)) }
{
    let mut place = 0;
    let mut x = first;
    for state in states {
        let is_recalled = is_recalled(place, recalled);
        put_state(alloc, at, is_recalled, place, x, state, made)?;
        x = sum(x, state_count(alloc, is_recalled, state)?)?;
        place = next(place)?;
    }
    Ok(())
}

#[cycle(past)]
#[tactic(auto, using(crate::proofs::PastStates::state_made))]
fn put_state(
    alloc: Global,
    at: EnclosingRegion,
    is_recalled: bool,
    place: u32,
    x: u32,
    state: &ExtendedState,
    made: &mut Items<ExtendedState>,
) -> Result<(), AllocError>
    ensures { OnOk result (made.new ≡ made.old ++ (past_state state.now).made at is_recalled place x ∷ []) }
{
    let mut past = bare(alloc, state);
    past.is_initial = begins(at.own, state.is_initial);
    match fill_past(alloc, at, is_recalled, place, x, state, &mut past) {
        Ok(()) => made.push(past),
        Err(error) => {
            drop(past);
            Err(error)
        }
    }
}

// Puts what a state holds into a bare one, which is behind a reference so that no `?` has to drop its parts.
#[cycle(past)]
fn fill_past(
    alloc: Global,
    at: EnclosingRegion,
    is_recalled: bool,
    place: u32,
    x: u32,
    state: &ExtendedState,
    past: &mut ExtendedState,
) -> Result<(), AllocError>
    ensures { OnOk result (past.new ≡ fill_past at is_recalled place x state.now past.old) }
{
    let history = history_of(at.asked, is_recalled)?;
    put_noted(at.own, place, &mut past.entry)?;
    put_entering(at.asked, is_recalled, &mut past.entry)?;
    put_copied_effects(alloc, state.entry.as_slice(), &mut past.entry)?;
    put_copied_effects(alloc, state.exit.as_slice(), &mut past.exit)?;
    put_copied_durings(alloc, state.during.as_slice(), &mut past.during)?;
    put_regions(
        alloc,
        history,
        x,
        state.regions.as_slice(),
        &mut past.regions,
    )?;
    put_all_led(
        alloc,
        at,
        state.transitions.as_slice(),
        &mut past.transitions,
    )
}
