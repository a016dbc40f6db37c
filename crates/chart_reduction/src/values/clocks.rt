//! The ticks since a state was entered.

ghost use Rattle.std.specs.Prelude.{◌≡◌, [], ◌∷◌, ◌++◌, IfOk, OnOk, map};
ghost use Rattle.chart_reduction.specs.Clocks.{asks_time, ask_time, clocks_in, all_regions, all_states};
ghost use Rattle.chart_reduction.specs.Clocks.{noting, timed_by, timed_transition, timed_region, timed_state};
ghost use Rattle.chart_reduction.specs.Clocks.{one_more, clock_region, with_clocks};
ghost use Rattle.chart_reduction.specs.Inside.Values.{clock_state, fill_timed};

use core_charts::{Effect, Transition, copied_effects, next};
use extended_charts::{
    ELAPSED, ExtendedChart, ExtendedRegion, ExtendedState, Reading, alone, always, bare, copy,
    local, made_state, one, put_copied_effects, put_integers, sum, variable,
};
use sc_graph::VariableId;
use sc_text::plain;
use sc_values::{BinaryOperator, Expr, Kind, Value};
use sqlite_items::{Boxed, Items};
use std::alloc::{AllocError, Global};

/// The chart in which triggers read variables for the ticks since their states were entered. Err: memory was refused,
/// or there are more than 65535 variables.
pub fn with_clocks(alloc: Global, chart: ExtendedChart) -> Result<ExtendedChart, AllocError>
    ensures { IfOk result (λ made. made ≡ with_clocks chart) }
{
    let mut chart = chart;
    match put_clocks(alloc, &mut chart) {
        Ok(()) => Ok(chart),
        Err(error) => {
            drop(chart);
            Err(error)
        }
    }
}

// The chart is behind a reference, so that no `?` has to drop its parts.
fn put_clocks(alloc: Global, chart: &mut ExtendedChart) -> Result<(), AllocError>
    ensures { OnOk result (chart.new ≡ with_clocks chart.old) }
{
    let now = variable(chart.variables.len())?;
    let count = clocks_in(chart.regions.as_slice())?;
    if count == 0 {
        return Ok(());
    }
    let first = next(u32::from(now))?;
    let mut regions = Items::new(alloc);
    put_regions(alloc, now, first, chart.regions.as_slice(), &mut regions)?;
    put_clock_region(alloc, now, &mut regions)?;
    chart.regions = regions;
    chart
        .variables
        .push(local(plain("now__1"), Kind::Int, None))?;
    put_integers("at__", count, &mut chart.variables)
}

// Whether a trigger of these asks for the ticks since the state was entered.
fn ask_time(transitions: &[Transition]) -> bool
    ensures { result ≡ ask_time transitions.now }
{
    transitions
        .iter()
        .any(|transition| asks_time(&transition.trigger))
}

fn asks_time(trigger: &Option<Expr>) -> bool
    ensures { result ≡ asks_time trigger.now }
{
    match trigger {
        Some(condition) => condition.reads(ELAPSED),
        None => false,
    }
}

// How many of the states in these regions ask.
#[cycle(counting)]
fn clocks_in(regions: &[ExtendedRegion]) -> Result<u32, AllocError>
    ensures { IfOk result (λ count. count ≡ clocks_in (map timed_region regions.now)) }
{
    let mut count = 0;
    for region in regions {
        count = sum(count, region_clocks(region)?)?;
    }
    Ok(count)
}

#[cycle(counting)]
fn region_clocks(region: &ExtendedRegion) -> Result<u32, AllocError>
    ensures { IfOk result (λ count. count ≡ (timed_region region.now).clocks) }
{
    let mut count = 0;
    for state in region.states.as_slice() {
        count = sum(count, state_clocks(state)?)?;
    }
    Ok(count)
}

#[cycle(counting)]
fn state_clocks(state: &ExtendedState) -> Result<u32, AllocError>
    ensures { IfOk result (λ count. count ≡ (timed_state state.now).clocks) }
{
    let own = one(ask_time(state.transitions.as_slice()));
    sum(own, clocks_in(state.regions.as_slice())?)
}

// Puts what is made of regions behind others.
#[cycle(timed)]
fn put_regions(
    alloc: Global,
    now: VariableId,
    first: u32,
    regions: &[ExtendedRegion],
    made: &mut Items<ExtendedRegion>,
) -> Result<(), AllocError>
    ensures { OnOk result (made.new ≡ made.old ++ all_regions now first (map timed_region regions.now)) }
{
    let mut at = first;
    for region in regions {
        put_region(alloc, now, at, region, made)?;
        at = sum(at, region_clocks(region)?)?;
    }
    Ok(())
}

#[cycle(timed)]
fn put_region(
    alloc: Global,
    now: VariableId,
    at: u32,
    region: &ExtendedRegion,
    made: &mut Items<ExtendedRegion>,
) -> Result<(), AllocError>
    ensures { OnOk result (made.new ≡ made.old ++ (timed_region region.now).made now at ∷ []) }
{
    let mut states = Items::new(alloc);
    match put_states(alloc, now, at, region.states.as_slice(), &mut states) {
        Ok(()) => made.push(ExtendedRegion {
            name: region.name,
            states,
        }),
        Err(error) => {
            drop(states);
            Err(error)
        }
    }
}

#[cycle(timed)]
fn put_states(
    alloc: Global,
    now: VariableId,
    first: u32,
    states: &[ExtendedState],
    made: &mut Items<ExtendedState>,
) -> Result<(), AllocError>
    ensures { OnOk result (made.new ≡ made.old ++ all_states now first (map timed_state states.now)) }
{
    let mut at = first;
    for state in states {
        put_state(alloc, now, at, state, made)?;
        at = sum(at, state_clocks(state)?)?;
    }
    Ok(())
}

#[cycle(timed)]
#[tactic(auto, using(crate::proofs::ValueFolded::state_timed))]
fn put_state(
    alloc: Global,
    now: VariableId,
    at: u32,
    state: &ExtendedState,
    made: &mut Items<ExtendedState>,
) -> Result<(), AllocError>
    ensures { OnOk result (made.new ≡ made.old ++ (timed_state state.now).made now at ∷ []) }
{
    let mut timed = bare(alloc, state);
    match fill_timed(alloc, now, at, state, &mut timed) {
        Ok(()) => made.push(timed),
        Err(error) => {
            drop(timed);
            Err(error)
        }
    }
}

// Puts what a state holds into a bare one, which is behind a reference so that no `?` has to drop its parts.
#[cycle(timed)]
fn fill_timed(
    alloc: Global,
    now: VariableId,
    at: u32,
    state: &ExtendedState,
    timed: &mut ExtendedState,
) -> Result<(), AllocError>
    ensures { OnOk result (timed.new ≡ fill_timed now at state.now timed.old) }
{
    let own = state.transitions.as_slice();
    let asks = ask_time(own);
    let at_entry = variable(at as usize)?;
    let inside = sum(at, one(asks))?;
    put_noting(asks, now, at_entry, &mut timed.entry)?;
    put_copied_effects(alloc, state.entry.as_slice(), &mut timed.entry)?;
    put_copied_effects(alloc, state.exit.as_slice(), &mut timed.exit)?;
    put_regions(
        alloc,
        now,
        inside,
        state.regions.as_slice(),
        &mut timed.regions,
    )?;
    put_elapsed(alloc, now, at_entry, own, &mut timed.transitions)
}

// Puts what notes the time at which a state that asks was entered.
fn put_noting(
    asks: bool,
    now: VariableId,
    at: VariableId,
    made: &mut Items<Effect>,
) -> Result<(), AllocError>
    ensures { OnOk result (made.new ≡ made.old ++ noting asks now at) }
{
    if asks {
        made.push(copy(at, now))
    } else {
        Ok(())
    }
}

// Puts transitions that read the time now less that at the entry.
fn put_elapsed(
    alloc: Global,
    now: VariableId,
    at: VariableId,
    transitions: &[Transition],
    made: &mut Items<Transition>,
) -> Result<(), AllocError>
    ensures { OnOk result (made.new ≡ made.old ++ map (timed_transition now at) transitions.now) }
{
    let reading = Reading::Elapsed { now, at };
    put_timed(alloc, &reading, transitions, made)
}

/// Puts transitions whose triggers read so. Err: memory was refused.
pub(crate) fn put_timed(
    alloc: Global,
    reading: &Reading,
    transitions: &[Transition],
    made: &mut Items<Transition>,
) -> Result<(), AllocError>
    ensures { OnOk result (made.new ≡ made.old ++ map (timed_by reading.now) transitions.now) }
{
    for transition in transitions {
        put_timed_by(alloc, reading, transition, made)?;
    }
    Ok(())
}

fn put_timed_by(
    alloc: Global,
    reading: &Reading,
    transition: &Transition,
    made: &mut Items<Transition>,
) -> Result<(), AllocError>
    ensures { OnOk result (made.new ≡ made.old ++ timed_by reading.now transition.now ∷ []) }
{
    let trigger = reading.replaced_trigger(alloc, &transition.trigger)?;
    match copied_effects(alloc, transition.effects.as_slice()) {
        Ok(effects) => made.push(Transition {
            kind: transition.kind,
            immediate: transition.immediate,
            trigger,
            effects,
            target: transition.target,
        }),
        Err(error) => {
            drop(trigger);
            Err(error)
        }
    }
}

/// The variable becomes one more. Err: memory was refused.
pub(crate) fn one_more(alloc: Global, now: VariableId) -> Result<Effect, AllocError>
    ensures { IfOk result (λ made. made ≡ one_more now) }
{
    let before = Boxed::new(alloc, Expr::Load(now))?;
    match Boxed::new(alloc, Expr::Literal(Value::Int(1))) {
        Ok(one) => Ok(Effect {
            variable: now,
            value: Expr::Binary(BinaryOperator::Add, before, one),
        }),
        Err(error) => {
            drop(before);
            Err(error)
        }
    }
}

// Puts the region that adds 1 to the time in each tick but the first.
fn put_clock_region(
    alloc: Global,
    now: VariableId,
    made: &mut Items<ExtendedRegion>,
) -> Result<(), AllocError>
    ensures { OnOk result (made.new ≡ made.old ++ clock_region now ∷ []) }
{
    match alone(alloc, clock_state(alloc, now)?) {
        Ok(states) => made.push(ExtendedRegion {
            name: plain("clock__1"),
            states,
        }),
        Err(error) => Err(error),
    }
}

fn clock_state(alloc: Global, now: VariableId) -> Result<ExtendedState, AllocError>
    ensures { IfOk result (λ made. made ≡ clock_state now) }
{
    let effects = alone(alloc, one_more(alloc, now)?)?;
    let transitions = alone(alloc, always(false, effects, 0))?;
    let name = plain("tick__1");
    Ok(made_state(alloc, name, true, Items::new(alloc), transitions))
}
