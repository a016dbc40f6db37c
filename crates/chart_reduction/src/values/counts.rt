//! Counts: in how many ticks a condition was true since a state was entered.

ghost use Rattle.std.specs.Prelude.{◌≡◌, [], ◌∷◌, ◌++◌, IfOk, OnOk, map};
ghost use Rattle.chart_reduction.specs.Clocks.{timed_by};
ghost use Rattle.extended_charts.specs.declared.reading.Reading.TheVariants as reading;
ghost use Rattle.chart_reduction.specs.Counts.{asked_in, asked_by, telling, tellings};
ghost use Rattle.chart_reduction.specs.Counts.{counted_region, counted_state, with_counts};
ghost use Rattle.chart_reduction.specs.Inside.Values.{fill_counted};

use crate::values::clocks::put_timed;
use crate::values::count_region::{entered_of, put_count_region, put_count_variables};
use core_charts::{Effect, Transition};
use extended_charts::{
    ExtendedChart, ExtendedRegion, ExtendedState, Reading, bare, count_variable, emission,
    has_some, is_count, put_copied_effects, variable,
};
use sc_graph::VariableId;
use sc_values::Expr;
use sqlite_items::Items;
use std::alloc::{AllocError, Global};

/// The chart in which triggers read variables for the counts. Err: memory was refused, or there are more than 65535
/// variables.
pub fn with_counts(alloc: Global, chart: ExtendedChart) -> Result<ExtendedChart, AllocError>
    ensures { IfOk result (λ made. made ≡ with_counts chart) }
{
    let mut chart = chart;
    match put_counts(alloc, &mut chart) {
        Ok(()) => Ok(chart),
        Err(error) => {
            drop(chart);
            Err(error)
        }
    }
}

// The chart is behind a reference, so that no `?` has to drop its parts.
fn put_counts(alloc: Global, chart: &mut ExtendedChart) -> Result<(), AllocError>
    ensures { OnOk result (chart.new ≡ with_counts chart.old) }
{
    if !has_some(chart.counts.as_slice()) {
        return Ok(());
    }
    let first = variable(chart.variables.len())?;
    let counts = variable(chart.counts.len())?;
    let mut regions = Items::new(alloc);
    put_regions(alloc, first, counts, chart.regions.as_slice(), &mut regions)?;
    put_count_region(alloc, first, chart.counts.as_slice(), &mut regions)?;
    chart.regions = regions;
    put_count_variables(chart.counts.as_slice(), &mut chart.variables)?;
    chart.counts = Items::new(alloc);
    Ok(())
}

// The first count that an expression reads.
fn asked_in(counts: u16, expression: &Expr) -> Option<u16>
    ensures { result ≡ asked_in counts expression.now }
{
    match expression {
        Expr::Literal(_) => None,
        Expr::Load(x) => { if is_count(counts, *x) { Some(*x) } else { None } }
        Expr::Unary(_, operand) => asked_in(counts, operand.get()),
        Expr::Binary(_, left, right) => match asked_in(counts, left.get()) {
            Some(x) => Some(x),
            None => asked_in(counts, right.get()),
        },
    }
}

fn asked_by(counts: u16, trigger: &Option<Expr>) -> Option<u16>
    ensures { result ≡ asked_by counts trigger.now }
{
    match trigger {
        Some(condition) => asked_in(counts, condition),
        None => None,
    }
}

// Puts what tells the count that its state is entered.
fn put_telling(
    alloc: Global,
    first: VariableId,
    counts: u16,
    asked: Option<u16>,
    made: &mut Items<Effect>,
) -> Result<(), AllocError>
    ensures { OnOk result (made.new ≡ made.old ++ telling first counts asked) }
{
    match asked {
        Some(x) => {
            let entered = entered_of(count_variable(first, counts, x)?)?;
            match emission(alloc, entered) {
                Ok(effect) => made.push(effect),
                Err(error) => Err(error),
            }
        }
        None => Ok(()),
    }
}

fn put_tellings(
    alloc: Global,
    first: VariableId,
    counts: u16,
    transitions: &[Transition],
    made: &mut Items<Effect>,
) -> Result<(), AllocError>
    ensures { OnOk result (made.new ≡ made.old ++ tellings first counts transitions.now) }
{
    for transition in transitions {
        let asked = asked_by(counts, &transition.trigger);
        put_telling(alloc, first, counts, asked, made)?;
    }
    Ok(())
}

// Puts what is made of regions behind others.
#[cycle(counted)]
fn put_regions(
    alloc: Global,
    first: VariableId,
    counts: u16,
    regions: &[ExtendedRegion],
    made: &mut Items<ExtendedRegion>,
) -> Result<(), AllocError>
    ensures { OnOk result (made.new ≡ made.old ++ map (counted_region first counts) regions.now) }
{
    for region in regions {
        put_region(alloc, first, counts, region, made)?;
    }
    Ok(())
}

#[cycle(counted)]
fn put_region(
    alloc: Global,
    first: VariableId,
    counts: u16,
    region: &ExtendedRegion,
    made: &mut Items<ExtendedRegion>,
) -> Result<(), AllocError>
    ensures { OnOk result (made.new ≡ made.old ++ counted_region first counts region.now ∷ []) }
{
    let mut states = Items::new(alloc);
    match put_states(alloc, first, counts, region.states.as_slice(), &mut states) {
        Ok(()) => made.push(ExtendedRegion {
            name: region.name,
            states,
        }),
        Err(error) => {
            drop(states);
            Err(error)
        }
    }
}

#[cycle(counted)]
fn put_states(
    alloc: Global,
    first: VariableId,
    counts: u16,
    states: &[ExtendedState],
    made: &mut Items<ExtendedState>,
) -> Result<(), AllocError>
    ensures { OnOk result (made.new ≡ made.old ++ map (counted_state first counts) states.now) }
{
    for state in states {
        put_state(alloc, first, counts, state, made)?;
    }
    Ok(())
}

#[cycle(counted)]
#[tactic(auto, using(crate::proofs::CountedStates::state_counted))]
fn put_state(
    alloc: Global,
    first: VariableId,
    counts: u16,
    state: &ExtendedState,
    made: &mut Items<ExtendedState>,
) -> Result<(), AllocError>
    ensures { OnOk result (made.new ≡ made.old ++ counted_state first counts state.now ∷ []) }
{
    let mut counted = bare(alloc, state);
    match fill_counted(alloc, first, counts, state, &mut counted) {
        Ok(()) => made.push(counted),
        Err(error) => {
            drop(counted);
            Err(error)
        }
    }
}

// Puts what a state holds into a bare one, which is behind a reference so that no `?` has to drop its parts.
#[cycle(counted)]
fn fill_counted(
    alloc: Global,
    first: VariableId,
    counts: u16,
    state: &ExtendedState,
    counted: &mut ExtendedState,
) -> Result<(), AllocError>
    ensures { OnOk result (counted.new ≡ fill_counted first counts state.now counted.old) }
{
    let own = state.transitions.as_slice();
    put_tellings(alloc, first, counts, own, &mut counted.entry)?;
    put_copied_effects(alloc, state.entry.as_slice(), &mut counted.entry)?;
    put_copied_effects(alloc, state.exit.as_slice(), &mut counted.exit)?;
    put_regions(
        alloc,
        first,
        counts,
        state.regions.as_slice(),
        &mut counted.regions,
    )?;
    put_counted(alloc, first, counts, own, &mut counted.transitions)
}

// Puts transitions that read the variables of the counts.
fn put_counted(
    alloc: Global,
    first: VariableId,
    counts: u16,
    transitions: &[Transition],
    made: &mut Items<Transition>,
) -> Result<(), AllocError>
    ensures { OnOk result
        (made.new ≡ made.old ++ map (timed_by (reading.Counted first counts)) transitions.now) }
{
    let reading = Reading::Counted { first, counts };
    put_timed(alloc, &reading, transitions, made)
}
