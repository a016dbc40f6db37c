//! The region that counts, and the variables in which it does.

ghost use Rattle.std.specs.Prelude.{◌≡◌, [], ◌∷◌, ◌++◌, IfOk, OnOk};
ghost use Rattle.chart_reduction.specs.Clocks.{one_more};
ghost use Rattle.chart_reduction.specs.Counts.{total_of, entered_of, next_count, own_variables, count_variables};
ghost use Rattle.chart_reduction.specs.Counts.{beginnings, none_yet, counting_ways, counting, all_counting};
ghost use Rattle.chart_reduction.specs.Counts.{count_states, count_region};
ghost use Rattle.chart_reduction.specs.Inside.Values.{anew};
ghost use Rattle.extended_charts.specs.Durings.{ways_on};

use crate::values::clocks::one_more;
use crate::values::passing::put_passing;
use core_charts::{Effect, Transition, TransitionKind, next};
use extended_charts::{
    Declared, ExtendedRegion, ExtendedState, alone, copy, count, local, made_state,
    put_all_passing, put_ways_on, reset, sum, variable,
};
use sc_graph::VariableId;
use sc_text::{numbered, plain};
use sc_values::{Expr, Kind, Value};
use sqlite_items::Items;
use std::alloc::{AllocError, Global};

fn total_of(count: VariableId) -> Result<VariableId, AllocError>
    ensures { IfOk result (λ x. x ≡ total_of count) }
{
    variable(count as usize + 1)
}

/// The variable in which a count is told that its state was entered. Err: there are more than 65535 variables.
pub(crate) fn entered_of(count: VariableId) -> Result<VariableId, AllocError>
    ensures { IfOk result (λ x. x ≡ entered_of count) }
{
    variable(count as usize + 2)
}

fn next_count(count: VariableId) -> Result<VariableId, AllocError>
    ensures { IfOk result (λ x. x ≡ next_count count) }
{
    variable(count as usize + 3)
}

fn put_own_variables(number: u32, made: &mut Items<Declared>) -> Result<(), AllocError>
    ensures { OnOk result (made.new ≡ made.old ++ own_variables number) }
{
    made.push(local(numbered("count__", number as u64), Kind::Int, None))?;
    made.push(local(numbered("total__", number as u64), Kind::Int, None))?;
    made.push(local(numbered("entered__", number as u64), Kind::Bool, None))
}

/// Puts the variables of the counts. Err: memory was refused, or no memory holds so many.
pub(crate) fn put_count_variables(
    counts: &[Expr],
    made: &mut Items<Declared>,
) -> Result<(), AllocError>
    ensures { OnOk result (made.new ≡ made.old ++ count_variables 1 counts.now) }
{
    let mut number = 1;
    for condition in counts {
        put_own_variables(number, made)?;
        number = next(number)?;
    }
    Ok(())
}

// Puts what is done as a tick begins.
fn put_beginnings(
    first: VariableId,
    counts: &[Expr],
    made: &mut Items<Effect>,
) -> Result<(), AllocError>
    ensures { OnOk result (made.new ≡ made.old ++ beginnings first counts.now) }
{
    let mut variable = first;
    for condition in counts {
        made.push(copy(variable, total_of(variable)?))?;
        made.push(reset(entered_of(variable)?))?;
        variable = next_count(variable)?;
    }
    Ok(())
}

fn none_yet(total: VariableId) -> Effect
    ensures { result ≡ none_yet total }
{
    Effect {
        variable: total,
        value: Expr::Literal(Value::Int(0)),
    }
}

// Puts the way on where the state was entered: none is counted.
fn put_anew(
    alloc: Global,
    count: VariableId,
    target: u32,
    made: &mut Items<Transition>,
) -> Result<(), AllocError>
    ensures { OnOk result (made.new ≡ made.old ++ anew count target ∷ []) }
{
    let entered = entered_of(count)?;
    let total = total_of(count)?;
    match alone(alloc, none_yet(total)) {
        Ok(effects) => made.push(Transition {
            kind: TransitionKind::Go,
            immediate: true,
            trigger: Some(Expr::Load(entered)),
            effects,
            target,
        }),
        Err(error) => Err(error),
    }
}

// Puts the ways on of a count: none is counted where the state was entered, and else this tick, where the condition is
// true.
fn put_counting_ways(
    alloc: Global,
    count: VariableId,
    condition: &Expr,
    target: u32,
    made: &mut Items<Transition>,
) -> Result<(), AllocError>
    ensures { OnOk result (made.new ≡ made.old ++ counting_ways count condition.now target) }
{
    put_anew(alloc, count, target, made)?;
    let trigger = Some(condition.copied(alloc)?);
    put_counted_ways(alloc, count, &trigger, target, made)
}

fn put_counted_ways(
    alloc: Global,
    count: VariableId,
    trigger: &Option<Expr>,
    target: u32,
    made: &mut Items<Transition>,
) -> Result<(), AllocError>
    ensures { OnOk result
        (made.new ≡ made.old ++ ways_on trigger.now (one_more (total_of count) ∷ []) target) }
{
    let counted = alone(alloc, one_more(alloc, total_of(count)?)?)?;
    put_ways_on(alloc, trigger, counted.as_slice(), target, made)
}

// Puts the state of this place, which counts and leads to the place behind it.
fn put_counting(
    alloc: Global,
    place: u32,
    count: VariableId,
    condition: &Expr,
    made: &mut Items<ExtendedState>,
) -> Result<(), AllocError>
    ensures { OnOk result (made.new ≡ made.old ++ counting place count condition.now ∷ []) }
{
    let behind = next(place)?;
    let name = numbered("step__", place as u64);
    let mut ways = Items::new(alloc);
    match put_counting_ways(alloc, count, condition, behind, &mut ways) {
        Ok(()) => made.push(made_state(alloc, name, place == 0, Items::new(alloc), ways)),
        Err(error) => {
            drop(ways);
            Err(error)
        }
    }
}

fn put_all_counting(
    alloc: Global,
    first_place: u32,
    first: VariableId,
    counts: &[Expr],
    made: &mut Items<ExtendedState>,
) -> Result<(), AllocError>
    ensures { OnOk result (made.new ≡ made.old ++ all_counting first_place first counts.now) }
{
    let mut place = first_place;
    let mut variable = first;
    for condition in counts {
        put_counting(alloc, place, variable, condition, made)?;
        place = next(place)?;
        variable = next_count(variable)?;
    }
    Ok(())
}

fn put_count_states(
    alloc: Global,
    begun: &[Effect],
    first: VariableId,
    counts: &[Expr],
    made: &mut Items<ExtendedState>,
) -> Result<(), AllocError>
    ensures { OnOk result (made.new ≡ made.old ++ count_states begun.now first counts.now) }
{
    let behind = count(begun)?;
    let last = sum(behind, count(counts)?)?;
    put_all_passing(alloc, 0, begun, made)?;
    put_all_counting(alloc, behind, first, counts, made)?;
    put_passing(alloc, false, last, 0, made)
}

// Puts the states that count, and those before them that do what is done as a tick begins.
fn put_all_count_states(
    alloc: Global,
    first: VariableId,
    counts: &[Expr],
    made: &mut Items<ExtendedState>,
) -> Result<(), AllocError>
    ensures { OnOk result (made.new ≡ made.old ++ count_states (beginnings first counts.now) first counts.now) }
{
    let mut begun = Items::new(alloc);
    put_beginnings(first, counts, &mut begun)?;
    put_count_states(alloc, begun.as_slice(), first, counts, made)
}

/// Puts the region that counts. Err: memory was refused, or there are more than 65535 variables.
pub(crate) fn put_count_region(
    alloc: Global,
    first: VariableId,
    counts: &[Expr],
    made: &mut Items<ExtendedRegion>,
) -> Result<(), AllocError>
    ensures { OnOk result (made.new ≡ made.old ++ count_region first counts.now ∷ []) }
{
    let mut states = Items::new(alloc);
    match put_all_count_states(alloc, first, counts, &mut states) {
        Ok(()) => made.push(ExtendedRegion {
            name: plain("counts__1"),
            states,
        }),
        Err(error) => {
            drop(states);
            Err(error)
        }
    }
}
