//! Initial values: where a variable has one other than `false` and 0, states set them before all regions.

ghost use Rattle.std.specs.Prelude.{◌≡◌, [], ◌∷◌, ◌++◌, IfOk, OnOk, codes, false};
ghost use Rattle.extended_charts.specs.Making.{all_passing, made_state};
ghost use Rattle.chart_reduction.specs.Initial.{is_default, setting, settings, framed, with_settings};

use core_charts::Effect;
use extended_charts::{
    Declared, ExtendedChart, ExtendedRegion, ExtendedState, has_some, literal, made_state,
    put_all_passing, variable,
};
use sc_graph::VariableId;
use sc_text::plain;
use sc_values::Value;
use sqlite_items::Items;
use std::alloc::{AllocError, Global};
use std::mem;

/// The chart that sets the initial values of its variables. Err: memory was refused, or there are more than 65535
/// variables.
pub fn with_settings(alloc: Global, chart: ExtendedChart) -> Result<ExtendedChart, AllocError>
    ensures { IfOk result (λ made. made ≡ with_settings chart) }
{
    let mut chart = chart;
    match put_settings(alloc, &mut chart) {
        Ok(()) => Ok(chart),
        Err(error) => {
            drop(chart);
            Err(error)
        }
    }
}

// The chart is behind a reference, so that no `?` has to drop its parts.
fn put_settings(alloc: Global, chart: &mut ExtendedChart) -> Result<(), AllocError>
    ensures { OnOk result (chart.new ≡ with_settings chart.old) }
{
    let mut settings = Items::new(alloc);
    put_all_settings(alloc, chart.variables.as_slice(), &mut settings)?;
    frame(alloc, settings.as_slice(), &mut chart.regions)
}

// Puts the assignments of the initial values, of those that a variable does not hold anyway.
fn put_all_settings(
    alloc: Global,
    variables: &[Declared],
    made: &mut Items<Effect>,
) -> Result<(), AllocError>
    ensures { OnOk result (made.new ≡ made.old ++ settings 0 variables.now) }
{
    for (x, declared) in variables.iter().enumerate() {
        put_setting(alloc, variable(x)?, declared.initial, made)?;
    }
    Ok(())
}

fn put_setting(
    alloc: Global,
    variable: VariableId,
    initial: Option<Value>,
    made: &mut Items<Effect>,
) -> Result<(), AllocError>
    ensures { OnOk result (made.new ≡ made.old ++ setting variable initial) }
{
    match initial {
        Some(value) if !is_default(value) => {
            match literal(alloc, value) {
                Ok(value) => made.push(Effect { variable, value }),
                Err(error) => Err(error),
            }
        }
        _ => Ok(()),
    }
}

fn is_default(value: Value) -> bool
    ensures { result ≡ is_default value }
{
    match value {
        Value::Bool(truth) => !truth,
        Value::Int(number) => number == 0,
    }
}

// Puts the states that make these assignments, and behind them the one that takes the regions.
fn put_framing(
    alloc: Global,
    settings: &[Effect],
    regions: &mut Items<ExtendedRegion>,
    made: &mut Items<ExtendedState>,
) -> Result<(), AllocError>
    ensures made { OnOk result
        (made.new ≡ made.old ++ all_passing 0 settings.now ++ made_state (codes "whole__1") false regions.old [] ∷ []) }
    ensures none { OnOk result (regions.new ≡ []) }
{
    put_all_passing(alloc, 0, settings, made)?;
    let inside = mem::replace(regions, Items::new(alloc));
    made.push(made_state(alloc, plain("whole__1"), false, inside, Items::new(alloc)))
}

// Puts these assignments before regions, where there are some.
fn frame(
    alloc: Global,
    settings: &[Effect],
    regions: &mut Items<ExtendedRegion>,
) -> Result<(), AllocError>
    ensures { OnOk result (regions.new ≡ framed settings.now regions.old) }
{
    if !has_some(settings) {
        return Ok(());
    }
    let mut states = Items::new(alloc);
    match put_framing(alloc, settings, regions, &mut states) {
        Ok(()) => regions.push(ExtendedRegion {
            name: plain("whole__1"),
            states,
        }),
        Err(error) => {
            drop(states);
            Err(error)
        }
    }
}
