//! Constants: each stands for its literal.

ghost use Rattle.std.specs.Prelude.{◌≡◌, [], ◌∷◌, ◌++◌, IfOk, OnOk, map};
ghost use Rattle.chart_reduction.specs.Constants.{unvalued, named_values, valued_effect, valued_during};
ghost use Rattle.chart_reduction.specs.Constants.{valued_transition};
ghost use Rattle.extended_charts.specs.Reading.{replaced};
ghost use Rattle.chart_reduction.specs.Constants.{valued_region, valued_state, valued_chart, without_constants};
ghost use Rattle.chart_reduction.specs.Inside.Values.{fill_valued, fill_chart};

use core_charts::{Effect, Transition};
use extended_charts::{
    Constant, During, ExtendedChart, ExtendedRegion, ExtendedState, Reading, bare,
};
use sc_values::{Expr, Value};
use sqlite_items::Items;
use std::alloc::{AllocError, Global};

/// The chart with the literals of its constants, which it then lacks. Err: memory was refused.
pub fn without_constants(alloc: Global, chart: &ExtendedChart) -> Result<ExtendedChart, AllocError>
    ensures { IfOk result (λ made. made ≡ without_constants chart.now) }
{
    let named = named_values(alloc, chart)?;
    let reading = Reading::Values(named);
    valued_chart(alloc, &reading, chart)
}

fn valued_chart(
    alloc: Global,
    reading: &Reading,
    chart: &ExtendedChart,
) -> Result<ExtendedChart, AllocError>
    ensures { IfOk result (λ made. made ≡ valued_chart reading.now chart.now) }
{
    let mut valued = ExtendedChart {
        name: chart.name,
        variables: Items::new(alloc),
        signals: Items::new(alloc),
        befores: Items::new(alloc),
        constants: Items::new(alloc),
        counts: Items::new(alloc),
        regions: Items::new(alloc),
    };
    match fill_chart(alloc, reading, chart, &mut valued) {
        Ok(()) => Ok(valued),
        Err(error) => {
            drop(valued);
            Err(error)
        }
    }
}

// The chart that is filled is behind a reference, so that no `?` has to drop its parts.
fn fill_chart(
    alloc: Global,
    reading: &Reading,
    chart: &ExtendedChart,
    valued: &mut ExtendedChart,
) -> Result<(), AllocError>
    ensures { OnOk result (valued.new ≡ fill_chart reading.now chart.now valued.old) }
{
    valued.variables = Items::from_slice(alloc, chart.variables.as_slice())?;
    valued.signals = Items::from_slice(alloc, chart.signals.as_slice())?;
    valued.befores = Items::from_slice(alloc, chart.befores.as_slice())?;
    put_valued_counts(alloc, reading, chart.counts.as_slice(), &mut valued.counts)?;
    put_regions(
        alloc,
        reading,
        chart.regions.as_slice(),
        &mut valued.regions,
    )
}

// The value of each number of an expression that has one.
fn named_values(alloc: Global, chart: &ExtendedChart) -> Result<Items<Option<Value>>, AllocError>
    ensures { IfOk result (λ made. made
        ≡ named_values chart.now.variables chart.now.befores chart.now.constants) }
{
    let mut made = Items::new(alloc);
    match put_named_values(chart, &mut made) {
        Ok(()) => Ok(made),
        Err(error) => {
            drop(made);
            Err(error)
        }
    }
}

fn put_named_values(
    chart: &ExtendedChart,
    made: &mut Items<Option<Value>>,
) -> Result<(), AllocError>
    ensures { OnOk result (made.new
        ≡ made.old ++ named_values chart.now.variables chart.now.befores chart.now.constants) }
{
    put_unvalued(chart.variables.as_slice(), made)?;
    put_unvalued(chart.befores.as_slice(), made)?;
    put_constant_values(chart.constants.as_slice(), made)
}

fn put_unvalued<T>(items: &[T], made: &mut Items<Option<Value>>) -> Result<(), AllocError>
    ensures { OnOk result (made.new ≡ made.old ++ unvalued items.now) }
{
    for _ in items {
        made.push(None)?;
    }
    Ok(())
}

fn put_constant_values(
    constants: &[Constant],
    made: &mut Items<Option<Value>>,
) -> Result<(), AllocError>
    ensures { OnOk result (made.new ≡ made.old ++ named_values [] [] constants.now) }
{
    for constant in constants {
        made.push(Some(constant.value))?;
    }
    Ok(())
}

fn put_valued_counts(
    alloc: Global,
    reading: &Reading,
    counts: &[Expr],
    made: &mut Items<Expr>,
) -> Result<(), AllocError>
    ensures { OnOk result (made.new ≡ made.old ++ map (replaced reading.now) counts.now) }
{
    for condition in counts {
        put_valued_count(alloc, reading, condition, made)?;
    }
    Ok(())
}

fn put_valued_count(
    alloc: Global,
    reading: &Reading,
    condition: &Expr,
    made: &mut Items<Expr>,
) -> Result<(), AllocError>
    ensures { OnOk result (made.new ≡ made.old ++ replaced reading.now condition.now ∷ []) }
{
    match reading.replaced(alloc, condition) {
        Ok(valued) => made.push(valued),
        Err(error) => Err(error),
    }
}

fn put_valued_effects(
    alloc: Global,
    reading: &Reading,
    effects: &[Effect],
    made: &mut Items<Effect>,
) -> Result<(), AllocError>
    ensures { OnOk result (made.new ≡ made.old ++ map (valued_effect reading.now) effects.now) }
{
    for effect in effects {
        put_valued_effect(alloc, reading, effect, made)?;
    }
    Ok(())
}

fn put_valued_effect(
    alloc: Global,
    reading: &Reading,
    effect: &Effect,
    made: &mut Items<Effect>,
) -> Result<(), AllocError>
    ensures { OnOk result (made.new ≡ made.old ++ valued_effect reading.now effect.now ∷ []) }
{
    match reading.replaced(alloc, &effect.value) {
        Ok(value) => made.push(Effect {
            variable: effect.variable,
            value,
        }),
        Err(error) => Err(error),
    }
}

fn valued_effects(
    alloc: Global,
    reading: &Reading,
    effects: &[Effect],
) -> Result<Items<Effect>, AllocError>
    ensures { IfOk result (λ made. made ≡ map (valued_effect reading.now) effects.now) }
{
    let mut made = Items::new(alloc);
    match put_valued_effects(alloc, reading, effects, &mut made) {
        Ok(()) => Ok(made),
        Err(error) => {
            drop(made);
            Err(error)
        }
    }
}

fn put_valued_durings(
    alloc: Global,
    reading: &Reading,
    durings: &[During],
    made: &mut Items<During>,
) -> Result<(), AllocError>
    ensures { OnOk result (made.new ≡ made.old ++ map (valued_during reading.now) durings.now) }
{
    for during in durings {
        put_valued_during(alloc, reading, during, made)?;
    }
    Ok(())
}

fn put_valued_during(
    alloc: Global,
    reading: &Reading,
    during: &During,
    made: &mut Items<During>,
) -> Result<(), AllocError>
    ensures { OnOk result (made.new ≡ made.old ++ valued_during reading.now during.now ∷ []) }
{
    let trigger = reading.replaced_trigger(alloc, &during.trigger)?;
    match valued_effects(alloc, reading, during.effects.as_slice()) {
        Ok(effects) => made.push(During {
            immediate: during.immediate,
            trigger,
            effects,
        }),
        Err(error) => {
            drop(trigger);
            Err(error)
        }
    }
}

fn put_valued_transitions(
    alloc: Global,
    reading: &Reading,
    transitions: &[Transition],
    made: &mut Items<Transition>,
) -> Result<(), AllocError>
    ensures { OnOk result (made.new ≡ made.old ++ map (valued_transition reading.now) transitions.now) }
{
    for transition in transitions {
        put_valued_transition(alloc, reading, transition, made)?;
    }
    Ok(())
}

fn put_valued_transition(
    alloc: Global,
    reading: &Reading,
    transition: &Transition,
    made: &mut Items<Transition>,
) -> Result<(), AllocError>
    ensures { OnOk result (made.new ≡ made.old ++ valued_transition reading.now transition.now ∷ []) }
{
    let trigger = reading.replaced_trigger(alloc, &transition.trigger)?;
    match valued_effects(alloc, reading, transition.effects.as_slice()) {
        Ok(effects) => made.push(Transition {
            kind: transition.kind,
            immediate: transition.immediate,
            trigger,
            effects,
            target: transition.target,
        }),
        Err(error) => {
            drop(trigger);
            Err(error)
        }
    }
}

// Puts what is made of regions behind others.
#[cycle(inside)]
fn put_regions(
    alloc: Global,
    reading: &Reading,
    regions: &[ExtendedRegion],
    made: &mut Items<ExtendedRegion>,
) -> Result<(), AllocError>
    ensures { OnOk result (made.new ≡ made.old ++ map (valued_region reading.now) regions.now) }
{
    for region in regions {
        put_region(alloc, reading, region, made)?;
    }
    Ok(())
}

#[cycle(inside)]
fn put_region(
    alloc: Global,
    reading: &Reading,
    region: &ExtendedRegion,
    made: &mut Items<ExtendedRegion>,
) -> Result<(), AllocError>
    ensures { OnOk result (made.new ≡ made.old ++ valued_region reading.now region.now ∷ []) }
{
    let mut states = Items::new(alloc);
    match put_states(alloc, reading, region.states.as_slice(), &mut states) {
        Ok(()) => made.push(ExtendedRegion {
            name: region.name,
            states,
        }),
        Err(error) => {
            drop(states);
            Err(error)
        }
    }
}

#[cycle(inside)]
fn put_states(
    alloc: Global,
    reading: &Reading,
    states: &[ExtendedState],
    made: &mut Items<ExtendedState>,
) -> Result<(), AllocError>
    ensures { OnOk result (made.new ≡ made.old ++ map (valued_state reading.now) states.now) }
{
    for state in states {
        put_state(alloc, reading, state, made)?;
    }
    Ok(())
}

#[cycle(inside)]
fn put_state(
    alloc: Global,
    reading: &Reading,
    state: &ExtendedState,
    made: &mut Items<ExtendedState>,
) -> Result<(), AllocError>
    ensures { OnOk result (made.new ≡ made.old ++ valued_state reading.now state.now ∷ []) }
{
    let mut valued = bare(alloc, state);
    match fill_valued(alloc, reading, state, &mut valued) {
        Ok(()) => made.push(valued),
        Err(error) => {
            drop(valued);
            Err(error)
        }
    }
}

// Puts what a state holds into a bare one, which is behind a reference so that no `?` has to drop its parts.
#[cycle(inside)]
fn fill_valued(
    alloc: Global,
    reading: &Reading,
    state: &ExtendedState,
    valued: &mut ExtendedState,
) -> Result<(), AllocError>
    ensures { OnOk result (valued.new ≡ fill_valued reading.now state.now valued.old) }
{
    put_valued_effects(alloc, reading, state.entry.as_slice(), &mut valued.entry)?;
    put_valued_effects(alloc, reading, state.exit.as_slice(), &mut valued.exit)?;
    put_valued_durings(alloc, reading, state.during.as_slice(), &mut valued.during)?;
    put_regions(
        alloc,
        reading,
        state.regions.as_slice(),
        &mut valued.regions,
    )?;
    put_valued_transitions(
        alloc,
        reading,
        state.transitions.as_slice(),
        &mut valued.transitions,
    )
}
