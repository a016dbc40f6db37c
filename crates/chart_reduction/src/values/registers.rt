//! What variables were at the end of the tick before.

ghost use Rattle.std.specs.Prelude.{◌≡◌, [], ◌∷◌, ◌++◌, ◌+◌, IfOk, OnOk, length, slice_get};
ghost use Rattle.chart_reduction.specs.Registers.{kind_of, initial_of, before_variables, registers, storing, handing};
ghost use Rattle.chart_reduction.specs.Registers.{ring, register_states, register_region, with_registers};

use crate::values::passing::put_passing;
use core_charts::{Effect, next};
use extended_charts::{
    Declared, ExtendedChart, ExtendedRegion, ExtendedState, copy, count, has_some, local,
    put_all_passing, sum, variable,
};
use sc_graph::VariableId;
use sc_text::{numbered, plain};
use sc_values::{Kind, Value};
use sqlite_items::Items;
use std::alloc::{AllocError, Global};

/// The chart in which variables have what variables were at the end of the tick before. Err: memory was refused, or
/// there are more than 65535 variables.
pub fn with_registers(alloc: Global, chart: ExtendedChart) -> Result<ExtendedChart, AllocError>
    ensures { IfOk result (λ made. made ≡ with_registers chart) }
{
    let mut chart = chart;
    match put_registers(alloc, &mut chart) {
        Ok(()) => Ok(chart),
        Err(error) => {
            drop(chart);
            Err(error)
        }
    }
}

// The chart is behind a reference, so that no `?` has to drop its parts.
fn put_registers(alloc: Global, chart: &mut ExtendedChart) -> Result<(), AllocError>
    ensures { OnOk result (chart.new ≡ with_registers chart.old) }
{
    if !has_some(chart.befores.as_slice()) {
        return Ok(());
    }
    let befores = chart.befores.as_slice();
    let declared = chart.variables.as_slice();
    put_register_region(alloc, declared.len(), befores, &mut chart.regions)?;
    let mut made = Items::new(alloc);
    put_before_variables(declared, befores, &mut made)?;
    put_register_variables(declared, befores, &mut made)?;
    chart.variables.append(made)?;
    chart.befores = Items::new(alloc);
    Ok(())
}

fn kind_of(variables: &[Declared], x: VariableId) -> Kind
    ensures { result ≡ kind_of (slice_get variables.now x) }
{
    match variables.get(x as usize) {
        Some(declared) => declared.variable.kind,
        None => Kind::Int,
    }
}

fn initial_of(variables: &[Declared], x: VariableId) -> Option<Value>
    ensures { result ≡ initial_of (slice_get variables.now x) }
{
    match variables.get(x as usize) {
        Some(declared) => declared.initial,
        None => None,
    }
}

fn put_before_variables(
    variables: &[Declared],
    befores: &[VariableId],
    made: &mut Items<Declared>,
) -> Result<(), AllocError>
    ensures { OnOk result (made.new ≡ made.old ++ before_variables variables.now 1 befores.now) }
{
    let mut number = 1;
    for x in befores {
        let kind = kind_of(variables, *x);
        made.push(local(
            numbered("pre__", number as u64),
            kind,
            initial_of(variables, *x),
        ))?;
        number = next(number)?;
    }
    Ok(())
}

fn put_register_variables(
    variables: &[Declared],
    befores: &[VariableId],
    made: &mut Items<Declared>,
) -> Result<(), AllocError>
    ensures { OnOk result (made.new ≡ made.old ++ registers variables.now 1 befores.now) }
{
    let mut number = 1;
    for x in befores {
        made.push(local(
            numbered("register__", number as u64),
            kind_of(variables, *x),
            None,
        ))?;
        number = next(number)?;
    }
    Ok(())
}

// Puts that each register becomes what its variable is.
fn put_storing(
    first: usize,
    befores: &[VariableId],
    made: &mut Items<Effect>,
) -> Result<(), AllocError>
    ensures { OnOk result (made.new ≡ made.old ++ storing first befores.now) }
{
    let mut register = first;
    for x in befores {
        made.push(copy(variable(register)?, *x))?;
        register += 1;
    }
    Ok(())
}

// Puts that as many variables become what their registers are.
fn put_handing(
    first: usize,
    registers: usize,
    befores: &[VariableId],
    made: &mut Items<Effect>,
) -> Result<(), AllocError>
    ensures { OnOk result (made.new ≡ made.old ++ handing first registers befores.now) }
{
    let mut before = first;
    let mut register = registers;
    for _ in befores {
        made.push(copy(variable(before)?, variable(register)?))?;
        before += 1;
        register += 1;
    }
    Ok(())
}

fn put_register_region(
    alloc: Global,
    variables: usize,
    befores: &[VariableId],
    made: &mut Items<ExtendedRegion>,
) -> Result<(), AllocError>
    ensures { OnOk result (made.new ≡ made.old ++ register_region variables befores.now ∷ []) }
{
    let mut states = Items::new(alloc);
    put_register_states(alloc, variables, befores, &mut states)?;
    made.push(ExtendedRegion {
        name: plain("registers__1"),
        states,
    })
}

fn put_register_states(
    alloc: Global,
    variables: usize,
    befores: &[VariableId],
    made: &mut Items<ExtendedState>,
) -> Result<(), AllocError>
    ensures { OnOk result (made.new ≡ made.old ++ register_states variables befores.now) }
{
    let first = variable(variables)?;
    let mut stored = Items::new(alloc);
    put_storing(first as usize + befores.len(), befores, &mut stored)?;
    put_handing_ring(alloc, first, befores, stored.as_slice(), made)
}

// Puts the states that store, and hand over to the variables from this one on.
fn put_handing_ring(
    alloc: Global,
    first: VariableId,
    befores: &[VariableId],
    stored: &[Effect],
    made: &mut Items<ExtendedState>,
) -> Result<(), AllocError>
    ensures { OnOk result (made.new ≡ made.old
        ++ ring (length befores.now) stored.now (handing first (first + length befores.now) befores.now)) }
{
    let count = count(befores)?;
    let before = first as usize;
    let mut handed = Items::new(alloc);
    put_handing(before, before + befores.len(), befores, &mut handed)?;
    put_ring(alloc, count, stored, handed.as_slice(), made)
}

fn put_ring(
    alloc: Global,
    count: u32,
    stored: &[Effect],
    handed: &[Effect],
    made: &mut Items<ExtendedState>,
) -> Result<(), AllocError>
    ensures { OnOk result (made.new ≡ made.old ++ ring count stored.now handed.now) }
{
    let behind = next(count)?;
    let last = sum(behind, count)?;
    put_all_passing(alloc, 0, stored, made)?;
    put_passing(alloc, false, count, behind, made)?;
    put_all_passing(alloc, behind, handed, made)?;
    put_passing(alloc, true, last, 0, made)
}
