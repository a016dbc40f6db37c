//! Signals: variables that are false in each tick until they are emitted.

ghost use Rattle.std.specs.Prelude.{◌≡◌, [], ◌∷◌, ◌++◌, IfOk, OnOk};
ghost use Rattle.extended_charts.specs.Signals.{emission, reset, resets, signal_states, signal_region, with_signals};

use crate::extended::{ExtendedChart, ExtendedRegion, ExtendedState};
use crate::making::{count, has_some, passing, put_all_passing};
use core_charts::{Effect, next};
use sc_graph::VariableId;
use sc_text::plain;
use sc_values::{BinaryOperator, Expr, Value};
use sqlite_items::{Boxed, Items};
use std::alloc::{AllocError, Global};

/// The chart in which signals are variables like others, which a region makes false as each tick begins. Err: memory
/// was refused.
pub fn with_signals(alloc: Global, chart: ExtendedChart) -> Result<ExtendedChart, AllocError>
    ensures { IfOk result (λ made. made ≡ with_signals chart) }
{
    let mut chart = chart;
    put_signals(alloc, &mut chart)?;
    Ok(chart)
}

// The chart is behind a reference, so that no `?` has to drop its parts.
fn put_signals(alloc: Global, chart: &mut ExtendedChart) -> Result<(), AllocError>
    ensures { OnOk result (chart.new ≡ with_signals chart.old) }
{
    if !has_some(chart.signals.as_slice()) {
        return Ok(());
    }
    put_signal_region(alloc, chart.signals.as_slice(), &mut chart.regions)?;
    chart.signals = Items::new(alloc);
    Ok(())
}

/// The effect that emits a signal. Err: memory was refused.
pub fn emission(alloc: Global, signal: VariableId) -> Result<Effect, AllocError>
    ensures { IfOk result (λ made. made ≡ emission signal) }
{
    let before = Boxed::new(alloc, Expr::Load(signal))?;
    let emitted = Boxed::new(alloc, Expr::Literal(Value::Bool(true)))?;
    Ok(Effect {
        variable: signal,
        value: Expr::Binary(BinaryOperator::Or, before, emitted),
    })
}

/// The signal becomes false.
pub fn reset(signal: VariableId) -> Effect
    ensures { result ≡ reset signal }
{
    Effect {
        variable: signal,
        value: Expr::Literal(Value::Bool(false)),
    }
}

fn put_resets(signals: &[VariableId], made: &mut Items<Effect>) -> Result<(), AllocError>
    ensures { OnOk result (made.new ≡ made.old ++ resets signals.now) }
{
    for signal in signals {
        made.push(reset(*signal))?;
    }
    Ok(())
}

// Puts the states that wait for the next tick, make the signals false, and begin anew.
fn put_signal_states(
    alloc: Global,
    signals: &[VariableId],
    made: &mut Items<ExtendedState>,
) -> Result<(), AllocError>
    ensures { OnOk result (made.new ≡ made.old ++ signal_states signals.now) }
{
    let last = next(count(signals)?)?;
    let mut resets = Items::new(alloc);
    put_resets(signals, &mut resets)?;
    made.push(passing(alloc, false, 0, Items::new(alloc), 1)?)?;
    put_all_passing(alloc, 1, resets.as_slice(), made)?;
    made.push(passing(alloc, true, last, Items::new(alloc), 0)?)
}

// Puts the region that makes the signals false as each tick begins, but the first.
fn put_signal_region(
    alloc: Global,
    signals: &[VariableId],
    made: &mut Items<ExtendedRegion>,
) -> Result<(), AllocError>
    ensures { OnOk result (made.new ≡ made.old ++ signal_region signals.now ∷ []) }
{
    let mut states = Items::new(alloc);
    put_signal_states(alloc, signals, &mut states)?;
    made.push(ExtendedRegion {
        name: plain("signals__1"),
        states,
    })
}
