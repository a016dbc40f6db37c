//! What a line makes of a configuration.

ghost use Rattle.std.specs.Prelude.{◌≡◌, IfOk};
ghost use Rattle.std.specs.Result.{IsErrOf};
ghost use Rattle.sc_graph.specs.Tick.{Rests, AreAccepted};
ghost use Rattle.trace_player.specs.Trace.{GivesNoInputs, IsNoObject, Reacts};
ghost use Rattle.simulation.specs.History.{Leads};

use std::alloc::Global;
use tick_core::{BeginFault, Control, Inputs, begin};
use trace_lines::{Interface, LINE_LIMIT, LineFault};
use verifier::Verified;

// One tick from a configuration: the one after it, and the number of steps.
fn tick(
    alloc: Global,
    verified: &Verified,
    control: &Control,
    inputs: &Inputs,
) -> Result<(Control, u64), BeginFault>
    requires rests { Rests verified.now.program control.now }
    ensures rests { IfOk result (λ r. Rests verified.now.program r.0) }
    ensures reacts { IfOk result (λ r. Reacts verified.now inputs.now control.now r.0 r.1) }
    ensures refused { IsErrOf result BeginFault.Input → ¬ AreAccepted verified.now.program inputs.now }
{
    let mut state = begin(alloc, verified, control, inputs)?;
    state.run_alone();
    let steps = state.history().len() as u64;
    let (control, room) = state.hand_over();
    drop(room);
    Ok((control, steps))
}

/// The configuration to which the tick of a line leads from this one.
pub(crate) fn react(
    alloc: Global,
    verified: &Verified,
    interface: &Interface<'_>,
    control: &Control,
    line: &[u8],
) -> Result<Control, LineFault>
    requires interface { interface.now ≡ verified.now.program.variables }
    requires rests { Rests verified.now.program control.now }
    ensures leads { IfOk result (Leads verified.now control.now line.now) }
    ensures not_json { IsErrOf result LineFault.NotJson → IsNoObject line.now }
    ensures input { IsErrOf result LineFault.Input → GivesNoInputs verified.now.program line.now }
{
    if line.len() > LINE_LIMIT {
        return Err(LineFault::NotJson);
    }
    let inputs = interface.read_line(alloc, line)?;
    let ticked = tick(alloc, verified, control, &inputs);
    drop(inputs);
    match ticked {
        Ok((after, _steps)) => Ok(after),
        Err(BeginFault::Memory) => Err(LineFault::Memory),
        Err(BeginFault::Input) => Err(LineFault::Input),
    }
}
