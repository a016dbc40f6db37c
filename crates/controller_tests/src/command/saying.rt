//! What is said of a test that fails.

ghost use Rattle.std.specs.Prelude.{◌≡◌, ◌++◌, IfOk, OnOk, codes, string_bytes};
ghost use Rattle.command_files.specs.FaultText.{fault_text, shown_name};
ghost use Rattle.controller_tests.specs.Inside.Saying.{SaysDifference};
ghost use Rattle.controller_tests.specs.States.{IsReal};
ghost use Rattle.controller_tests.specs.Verdict.{ticks_name, trace_name};
ghost use Rattle.controller_tests.specs.Told.{IsToldOf};
ghost use Rattle.trace_player.specs.FaultText.{play_fault_text};

use crate::command::loading::Test;
use crate::command::states::active_said;
use crate::{Difference, beside, difference_told};
use command_files::{LoadFault, shown_name};
use std::alloc::{AllocError, Global};
use trace_player::PlayFault;

// What is said of the line in which a trace differs.
fn line_said(alloc: Global, name: &str, difference: &Difference) -> Result<String, AllocError>
    ensures { IfOk result (λ said. IsToldOf (shown_name (trace_name name.now)) difference.now (string_bytes said)) }
{
    let trace_name = beside(alloc, name, ".trace")?;
    let shown = shown_name(alloc, trace_name.as_str())?;
    difference_told(alloc, shown.as_str(), difference)
}

/// What is said of a trace that differs, and which states are active there.
pub(crate) fn difference_said(
    alloc: Global,
    name: &str,
    test: &Test,
    difference: &Difference,
) -> Result<String, AllocError>
    ensures { IfOk result (λ said. SaysDifference name.now
        test.now.bytes.items test.now.image test.now.ticks.items difference.now (string_bytes said)) }
{
    let mut said = line_said(alloc, name, difference)?;
    let active = active_said(alloc, name, test, difference.line)?;
    said.push_str(active.as_str())?;
    Ok(said)
}

/// What is said of a line of the ticks that ends a trace.
pub(crate) fn fault_said(alloc: Global, name: &str, fault: PlayFault) -> Result<String, AllocError>
    ensures { IfOk result (λ said. string_bytes said
        ≡ shown_name (ticks_name name.now) ++ (codes ": " ++ (play_fault_text fault ++ codes "\n"))) }
{
    let ticks_name = beside(alloc, name, ".ticks")?;
    let shown = shown_name(alloc, ticks_name.as_str())?;
    format!(in alloc; "{shown}: {fault}\n")
}

/// The text of a fault. Err: it is that memory was refused.
pub(crate) fn real_text(alloc: Global, fault: &LoadFault) -> Result<String, AllocError>
    ensures text { IfOk result (λ text. string_bytes text ≡ fault_text fault.now) }
    ensures real { OnOk result (IsReal fault.now) }
{
    let text = format!(in alloc; "{fault}")?;
    if text.as_str() == "E52" {
        return Err(AllocError);
    }
    Ok(text)
}

/// What is said where there is no test. Err: memory was refused.
pub(crate) fn lack_said(alloc: Global, name: &str, fault: &LoadFault) -> Result<String, AllocError>
    ensures said { IfOk result (λ said. string_bytes said
        ≡ shown_name name.now ++ (codes ": " ++ (fault_text fault.now ++ codes "\n"))) }
    ensures real { OnOk result (IsReal fault.now) }
{
    let text = real_text(alloc, fault)?;
    let shown = shown_name(alloc, name)?;
    format!(in alloc; "{shown}: {text}\n")
}
