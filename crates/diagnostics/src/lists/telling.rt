//! The report of a fault, and behind it those of the other flaws.

ghost use Rattle.std.specs.Prelude.{◌≡◌, IfOk, drop, string_bytes};
ghost use Rattle.diagnostics.specs.Reports.{Tells, TellsPlace, text_fault};
ghost use Rattle.diagnostics.specs.ListReports.{AreReports, TellsAll, TellsEach, TellsFurther};

use crate::lists::flaws::flaws_of;
use crate::{explained, text_fault_explained};
use sc_text::{Flaw, ReadFault};
use std::alloc::{AllocError, Global};

/// Why a text is refused, for people: the report of its fault, as `text_fault_explained` says it, and, where the text
/// spells a chart, an extended chart or an SCL program, behind it those of the other flaws of its draft, in the order
/// of the text, twenty in all at most. Err: memory was refused to the explanation.
#[tactic(auto, using(crate::proofs::Joining::each_so, crate::proofs::Joining::memory_so))]
pub fn faults_explained(
    alloc: Global,
    name: &str,
    text: &str,
    fault: &ReadFault,
) -> Result<String, AllocError>
    ensures begins { IfOk result (λ report. Tells name.now (text_fault fault.now) (string_bytes report)) }
    ensures place { IfOk result (λ report. TellsPlace name.now text.now fault.now (string_bytes report)) }
    ensures each { IfOk result (λ report. TellsEach name.now text.now fault.now (string_bytes report)) }
{
    match fault {
        ReadFault::Text(_, _) => {
            let report = all_explained(alloc, name, text, fault)?;
            Ok(report)
        }
        ReadFault::Memory => {
            let report = text_fault_explained(alloc, name, text, fault)?;
            Ok(report)
        }
    }
}

// The report of a fault, and what else is told of the text.
#[tactic(auto, using(crate::proofs::Joining::begins_so, crate::proofs::Joining::stands_so, crate::proofs::Joining::all_so))]
fn all_explained(
    alloc: Global,
    name: &str,
    text: &str,
    fault: &ReadFault,
) -> Result<String, AllocError>
    ensures begins { IfOk result (λ report. Tells name.now (text_fault fault.now) (string_bytes report)) }
    ensures place { IfOk result (λ report. TellsPlace name.now text.now fault.now (string_bytes report)) }
    ensures all { IfOk result (λ report. TellsAll name.now text.now fault.now (string_bytes report)) }
{
    let mut report = text_fault_explained(alloc, name, text, fault)?;
    let others = further_told(alloc, name, text)?;
    report.push_str(others.as_str())?;
    Ok(report)
}

// What is told of a text behind its fault.
#[tactic(auto, using(crate::proofs::Joining::further_so))]
fn further_told(alloc: Global, name: &str, text: &str) -> Result<String, AllocError>
    ensures { IfOk result (λ told. TellsFurther name.now text.now (string_bytes told)) }
{
    let flaws = flaws_of(alloc, text)?;
    let others = behind_first(flaws.as_slice());
    let told = tell_all(alloc, name, text, others)?;
    Ok(told)
}

fn behind_first(flaws: &[Flaw]) -> &[Flaw]
    ensures { result.now ≡ drop 1 flaws.now }
{
    match flaws {
        [] => &[],
        [_, others @ ..] => others,
    }
}

// The reports of these flaws, one behind the other.
#[tactic(auto, using(crate::proofs::Joining::begins, crate::proofs::Joining::more_told, crate::proofs::Joining::all_told))]
fn tell_all(alloc: Global, name: &str, text: &str, flaws: &[Flaw]) -> Result<String, AllocError>
    ensures { IfOk result (λ told. AreReports name.now text.now flaws.now (string_bytes told)) }
{
    let mut told = String::new(alloc);
    for flaw in flaws {
        let report = explained(alloc, name, text, flaw.broken, flaw.at)?;
        told.push_str(report.as_str())?;
    }
    Ok(told)
}
