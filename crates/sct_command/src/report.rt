//! What is said of the fault for which a text has no image.

ghost use Rattle.std.specs.Prelude.{◌≡◌, IfOk, string_bytes};
ghost use Rattle.std.specs.Str.{IsUtf8};
ghost use Rattle.compiler.specs.FaultText.{fault_text};
ghost use Rattle.diagnostics.specs.Reports.{Tells, text_fault};
ghost use Rattle.diagnostics.specs.ListReports.{TellsEach};
ghost use Rattle.sct_command.specs.Explaining.{IsReport, TellsEachFlaw, told_fault};

use chart_texts::begins_extended;
use command_files::{LoadFault, shown_name};
use compiler::{CompileFault, ReadSource};
use diagnostics::{author_fault_told, faults_explained, program_fault_told, told_nowhere};
use sc_text::ReadFault;
use std::alloc::{AllocError, Global};
use std::str;

// What is said of bytes that are no text.
fn without_text(alloc: Global, name: &str, fault: &ReadFault) -> Result<String, AllocError>
    ensures { IfOk result (λ report. Tells name.now (text_fault fault.now) (string_bytes report)) }
{
    match fault {
        ReadFault::Text(broken, _) => {
            let number = broken.number();
            let fault = format!(in alloc; "E0{number}")?;
            told_nowhere(
                alloc,
                name,
                fault.as_str(),
                "the bytes of this file are no text\nhelp: save it as UTF-8",
            )
        }
        ReadFault::Memory => told_nowhere(alloc, name, "E52", "memory was refused"),
    }
}

// What is said of the fault of these bytes, where they are a text each flaw of it.
fn flaws_told(
    alloc: Global,
    name: &str,
    bytes: &[u8],
    fault: &ReadFault,
) -> Result<String, AllocError>
    ensures tells { IfOk result (λ report. Tells name.now (text_fault fault.now) (string_bytes report)) }
    ensures flaws { IfOk result (λ report.
        IsUtf8 bytes.now → TellsEach name.now bytes.now fault.now (string_bytes report)) }
{
    match str::from_utf8(bytes) {
        Ok(text) => faults_explained(alloc, name, text, fault),
        Err(_) => without_text(alloc, name, fault),
    }
}

// The text of the extended chart that is written there. None: something else is.
fn author_text(written: &[u8]) -> Option<&str> {
    if !begins_extended(written) {
        return None;
    }
    match str::from_utf8(written) {
        Ok(text) => Some(text),
        Err(_) => None,
    }
}

// What is said of the fault of a program: in the text of the extended chart of its author, where that is written there.
fn program_told(
    alloc: Global,
    name: &str,
    written: &[u8],
    fault: &CompileFault,
    source: Option<&ReadSource<'_>>,
) -> Result<String, AllocError>
    ensures { IfOk result (λ report. Tells name.now (fault_text fault.now) (string_bytes report)) }
{
    match author_text(written) {
        Some(text) => author_fault_told(alloc, name, text, fault),
        None => program_fault_told(alloc, name, source, fault),
    }
}

// What is said of the fault of these bytes, and where they were read as a text by that.
fn explanation(
    alloc: Global,
    name: &str,
    bytes: &[u8],
    written: &[u8],
    fault: &LoadFault,
    source: Option<&ReadSource<'_>>,
) -> Result<String, AllocError>
    ensures tells { IfOk result (λ report. Tells name.now (told_fault fault.now) (string_bytes report)) }
    ensures flaws { IfOk result (λ report. TellsEachFlaw name.now bytes.now fault.now (string_bytes report)) }
{
    match fault {
        LoadFault::Text(fault) => flaws_told(alloc, name, bytes, fault),
        LoadFault::Program(fault) => program_told(alloc, name, written, fault, source),
        LoadFault::File(_) => told_nowhere(
            alloc,
            name,
            "E64",
            "the file cannot be read\nhelp: look at its name, and at who may read it",
        ),
        _ => told_nowhere(alloc, name, "E52", "memory was refused"),
    }
}

/// What is said of the fault of these bytes, which are those of the file of this name; where they were read as a text
/// with a program, by what was read; and where the text of an extended chart stands in the file, which is reduced to
/// that, in this. Err: memory was refused.
pub(crate) fn report_of(
    alloc: Global,
    name: &str,
    bytes: &[u8],
    written: &[u8],
    fault: &LoadFault,
    source: Option<&ReadSource<'_>>,
) -> Result<String, AllocError>
    ensures { IfOk result (λ report. IsReport name.now bytes.now fault.now (string_bytes report)) }
{
    let shown = shown_name(alloc, name)?;
    explanation(alloc, shown.as_str(), bytes, written, fault, source)
}
