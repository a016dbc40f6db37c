//! What is said of a fault in words.

ghost use Rattle.std.specs.Prelude.{◌≡◌, ◌++◌, [], IfOk, codes, string_bytes};
ghost use Rattle.command_files.specs.FaultText.{fault_text};
ghost use Rattle.diagnostics.specs.Reports.{Tells};
ghost use Rattle.trace_player.specs.FaultText.{play_fault_text};
ghost use Rattle.sct_command.specs.Words.{AreWords, StandsBehind, met_words};

use crate::fault::Fault;
use bytecode::DecodeFault;
use command_files::LoadFault;
use compiler::CompileFault;
use diagnostics::{program_fault_explained, told_nowhere};
use sc_text::{FaultKind, ReadFault};
use std::alloc::{AllocError, Global};
use trace_lines::{Cause, cause_words};
use trace_player::PlayFault;

// Whose words they are.
const SAYS: &str = "sct";

const MEMORY: &str = "memory was refused";

// What is wrong with bytes that are no image.
fn bytes_said(fault: DecodeFault) -> &'static str {
    match fault {
        DecodeFault::Short => {
            "too short for an image\nhelp: `sct compile` makes an image of a chart or an SCL text"
        }
        DecodeFault::Magic => {
            "no image begins so\nhelp: `sct compile` makes an image of a chart or an SCL text"
        }
        DecodeFault::Version => {
            "an image of a version that is not known here\nhelp: compile its source again"
        }
        DecodeFault::Trailing => "more bytes than an image has\nhelp: compile its source again",
        DecodeFault::Field(_) => {
            "a field of the image holds what it never holds\nhelp: compile its source again"
        }
        DecodeFault::Memory => MEMORY,
    }
}

// What is wrong with a text.
fn text_said(fault: &ReadFault) -> &'static str {
    match fault {
        ReadFault::Text(FaultKind::Token, _) => {
            "nothing of the language begins at this byte\nhelp: `sct explain` shows the place in a chart or an SCL text"
        }
        ReadFault::Text(FaultKind::Grammar, _) => {
            "the text cannot go on so at this byte\nhelp: `sct explain` shows the place in a chart or an SCL text"
        }
        ReadFault::Text(FaultKind::Unknown, _) => {
            "the name at this byte is not declared\nhelp: `sct explain` shows the place in a chart or an SCL text"
        }
        ReadFault::Text(FaultKind::Repeated, _) => {
            "the name at this byte stands twice\nhelp: `sct explain` shows the place in a chart or an SCL text"
        }
        ReadFault::Text(FaultKind::Kind, _) => {
            "what begins at this byte has another kind than its place wants\nhelp: `sct explain` shows the place in a chart or an SCL text"
        }
        ReadFault::Text(FaultKind::Rule, _) => {
            "a rule of the language is broken at this byte\nhelp: `sct explain` shows the place in a chart or an SCL text"
        }
        ReadFault::Text(FaultKind::Limit, _) => {
            "a limit is passed at this byte\nhelp: `sct explain` shows the place in a chart or an SCL text"
        }
        ReadFault::Memory => MEMORY,
    }
}

// What is wrong with a file.
fn file_said(fault: &LoadFault) -> &'static str {
    match fault {
        LoadFault::Image(fault) => bytes_said(*fault),
        LoadFault::Text(fault) => text_said(fault),
        LoadFault::File(_) => {
            "it cannot be read, or not be written\nhelp: look at the name, and at who may read and write there"
        }
        LoadFault::Source(_) => {
            "the text in it does not make the image\nhelp: take the one that the image was compiled from"
        }
        _ => MEMORY,
    }
}

// What is wrong where an input was not played to its end, and no more is known.
fn play_said(fault: PlayFault) -> &'static str {
    match fault {
        PlayFault::Input(_) => {
            "a member of this line names no input, or has a value that the input does not take; or, with `--strict`, an input is not named"
        }
        PlayFault::Memory => MEMORY,
        PlayFault::Read => "standard input failed",
        PlayFault::NotJson(_) => "this line is no JSON object, or is longer than 65,536 bytes",
        PlayFault::Write => "standard output failed, or took no byte",
    }
}

// The words for a fault of a file.
fn file_words(alloc: Global, fault: &LoadFault) -> Result<String, AllocError>
    ensures { IfOk result (λ words. Tells (codes "sct") (fault_text fault.now) (string_bytes words)) }
{
    match fault {
        LoadFault::Program(fault) => program_fault_explained(alloc, SAYS, "", fault),
        LoadFault::Rule(refusal) => {
            program_fault_explained(alloc, SAYS, "", &CompileFault::Rule(*refusal))
        }
        fault => {
            let shown = format!(in alloc; "{fault}")?;
            told_nowhere(alloc, SAYS, shown.as_str(), file_said(fault))
        }
    }
}

// The words for a line of which more is not known.
fn play_words(alloc: Global, fault: PlayFault) -> Result<String, AllocError>
    ensures { IfOk result (λ words. Tells (codes "sct") (play_fault_text fault) (string_bytes words)) }
{
    let shown = format!(in alloc; "{fault}")?;
    told_nowhere(alloc, SAYS, shown.as_str(), play_said(fault))
}

// The words for a line, and what was met there.
fn line_words(alloc: Global, fault: PlayFault, cause: &Cause) -> Result<String, AllocError>
    ensures { IfOk result (λ words. string_bytes words ≡ met_words (play_fault_text fault) cause.now) }
{
    let met = cause_words(alloc, cause)?;
    format!(in alloc; "sct: {fault}: {met}\n")
}

// The words for a file that holds no place of an image.
fn place_words(alloc: Global, shown: &str) -> Result<String, AllocError>
    ensures { IfOk result (λ words. Tells (codes "sct") (codes "E67 " ++ shown.now) (string_bytes words)) }
{
    let text = format!(in alloc; "E67 {shown}")?;
    told_nowhere(
        alloc,
        SAYS,
        text.as_str(),
        "it holds no place at which this image can go on\nhelp: take what `sct run --save` wrote of the same image",
    )
}

// The words for a fault.
fn words_for(alloc: Global, fault: &Fault) -> Result<String, AllocError>
    ensures { IfOk result (λ words. AreWords fault.now (string_bytes words)) }
{
    match fault {
        Fault::Files(fault) => file_words(alloc, fault),
        Fault::Play(fault, Some(cause)) => line_words(alloc, *fault, cause),
        Fault::Play(fault, None) => play_words(alloc, *fault),
        Fault::Write => {
            told_nowhere(
                alloc,
                SAYS,
                "E63",
                "standard output failed, or took no byte",
            )
        }
        Fault::Tests => told_nowhere(
            alloc,
            SAYS,
            "E66",
            "a test failed: standard output tells which",
        ),
        Fault::Place(shown) => place_words(alloc, shown.as_str()),
    }
}

/// What stands behind the line of a fault: the words for it where they are wanted and memory is there for them.
pub(crate) fn behind_line(alloc: Global, fault: &Fault, wanted: bool) -> String
    ensures { StandsBehind fault.now wanted [] (string_bytes result) }
{
    if wanted {
        if let Ok(words) = words_for(alloc, fault) {
            return words;
        }
    }
    String::new(alloc)
}
