//! The whole report.

ghost use Rattle.std.specs.Prelude.{IfOk, ◌≡◌, ◌++◌, codes, string_bytes};
ghost use Rattle.std.specs.Fmt.{decimal};
ghost use Rattle.sc_text.specs.FaultText.{broken_number};
ghost use Rattle.diagnostics.specs.Reports.{Tells, TellsAt, TellsPlace, place_shown, text_fault};

use crate::lines::put_marked_line;
use crate::page::Page;
use crate::words::{Words, put_fault};
use node_sources::{LineColumn, line_column_of};
use sc_text::{FaultKind, ReadFault};
use std::alloc::{AllocError, Global};

/// A place as it stands behind the name of a file: its line and its column. Err: memory was refused.
pub fn line_column_text(alloc: Global, line_column: LineColumn) -> Result<String, AllocError>
    ensures { IfOk result (λ text.
        string_bytes text ≡ codes ":" ++ (decimal line_column.line ++ (codes ":" ++ decimal line_column.column))) }
{
    let line = line_column.line;
    let column = line_column.column;
    format!(in alloc; ":{line}:{column}")
}

/// Adds the line of what helps, where something does.
pub(crate) fn put_help(page: &mut Page, cure: &str) {
    if !cure.is_empty() {
        page.put_filled("help: @\n", cure);
    }
}

// The same of what is written on another page.
fn put_help_of(page: &mut Page, cure: &Page) {
    match cure.written() {
        Ok(cure) => put_help(page, cure),
        Err(_) => page.refuse(),
    }
}

// What stands behind the number of a fault of a reader: what is wrong, the line of the text with a mark below the
// place, and what helps.
fn said(
    alloc: Global,
    text: &str,
    broken: FaultKind,
    at: usize,
    line_column: LineColumn,
) -> Result<String, AllocError> {
    let mut words = Words::none(alloc);
    put_fault(alloc, &mut words, text, broken, at);
    let Words { mut cause, cure } = words;
    cause.put("\n");
    put_marked_line(&mut cause, text, at, line_column);
    put_help_of(&mut cause, &cure);
    drop(cure);
    cause.finish()
}

/// A fault of a reader for people: the name of the file with line and column, the number of the fault and what is
/// wrong, the line of the text with a mark under the place, and what helps. The place is that of a byte, from 0; the
/// length of the text is its end. Err: memory was refused.
pub fn explained(
    alloc: Global,
    name: &str,
    text: &str,
    broken: FaultKind,
    at: usize,
) -> Result<String, AllocError>
    ensures begins { IfOk result (λ report.
        Tells name.now (codes "E0" ++ decimal (broken_number broken)) (string_bytes report)) }
    ensures place { IfOk result (λ report.
        TellsAt name.now (place_shown text.now at) (codes "E0" ++ decimal (broken_number broken)) (string_bytes report)) }
{
    let line_column = line_column_of(text, at);
    let number = broken.number();
    let said = said(alloc, text, broken, at, line_column)?;
    let place = line_column_text(alloc, line_column)?;
    format!(in alloc; "{name}{place}: E0{number}: {said}")
}

/// A fault for people of which no place is known: the name of the file, the fault, and what is said of it. Err: memory
/// was refused.
pub fn told_nowhere(
    alloc: Global,
    name: &str,
    fault: &str,
    said: &str,
) -> Result<String, AllocError>
    ensures { IfOk result (λ report. Tells name.now fault.now (string_bytes report)) }
{
    format!(in alloc; "{name}: {fault}: {said}\n")
}

/// Why a text is refused, for people: as `explained` says it. Where memory was refused there is no place. Err: memory
/// was refused to the explanation.
pub fn text_fault_explained(
    alloc: Global,
    name: &str,
    text: &str,
    fault: &ReadFault,
) -> Result<String, AllocError>
    ensures begins { IfOk result (λ report. Tells name.now (text_fault fault.now) (string_bytes report)) }
    ensures place { IfOk result (λ report. TellsPlace name.now text.now fault.now (string_bytes report)) }
{
    match fault {
        ReadFault::Text(broken, at) => explained(alloc, name, text, *broken, *at),
        ReadFault::Memory => told_nowhere(alloc, name, "E52", "memory was refused"),
    }
}
