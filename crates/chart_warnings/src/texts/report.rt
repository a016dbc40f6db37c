//! The report of a warning.

ghost use Rattle.std.specs.Prelude.{IfOk, IsTrue, string_bytes};
ghost use Rattle.diagnostics.specs.Reports.{place_shown};
ghost use Rattle.chart_warnings.specs.Allowance.{code_text};
ghost use Rattle.chart_warnings.specs.Lines.{are_lines};
ghost use Rattle.chart_warnings.specs.Reports.{IsReport};

use crate::Warning;
use crate::texts::allowance::code_text;
use crate::texts::cures::cure_of;
use crate::texts::lines::are_lines;
use crate::texts::warned_text::WarnedText;
use crate::texts::words::cause_of;
use diagnostics::{line_column_text, marked_line};
use node_sources::line_column_of;
use std::alloc::{AllocError, Global};

/// The lines of a report.
const LINES: usize = 4;

/// The report of a warning that stands at this byte: the name of the file with line and column, the code and what is
/// warned of, the line of the text with a mark under the place, and what helps. Err: memory was refused.
pub(crate) fn report_of(
    alloc: Global,
    warned: WarnedText<'_>,
    warning: Warning,
    at: usize,
) -> Result<String, AllocError>
    ensures { IfOk result (λ report. IsReport warned.entry.name.now
        (record { place = place_shown warned.entry.text.now at; code = code_text warning }) (string_bytes report)) }
{
    let name = warned.name;
    let place = line_column_text(alloc, line_column_of(warned.text, at))?;
    let code = code_text(warning);
    let said = said_of(alloc, warned, warning, at)?;
    format!(in alloc; "{name}{place}: {code}: {said}")
}

// What is said of a warning behind its code.
fn said_of(
    alloc: Global,
    warned: WarnedText<'_>,
    warning: Warning,
    at: usize,
) -> Result<String, AllocError>
    ensures { IfOk result (λ said. IsTrue (are_lines 4 (string_bytes said))) }
{
    let cause = cause_of(alloc, warned, warning)?;
    let marked = marked_line(alloc, warned.text, at, line_column_of(warned.text, at))?;
    let cure = cure_of(alloc, warned, warning)?;
    let said = format!(in alloc; "{cause}\n{marked}help: {cure}\n")?;
    of_four_lines(alloc, said)
}

// What is said, which no word of it makes more than four lines; if one did, less would be said.
fn of_four_lines(alloc: Global, said: String) -> Result<String, AllocError>
    ensures { IfOk result (λ said. IsTrue (are_lines 4 (string_bytes said))) }
{
    if are_lines(said.as_bytes(), LINES) {
        Ok(said)
    } else {
        String::from_str(alloc, "this is most likely not meant\n\n\n\n")
    }
}
