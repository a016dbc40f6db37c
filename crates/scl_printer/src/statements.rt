//! Writing statements, each on lines of its own.

ghost use Rattle.std.specs.Prelude.{map};
ghost use Rattle.scl.specs.Rules.{in_row, part_of};
ghost use Rattle.scl_printer.specs.Layout.{statement_text, statements_text};
ghost use Rattle.scl_printer.specs.Inside.Levels.{HasLevels};
ghost use Rattle.scl_printer.specs.Inside.Writing.{Writes, page};

use crate::buffered::Buffered;
use crate::lines::{
    has_any, write_assignment, write_goto, write_label, write_line, write_line_if, write_test,
};
use sc_graph::Variable;
use sc_values::Sink;
use scl::Statement;

/// Writes statements that stand on this level.
#[cycle(writing)]
pub(crate) fn write_statements<W: Sink>(
    buffered: &mut Buffered,
    sink: &mut W,
    variables: &[Variable],
    statements: &[Statement],
    level: usize,
)
    requires { HasLevels level (in_row (map part_of statements.now)) }
    ensures { Writes (page (W.taken sink.old) (W.failures sink.old) buffered.old)
        (page (W.taken sink.new) (W.failures sink.new) buffered.new)
        (statements_text variables.now statements.now level) }
{
    for statement in statements {
        write_statement(buffered, sink, variables, statement, level);
    }
}

// Writes a statement that stands on this level.
#[cycle(writing)]
fn write_statement<W: Sink>(
    buffered: &mut Buffered,
    sink: &mut W,
    variables: &[Variable],
    statement: &Statement,
    level: usize,
)
    requires { HasLevels level (part_of statement.now) }
    ensures { Writes (page (W.taken sink.old) (W.failures sink.old) buffered.old)
        (page (W.taken sink.new) (W.failures sink.new) buffered.new)
        (statement_text variables.now statement.now level) }
{
    match statement {
        Statement::Assign { variable, value } => {
            write_assignment(buffered, sink, variables, *variable, value, level)
        }
        Statement::Label(name) => write_label(buffered, sink, name, level),
        Statement::Goto(name) => write_goto(buffered, sink, name, level),
        Statement::Pause => write_line(buffered, sink, "pause;", level),
        Statement::If {
            test,
            first,
            second,
        } => {
            write_test(buffered, sink, variables, test, level);
            write_statements(buffered, sink, variables, first.as_slice(), level + 1);
            write_line_if(
                buffered,
                sink,
                has_any(second.as_slice()),
                "} else {",
                level,
            );
            write_statements(buffered, sink, variables, second.as_slice(), level + 1);
            write_line(buffered, sink, "}", level);
        }
        Statement::Fork { branches } => {
            let mut opening = "fork {";
            for branch in branches.as_slice() {
                write_line(buffered, sink, opening, level);
                write_statements(buffered, sink, variables, branch.as_slice(), level + 1);
                opening = "} par {";
            }
            write_line(buffered, sink, "} join;", level);
        }
    }
}
