//! Writing a line.

ghost use Rattle.std.specs.Prelude.{◌≡◌, ◌++◌, codes};
ghost use Rattle.scl_printer.specs.Expressions.{variable_text, expression_text};
ghost use Rattle.scl_printer.specs.Layout.{indentation, line, role_prefix, kind_prefix, declaration_text};
ghost use Rattle.scl_printer.specs.Inside.Writing.{Writes, page, when, has_any};

use crate::buffered::Buffered;
use crate::expressions::{variable_text, write_expression};
use sc_graph::{Role, Variable, VariableId};
use sc_values::{Expr, Kind, Name, Sink};
use scl::Statement;

// Writes two spaces for each level.
fn indent<W: Sink>(buffered: &mut Buffered, sink: &mut W, level: usize)
    ensures { Writes (page (W.taken sink.old) (W.failures sink.old) buffered.old)
        (page (W.taken sink.new) (W.failures sink.new) buffered.new) (indentation level) }
{
    for _ in 0..level {
        buffered.put_text(sink, "  ");
    }
}

/// Writes a line of this text.
pub(crate) fn write_line<W: Sink>(buffered: &mut Buffered, sink: &mut W, text: &str, level: usize)
    ensures { Writes (page (W.taken sink.old) (W.failures sink.old) buffered.old)
        (page (W.taken sink.new) (W.failures sink.new) buffered.new) (line text.now level) }
{
    indent(buffered, sink, level);
    buffered.put_text(sink, text);
    buffered.put_text(sink, "\n");
}

/// Writes a line of this text where the condition holds.
pub(crate) fn write_line_if<W: Sink>(
    buffered: &mut Buffered,
    sink: &mut W,
    condition: bool,
    text: &str,
    level: usize,
)
    ensures { Writes (page (W.taken sink.old) (W.failures sink.old) buffered.old)
        (page (W.taken sink.new) (W.failures sink.new) buffered.new) (when condition (line text.now level)) }
{
    if condition {
        write_line(buffered, sink, text, level);
    }
}

/// Writes the line by which a variable becomes the value of an expression.
pub(crate) fn write_assignment<W: Sink>(
    buffered: &mut Buffered,
    sink: &mut W,
    variables: &[Variable],
    variable: VariableId,
    value: &Expr,
    level: usize,
)
    ensures { Writes (page (W.taken sink.old) (W.failures sink.old) buffered.old)
        (page (W.taken sink.new) (W.failures sink.new) buffered.new)
        (line (variable_text variables.now variable
        ++ (codes " = " ++ (expression_text variables.now value.now ++ codes ";"))) level) }
{
    indent(buffered, sink, level);
    buffered.put_text(sink, variable_text(variables, variable));
    buffered.put_text(sink, " = ");
    write_expression(buffered, sink, variables, value);
    buffered.put_text(sink, ";\n");
}

/// Writes the line that opens an if of this test.
pub(crate) fn write_test<W: Sink>(
    buffered: &mut Buffered,
    sink: &mut W,
    variables: &[Variable],
    test: &Expr,
    level: usize,
)
    ensures { Writes (page (W.taken sink.old) (W.failures sink.old) buffered.old)
        (page (W.taken sink.new) (W.failures sink.new) buffered.new)
        (line (codes "if (" ++ (expression_text variables.now test.now ++ codes ") {")) level) }
{
    indent(buffered, sink, level);
    buffered.put_text(sink, "if (");
    write_expression(buffered, sink, variables, test);
    buffered.put_text(sink, ") {\n");
}

/// Writes the line of a label.
pub(crate) fn write_label<W: Sink>(buffered: &mut Buffered, sink: &mut W, name: &Name, level: usize)
    ensures { Writes (page (W.taken sink.old) (W.failures sink.old) buffered.old)
        (page (W.taken sink.new) (W.failures sink.new) buffered.new) (line (name.now ++ codes ":") level) }
{
    indent(buffered, sink, level);
    buffered.put(sink, name.as_bytes());
    buffered.put_text(sink, ":\n");
}

/// Writes the line of a goto.
pub(crate) fn write_goto<W: Sink>(buffered: &mut Buffered, sink: &mut W, name: &Name, level: usize)
    ensures { Writes (page (W.taken sink.old) (W.failures sink.old) buffered.old)
        (page (W.taken sink.new) (W.failures sink.new) buffered.new)
        (line (codes "goto " ++ (name.now ++ codes ";")) level) }
{
    indent(buffered, sink, level);
    buffered.put_text(sink, "goto ");
    buffered.put(sink, name.as_bytes());
    buffered.put_text(sink, ";\n");
}

/// Writes the line that opens a program of this name.
pub(crate) fn write_head<W: Sink>(buffered: &mut Buffered, sink: &mut W, name: &Name)
    ensures { Writes (page (W.taken sink.old) (W.failures sink.old) buffered.old)
        (page (W.taken sink.new) (W.failures sink.new) buffered.new) (line (codes "scl " ++ (name.now ++ codes " {")) 0) }
{
    buffered.put_text(sink, "scl ");
    buffered.put(sink, name.as_bytes());
    buffered.put_text(sink, " {\n");
}

/// Writes the line that declares a variable.
pub(crate) fn write_declaration<W: Sink>(buffered: &mut Buffered, sink: &mut W, variable: &Variable)
    ensures { Writes (page (W.taken sink.old) (W.failures sink.old) buffered.old)
        (page (W.taken sink.new) (W.failures sink.new) buffered.new) (declaration_text variable.now) }
{
    indent(buffered, sink, 1);
    buffered.put_text(sink, role_prefix(variable.role));
    buffered.put_text(sink, kind_prefix(variable.kind));
    buffered.put(sink, variable.name.as_bytes());
    buffered.put_text(sink, ";\n");
}

/// What a variable is to the outside, and a space behind it.
pub fn role_prefix(role: Role) -> &'static str
    ensures { result.now ≡ role_prefix role }
{
    match role {
        Role::Input => "input ",
        Role::Output => "output ",
        Role::Local => "local ",
    }
}

/// What kind of values a variable has, and a space behind it.
pub fn kind_prefix(kind: Kind) -> &'static str
    ensures { result.now ≡ kind_prefix kind }
{
    match kind {
        Kind::Bool => "bool ",
        Kind::Int => "int ",
    }
}

/// Whether there is a statement.
pub(crate) fn has_any(statements: &[Statement]) -> bool
    ensures { result ≡ has_any statements.now }
{
    match statements {
        [] => false,
        [_, ..] => true,
    }
}
