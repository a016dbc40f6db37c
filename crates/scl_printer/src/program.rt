//! Printing a program.

ghost use Rattle.std.specs.Prelude.{◌≡◌, ◌+◌, OnOk, OnErr, map};
ghost use Rattle.std.specs.Io.KnownBytes.{Appends};
ghost use Rattle.sc_values.specs.Streams.{GrowsInto};
ghost use Rattle.scl_printer.specs.Layout.{declarations_text, text_of};
ghost use Rattle.scl_printer.specs.Inside.Writing.{Writes, page};

use crate::buffered::Buffered;
use crate::lines::{write_declaration, write_head, write_line};
use crate::print_fault::PrintFault;
use crate::statements::write_statements;
use sc_graph::Variable;
use sc_values::Sink;
use scl::Scl;

/// Writes the text of a program to a sink: a declaration or a statement a line, two spaces for each level.
/// It takes no memory. Err: the sink failed, once, by an `Err` or by taking no byte; it took a beginning of
/// the text.
pub fn print<W: Sink>(scl: &Scl, sink: &mut W) -> Result<(), PrintFault>
    ensures ok { OnOk result (Appends (W.taken sink.old) (W.taken sink.new) (text_of scl.now)) }
    ensures none_failed { OnOk result (W.failures sink.new ≡ W.failures sink.old) }
    ensures some { GrowsInto (W.taken sink.old) (W.taken sink.new) (text_of scl.now) }
    ensures failed { OnErr result (W.failures sink.new ≡ W.failures sink.old + 1) }
{
    let mut buffered = Buffered::new();
    write_program(&mut buffered, sink, scl);
    buffered.finish(sink)
}

fn write_program<W: Sink>(buffered: &mut Buffered, sink: &mut W, scl: &Scl)
    ensures { Writes (page (W.taken sink.old) (W.failures sink.old) buffered.old)
        (page (W.taken sink.new) (W.failures sink.new) buffered.new) (text_of scl.now) }
{
    let variables = scl.variables.as_slice();
    write_head(buffered, sink, &scl.name);
    write_declarations(buffered, sink, variables);
    write_statements(buffered, sink, variables, scl.body.as_slice(), 1);
    write_line(buffered, sink, "}", 0);
}

fn write_declarations<W: Sink>(buffered: &mut Buffered, sink: &mut W, variables: &[Variable])
    ensures { Writes (page (W.taken sink.old) (W.failures sink.old) buffered.old)
        (page (W.taken sink.new) (W.failures sink.new) buffered.new) (declarations_text variables.now) }
{
    for variable in variables {
        write_declaration(buffered, sink, variable);
    }
}
