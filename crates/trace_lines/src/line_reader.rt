//! Reading the lines of an input, of which those that come again are not read anew.

ghost use Rattle.std.specs.Prelude.{◌≡◌, ◌<◌, IfOk, OnOk, IsErrOf, Some, None};
ghost use Rattle.serde_json.specs.Data.{Members};
ghost use Rattle.trace_lines.specs.Line.{IsObjectOf, inputs_of};
ghost use Rattle.trace_lines.specs.Inside.Kept.{AreKept, Says, inputs_at, slots};

use crate::interface::Interface;
use crate::kept_line::{KeptLine, is_kept_at, keep, no_lines, slot_of};
use crate::line::LineFault;
use crate::members::LineRoom;
use sc_values::{Name, Value};
use sqlite_items::Items;
use std::alloc::{AllocError, Global};
use std::marker::Model;

/// Reads the lines of an input for an interface. It keeps up to 256 lines of up to 256 bytes with what they give to the
/// inputs, so that a line which comes again is only compared. Contracts see the variables of the program.
#[derive(Drop)]
pub struct LineReader<'i, 'a> {
    interface: &'i Interface<'a>,
    room: LineRoom,
    kept: Vec<KeptLine>,
    // of the line that was read last
    slot: usize,
}

impl<'i, 'a> Model for LineReader<'i, 'a> {
    ghost use Rattle.std.specs.Prelude.{◌<◌};
    ghost use Rattle.trace_lines.specs.Reader.{Reader};
    ghost use Rattle.trace_lines.specs.Inside.Kept.{AreKept, inputs_at, slots};

    ghost Value = { Reader };

    ghost view = { λ r. record { variables = r.interface.now; given = inputs_at r.kept.items r.slot } };

    ghost invariant = { λ r. AreKept r.interface.now r.kept.items × (r.slot < slots) };
}

impl<'i, 'a> LineReader<'i, 'a> {
    /// A reader for an interface, which has read no line.
    pub fn of(alloc: Global, interface: &'i Interface<'a>) -> Result<LineReader<'i, 'a>, AllocError>
        ensures { IfOk result (λ reader. reader.variables ≡ interface.now) }
    {
        Ok(LineReader {
            interface,
            room: LineRoom::new(alloc),
            kept: no_lines(alloc)?,
            slot: 0,
        })
    }

    /// Reads a line of input, as `Interface::read_line` does: `given` tells what it gives to the inputs.
    pub fn read(&mut self, alloc: Global, line: &[u8]) -> Result<(), LineFault>
        ensures ok { OnOk result ((members : Members)
            × IsObjectOf line.now members × (inputs_of self.old.variables members ≡ Some self.new.given)) }
        ensures not_json { IsErrOf result LineFault.NotJson
            → (members : Members) → ¬ IsObjectOf line.now members }
        ensures input { IsErrOf result LineFault.Input → (members : Members)
            × IsObjectOf line.now members × (inputs_of self.old.variables members ≡ None) }
        ensures same { self.new.variables ≡ self.old.variables }
    {
        let slot = slot_of(line);
        read_in(
            alloc,
            self.interface,
            &mut self.room,
            &mut self.kept,
            slot,
            line,
        )?;
        self.slot = slot;
        Ok(())
    }

    /// What the line that was read last gives to the inputs.
    pub fn given(&self) -> &Items<(Name, Value)>
        ensures { result.now ≡ self.now.given }
    {
        &self.kept[self.slot].inputs
    }
}

// Reads a line, unless it is kept in this slot. Then it is, and what it gives to the inputs.
fn read_in(
    alloc: Global,
    interface: &Interface<'_>,
    room: &mut LineRoom,
    kept: &mut Vec<KeptLine>,
    slot: usize,
    line: &[u8],
) -> Result<(), LineFault>
    requires kept { AreKept interface.now kept.old.items }
    requires slot { slot < slots }
    ensures kept { AreKept interface.now kept.new.items }
    ensures ok { OnOk result (Says interface.now line.now (inputs_at kept.new.items slot)) }
    ensures not_json { IsErrOf result LineFault.NotJson
        → (members : Members) → ¬ IsObjectOf line.now members }
    ensures input { IsErrOf result LineFault.Input → (members : Members)
        × IsObjectOf line.now members × (inputs_of interface.now members ≡ None) }
{
    if is_kept_at(kept, slot, line) {
        return Ok(());
    }
    let inputs = interface.read_line_in(alloc, room, line)?;
    keep(kept, slot, line, inputs)?;
    Ok(())
}
