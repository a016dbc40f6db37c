//! The line of output of a tick, with words for where it ends.

ghost use Rattle.std.specs.Prelude.{◌≡◌, ◌-◌, OnOk, length, take};
ghost use Rattle.trace_lines.specs.Output.{outputs_of};
ghost use Rattle.state_traces.specs.Lines.{told_line};

use crate::words::Words;
use std::alloc::{AllocError, Global};
use tick_core::Control;
use trace_lines::Interface;

// Takes the last two bytes of a line away: the brace and the line feed.
fn open_again(line: &mut Vec<u8>)
    ensures { line.new.items ≡ take (length line.old.items - 2) line.old.items }
{
    let before = line.len().saturating_sub(2);
    line.truncate(before);
}

/// Makes `line` the output line of a tick of this number that ended in a configuration: its steps, the values of the
/// outputs, and the words for the configuration.
#[tactic(auto, using(crate::proofs::Lines::told))]
pub(crate) fn write_line<W: Words>(
    alloc: Global,
    interface: &Interface<'_>,
    words: &W,
    line: &mut Vec<u8>,
    tick: u64,
    steps: u64,
    control: &Control,
) -> Result<(), AllocError>
    requires { length control.now.variables ≡ length interface.now }
    ensures { OnOk result (line.new.items
        ≡ told_line tick steps (outputs_of interface.now control.now.variables) (W.words words.now control.now)) }
{
    interface.write_line(line, tick, steps, control.variables.as_slice())?;
    open_again(line);
    words.put(alloc, line, control)?;
    line.push(b'\n')?;
    Ok(())
}
