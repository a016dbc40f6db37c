//! The output line of a tick.

ghost use Rattle.std.specs.Prelude.{◌≡◌, ◌++◌, OnOk};
ghost use Rattle.std.specs.Fmt.{decimal};
ghost use Rattle.serde_json.specs.Written.{compact_text};
ghost use Rattle.trace_lines.specs.Output.{data_of};
ghost use Rattle.trace_lines.specs.Inside.Rows.{data_at, rows_text, line_by};

use crate::outputs::Row;
use itoa::{Buffer, Integer};
use sc_values::Value;
use std::alloc::AllocError;

// Puts an integer behind a line, in decimal.
fn write_integer<I: Integer>(line: &mut Vec<u8>, integer: I) -> Result<(), AllocError>
    ensures { OnOk result (line.new.items ≡ line.old.items ++ I.text integer) }
{
    let mut buffer = Buffer::new();
    line.extend_from_slice(buffer.format(integer).as_bytes())
}

// Puts a count behind a line, in decimal. One of a single digit, as most are, needs no buffer.
#[tactic(auto, using(std::proofs::lemmas::Fmt::decimal_digit))]
fn write_count(line: &mut Vec<u8>, count: u64) -> Result<(), AllocError>
    ensures { OnOk result (line.new.items ≡ line.old.items ++ decimal count) }
{
    if count < 10 {
        line.push(b'0' + count as u8)?;
        return Ok(());
    }
    write_integer(line, count)
}

// Puts a value behind a line.
fn write_value(line: &mut Vec<u8>, value: Value) -> Result<(), AllocError>
    ensures { OnOk result (line.new.items ≡ line.old.items ++ compact_text (data_of value)) }
{
    match value {
        Value::Bool(true) => line.extend_from_slice(b"true"),
        Value::Bool(false) => line.extend_from_slice(b"false"),
        Value::Int(number) => write_integer(line, number),
    }
}

// Puts the value at this place behind a line.
fn write_placed(line: &mut Vec<u8>, values: &[Value], place: usize) -> Result<(), AllocError>
    ensures { OnOk result (line.new.items ≡ line.old.items ++ compact_text (data_at values.now place)) }
{
    match values.get(place) {
        Some(value) => write_value(line, *value),
        None => line.extend_from_slice(b"null"),
    }
}

// Puts what rows show of these values behind a line.
fn write_rows(line: &mut Vec<u8>, rows: &[Row], values: &[Value]) -> Result<(), AllocError>
    ensures { OnOk result (line.new.items ≡ line.old.items ++ rows_text rows.now values.now) }
{
    for row in rows {
        line.extend_from_slice(row.before.as_bytes())?;
        write_placed(line, values, row.place)?;
    }
    Ok(())
}

/// Makes `line` the output line of a tick of this number: its steps, and the outputs after it by these
/// rows.
pub(crate) fn write_line(
    line: &mut Vec<u8>,
    tick: u64,
    steps: u64,
    rows: &[Row],
    values: &[Value],
) -> Result<(), AllocError>
    ensures { OnOk result (line.new.items ≡ line_by tick steps (rows_text rows.now values.now)) }
{
    line.clear();
    line.extend_from_slice(b"{\"out\":{")?;
    write_rows(line, rows, values)?;
    line.extend_from_slice(b"},\"steps\":")?;
    write_count(line, steps)?;
    line.extend_from_slice(b",\"tick\":")?;
    write_integer(line, tick)?;
    line.extend_from_slice(b"}\n")
}
