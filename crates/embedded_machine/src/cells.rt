//! Values and statuses in cells.

ghost use Rattle.std.specs.Prelude.{◌≡◌, IfSome};
ghost use Rattle.sc_values.specs.Operator.{kind_of};
ghost use Rattle.embedded_machine.specs.Cells.{status_cell, status_in, value_cell, value_in};

use sc_graph::Status;
use sc_values::{Kind, Value};

const WAITING: u32 = 131072;

const PAUSED: u32 = 196608;

const STANDING: u32 = 262144;

/// The cell of a value.
pub fn value_cell(value: Value) -> i32
    ensures { result ≡ value_cell value }
{
    match value {
        Value::Bool(true) => 1,
        Value::Bool(false) => 0,
        Value::Int(number) => number,
    }
}

/// The value of this kind that a cell holds; None where it holds none.
pub fn value_in(kind: Kind, cell: i32) -> Option<Value>
    ensures value { result ≡ value_in kind cell }
    ensures cell { IfSome result (λ value. value_cell value ≡ cell) }
    ensures kind { IfSome result (λ value. kind_of value ≡ kind) }
{
    match kind {
        Kind::Int => Some(Value::Int(cell)),
        Kind::Bool if cell == 0 => Some(Value::Bool(false)),
        Kind::Bool if cell == 1 => Some(Value::Bool(true)),
        Kind::Bool => None,
    }
}

/// The cell of a status.
pub fn status_cell(status: Status) -> u32
    ensures { result ≡ status_cell status }
{
    match status {
        Status::Absent => 0,
        Status::Ended => 1,
        Status::Waiting(node) => WAITING + u32::from(node),
        Status::Paused(node) => PAUSED + u32::from(node),
        Status::At(node) => STANDING + u32::from(node),
    }
}

/// The status that a cell holds; None where it holds none.
pub fn status_in(cell: u32) -> Option<Status>
    ensures status { result ≡ status_in cell }
    ensures cell { IfSome result (λ status. status_cell status ≡ cell) }
{
    if cell == 0 {
        Some(Status::Absent)
    } else if cell == 1 {
        Some(Status::Ended)
    } else if cell < WAITING {
        None
    } else if cell < PAUSED {
        Some(Status::Waiting((cell - WAITING) as u16))
    } else if cell < STANDING {
        Some(Status::Paused((cell - PAUSED) as u16))
    } else if cell < STANDING + 65536 {
        Some(Status::At((cell - STANDING) as u16))
    } else {
        None
    }
}
