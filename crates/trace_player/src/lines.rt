//! What a player counts and tells of the lines of an input.

ghost use Rattle.std.specs.Prelude.{◌≡◌, ◌↔◌, IsTrue};
ghost use Rattle.trace_player.specs.Trace.{next_number};
ghost use Rattle.trace_player.specs.Unread.{unread};

use crate::player::PlayFault;
use trace_lines::{LineEnd, LinesFault};

/// The fault where the line of this number could not be had.
pub fn unread_line(fault: LinesFault, line: u64) -> PlayFault
    ensures { result ≡ unread fault line }
{
    match fault {
        LinesFault::Memory => PlayFault::Memory,
        LinesFault::Read => PlayFault::Read,
        LinesFault::TooLong => PlayFault::NotJson(line),
    }
}

/// The number of the line behind the one of this number, which counts up to the greatest.
pub fn next_number(number: u64) -> u64
    ensures { result ≡ next_number number }
{
    number.saturating_add(1)
}

/// Whether nothing is to be read behind a line that ends so.
pub fn is_last(end: LineEnd) -> bool
    ensures { IsTrue result ↔ (end ≡ LineEnd.Input) }
{
    end == LineEnd::Input
}
