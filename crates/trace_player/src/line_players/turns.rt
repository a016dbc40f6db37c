//! The lines of an input, one after another.

ghost use Rattle.std.specs.Prelude.{◌≡◌, [], IfOk};
ghost use Rattle.trace_player.specs.Came.{CameTo};

use crate::line_players::line_player::LinePlayer;
use crate::{Channels, PlayFault, is_last, unread_line};
use std::alloc::Global;
use trace_lines::Lines;

/// Plays the lines of an input from this player on, and gives the player behind the last line. `Input` and `NotJson`
/// name the line at which the trace ends, and all before it was written; at any other fault the lines of output of some
/// first lines were, each whole, or at `Write` the last one perhaps in part.
pub fn play_from<L: LinePlayer, P: Channels>(
    alloc: Global,
    player: L,
    channels: &mut P,
) -> Result<L, PlayFault>
    requires ready { L.is_ready player }
    ensures ready { IfOk result L.is_ready }
    ensures came { CameTo L.makes L.ends player (P.seen channels.old) (P.seen channels.new) result }
    ensures same { P.names channels.new ≡ P.names channels.old }
{
    let mut lines = Lines::new(alloc)?;
    let mut line = Vec::new(alloc);
    let mut shown = Vec::new(alloc);
    go_on(player, &mut lines, &mut line, &mut shown, channels)
}

// Plays the lines of an input, none of which was read. Each is put into `line`, and what is shown of it into `shown`.
fn go_on<L: LinePlayer, P: Channels>(
    player: L,
    lines: &mut Lines,
    line: &mut Vec<u8>,
    shown: &mut Vec<u8>,
    channels: &mut P,
) -> Result<L, PlayFault>
    requires ready { L.is_ready player }
    requires lines { lines.old ≡ [] }
    ensures ready { IfOk result L.is_ready }
    ensures came { CameTo L.makes L.ends player (P.seen channels.old) (P.seen channels.new) result }
    ensures same { P.names channels.new ≡ P.names channels.old }
{
    let mut player = player;
    for _turn in 0..u128::MAX {
        let end = match channels.next(lines, line) {
            Ok(Some(end)) => end,
            Ok(None) => return Ok(player),
            Err(fault) => return Err(unread_line(fault, player.number())),
        };
        player = player.play(line.as_slice(), shown)?;
        if !channels.write(shown.as_slice()) {
            return Err(PlayFault::Write);
        }
        if is_last(end) {
            return Ok(player);
        }
    }
    Err(PlayFault::Memory)
}
