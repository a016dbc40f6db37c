//! What the lines of an input are played to.

ghost use Rattle.std.specs.Prelude.{◌≡◌, ◌≤◌, ◌<◌, ℕ, List, IfOk, IfErr, length};
ghost use Rattle.trace_lines.specs.Lines.{line_limit};
ghost use Rattle.trace_player.specs.Trace.{End, NoObject};
ghost use Rattle.trace_player.specs.Played.{Tells};

use crate::PlayFault;

/// What the lines of an input are played to, one after another. Contracts see the number of the next line, how a line
/// leads from one player to the next and what is shown of it, how a line ends a trace, and whether a player is ready.
pub trait LinePlayer: Drop {
    ghost number: { Self → ℕ };

    ghost makes: { Self → List ℕ → Self → List ℕ → Type 0 };

    ghost ends: { Self → List ℕ → End → Type 0 };

    ghost is_ready: { Self → Type 0 };

    /// The number of the next line.
    fn number(&self) -> u64
        ensures { result ≡ number self.now };

    /// The player behind the next line. What is shown of it goes to `shown`. `Input` and `NotJson`: the line ends the
    /// trace. `Memory`: memory was refused.
    fn play(self, line: &[u8], shown: &mut Vec<u8>) -> Result<Self, PlayFault>
        requires ready { is_ready self }
        requires short { length line.now ≤ line_limit }
        ensures ready { IfOk result is_ready }
        ensures makes { IfOk result (λ next. makes self line.now next shown.new.items) }
        ensures fault { IfErr result (Tells (ends self line.now)) };

    ghost too_long: { (player : Self) (line : List ℕ) → line_limit < length line
        → ends player line (NoObject (number player)) };
}
