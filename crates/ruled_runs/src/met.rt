//! What was met on a line that ends a run.

ghost use Rattle.std.specs.Prelude.{◌≡◌};
ghost use Rattle.ruled_runs.specs.Met.{IsMet, line_told};

use sc_values::Source;
use std::alloc::Global;
use trace_lines::{Cause, OfInput, Recent, cause_under};
use trace_player::PlayFault;
use verifier::Verified;

// The line of which a fault tells.
fn line_told(fault: PlayFault) -> Option<u64>
    ensures { result ≡ line_told fault }
{
    match fault {
        PlayFault::Input(line) | PlayFault::NotJson(line) => Some(line),
        PlayFault::Memory | PlayFault::Read | PlayFault::Write => None,
    }
}

/// What was met on the line of which a fault tells, where that is known: why it gives no inputs; where every input has
/// to be named, `strict`, also the first one that it does not name.
pub fn cause_met<S: Source, N: OfInput>(
    alloc: Global,
    strict: bool,
    image: &Verified,
    recent: &Recent<'_, S, N>,
    fault: PlayFault,
) -> Option<Cause>
    ensures { IsMet strict image.now.program.variables N.start fault result }
{
    match line_told(fault) {
        Some(line) => cause_under(
            alloc,
            strict,
            image.image().program().variables(),
            recent,
            line,
        ),
        None => None,
    }
}
