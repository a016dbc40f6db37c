//! The states that are active where a tick ends.

ghost use Rattle.std.specs.Prelude.{◌≡◌, ◌++◌, ◌∷◌, [], IfNone, IfOk, IfSome, false};
ghost use Rattle.std.specs.Prelude.{length, map, string_bytes, take, true};
ghost use Rattle.controller_tests.specs.Replay.{LacksTick, TellsStates, line_of};
ghost use Rattle.simulation.specs.Commands.{GivesNoTick};
ghost use Rattle.trace_player.specs.Trace.{lines_of};

use crate::lines::next_line;
use simulation::{Session, States, active_states_told};
use std::alloc::{AllocError, Global};
use trace_lines::LineFault;
use verifier::Verified;

// Plays the tick of a line. Whether it could be played. Err: memory was refused.
fn play_line(alloc: Global, session: &mut Session<'_>, line: &[u8]) -> Result<bool, AllocError>
    ensures image { session.new.image ≡ session.old.image }
    ensures played { IfOk result (λ played. played ≡ true
        → map line_of session.new.ticks ≡ map line_of session.old.ticks ++ line.now ∷ []) }
    ensures refused { IfOk result (λ played. played ≡ false → GivesNoTick session.old.image line.now) }
{
    match session.tick(alloc, line) {
        Ok(()) => Ok(true),
        Err(LineFault::Memory) => Err(AllocError),
        Err(LineFault::NotJson | LineFault::Input) => Ok(false),
    }
}

// Plays the ticks of the first lines, so many, from the first tick on. Whether there are so many that can be played.
// Err: memory was refused.
#[tactic(auto, using(crate::proofs::Replayed::all_played, crate::proofs::Replayed::refused_there, crate::proofs::Replayed::ended_there))]
fn play_first(
    alloc: Global,
    session: &mut Session<'_>,
    ticks: &[u8],
    count: u64,
) -> Result<bool, AllocError>
    requires none { session.old.ticks ≡ [] }
    ensures image { session.new.image ≡ session.old.image }
    ensures played { IfOk result (λ all. all ≡ true → map line_of session.new.ticks ≡ take count (lines_of ticks.now)) }
    ensures so_many { IfOk result (λ all. all ≡ true → length (map line_of session.new.ticks) ≡ count) }
    ensures lacks { IfOk result (λ all. all ≡ false → LacksTick session.old.image ticks.now count) }
{
    let mut rest = ticks;
    for _turn in 0..count {
        let (line, behind) = next_line(rest);
        match line {
            Some(line) => {
                if !play_line(alloc, session, line)? {
                    return Ok(false);
                }
            }
            None => return Ok(false),
        }
        rest = behind;
    }
    Ok(true)
}

/// What is said of the states that are active where the tick of the line of this number ends, a line for each. None:
/// there are not so many lines that give inputs. Err: memory was refused.
#[tactic(auto, using(crate::proofs::Replayed::told_there))]
pub fn states_told<W: States>(
    alloc: Global,
    image: &Verified,
    states: &W,
    ticks: &[u8],
    line: u64,
) -> Result<Option<String>, AllocError>
    ensures told { IfOk result (λ told. IfSome told (λ text.
        TellsStates image.now (W.paths states.now) (W.active states.now) ticks.now line (string_bytes text))) }
    ensures none { IfOk result (λ told. IfNone told (LacksTick image.now ticks.now line)) }
{
    let mut session = Session::new(alloc, image)?;
    if !play_first(alloc, &mut session, ticks, line)? {
        return Ok(None);
    }
    Ok(Some(active_states_told(alloc, states, session.control())?))
}
