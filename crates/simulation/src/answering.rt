//! What is answered to a line.

ghost use Rattle.std.specs.Prelude.{◌≡◌, ◌≢◌, OnErr, IfOk, Some, option_map};
ghost use Rattle.simulation.specs.declared.words.Command.TheVariants.{Quit};
ghost use Rattle.simulation.specs.Commands.{Answers, Does, IsUntold, MayDo, MayPlay, TellsStand, Tries};
ghost use Rattle.simulation.specs.History.{begun_anew, undone};
ghost use Rattle.simulation.specs.Words.{object_of};

use crate::history::lines_of;
use crate::session::Session;
use crate::states::States;
use crate::telling::told;
use crate::words::{Command, object_of, said};
use sc_graph::Variable;
use std::alloc::{AllocError, Global};
use std::str;
use trace_lines::{Cause, LineFault, cause_of, cause_words};

const HELP: &str = "left: a tick in which the input left is true
left=false level=7: a tick with these values
{\"level\":7}: a tick with the inputs of a JSON object
an empty line: a tick without inputs
undo: one tick back
reset: back to the beginning
ticks: the lines of all ticks
quit: the end
";

const NOT_UNDERSTOOD: &str = "not understood; try help\n";

// This text.
fn plain(alloc: Global, text: &str) -> Result<Vec<u8>, AllocError> {
    Vec::from_slice(alloc, text.as_bytes())
}

// The line that tells why a line gives no inputs.
fn cause_line(alloc: Global, cause: &Cause) -> Result<Vec<u8>, AllocError> {
    let mut words = cause_words(alloc, cause)?;
    words.push('\n')?;
    Ok(words.into_bytes())
}

// Why a line gives no inputs.
fn refusal(alloc: Global, variables: &[Variable], line: &[u8]) -> Result<Vec<u8>, AllocError> {
    match cause_of(alloc, variables, line)? {
        Some(cause) => {
            let told = cause_line(alloc, &cause);
            drop(cause);
            told
        }
        None => plain(alloc, NOT_UNDERSTOOD),
    }
}

// Plays the tick of a line, where it gives inputs.
fn play<W: States>(
    alloc: Global,
    session: &mut Session<'_>,
    states: Option<&W>,
    line: &[u8],
) -> Result<Vec<u8>, AllocError>
    ensures done { IfOk result (λ told. Tries session.old session.new line.now told.items) }
    ensures untold { OnErr result (MayPlay session.old session.new line.now) }
{
    match session.tick(alloc, line) {
        Ok(()) => Ok(told(alloc, session, states)?),
        Err(LineFault::Memory) => Err(AllocError),
        Err(LineFault::NotJson) => Ok(plain(alloc, NOT_UNDERSTOOD)?),
        Err(LineFault::Input) => {
            let variables = session.image().image().program().variables();
            Ok(refusal(alloc, variables, line)?)
        }
    }
}

// Plays the tick of words, where they give inputs.
fn play_words<W: States>(
    alloc: Global,
    session: &mut Session<'_>,
    states: Option<&W>,
    words: &str,
) -> Result<Vec<u8>, AllocError>
    ensures done { IfOk result (λ told. Tries session.old session.new (object_of words.now) told.items) }
    ensures untold { OnErr result (MayPlay session.old session.new (object_of words.now)) }
{
    let object = object_of(alloc, words)?;
    play(alloc, session, states, object.as_bytes())
}

// Takes the last tick back.
fn undo<W: States>(
    alloc: Global,
    session: &mut Session<'_>,
    states: Option<&W>,
) -> Result<Vec<u8>, AllocError>
    ensures done { session.new ≡ undone session.old }
    ensures told { IfOk result (λ told. TellsStand session.new told.items) }
{
    session.undo();
    told(alloc, session, states)
}

// Takes all ticks back.
fn reset<W: States>(
    alloc: Global,
    session: &mut Session<'_>,
    states: Option<&W>,
) -> Result<Vec<u8>, AllocError>
    ensures done { session.new ≡ begun_anew session.old }
    ensures told { IfOk result (λ told. TellsStand session.new told.items) }
{
    session.reset();
    told(alloc, session, states)
}

// What is answered to what a text says, but that this is the end.
fn answer_said<W: States>(
    alloc: Global,
    session: &mut Session<'_>,
    states: Option<&W>,
    command: Command,
    text: &str,
) -> Result<Vec<u8>, AllocError>
    requires some { command ≢ Quit }
    ensures done { IfOk result (λ told. Does command text.now session.old session.new (Some told.items)) }
    ensures untold { OnErr result (MayDo command text.now session.old session.new) }
{
    match command {
        Command::Undo => Ok(undo(alloc, session, states)?),
        Command::Reset => Ok(reset(alloc, session, states)?),
        Command::Ticks => Ok(lines_of(alloc, session.ticks())?),
        Command::Help | Command::Quit => Ok(plain(alloc, HELP)?),
        Command::Nothing => Ok(play(alloc, session, states, b"{}")?),
        Command::Object => Ok(play(alloc, session, states, text.as_bytes())?),
        Command::Words => Ok(play_words(alloc, session, states, text)?),
    }
}

// Does what a text says. None: it says that this is the end.
fn follow<W: States>(
    alloc: Global,
    session: &mut Session<'_>,
    states: Option<&W>,
    command: Command,
    text: &str,
) -> Result<Option<Vec<u8>>, AllocError>
    ensures done { IfOk result (λ told. Does command text.now session.old session.new
        (option_map (λ bytes. bytes.items) told)) }
    ensures untold { OnErr result (MayDo command text.now session.old session.new) }
{
    match command {
        Command::Quit => Ok(None),
        _ => Ok(Some(answer_said(alloc, session, states, command, text)?)),
    }
}

/// Does what a line says, and gives the answer. None: it says that this is the end. Err: memory was refused.
pub fn answer<W: States>(
    alloc: Global,
    session: &mut Session<'_>,
    states: Option<&W>,
    line: &[u8],
) -> Result<Option<Vec<u8>>, AllocError>
    ensures done { IfOk result (λ told. Answers line.now session.old session.new
        (option_map (λ bytes. bytes.items) told)) }
    ensures untold { OnErr result (IsUntold line.now session.old session.new) }
{
    match str::from_utf8(line) {
        Ok(text) => {
            let text = text.trim();
            follow(alloc, session, states, said(text), text)
        }
        Err(_) => Ok(Some(plain(alloc, NOT_UNDERSTOOD)?)),
    }
}
