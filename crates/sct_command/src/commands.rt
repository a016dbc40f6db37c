//! From words to what they ask for.

ghost use Rattle.std.specs.Prelude.{◌≡◌, ◌≤◌, ◌+◌, ◌++◌, ◌||◌, [], true, Some, None, map, string_bytes};
ghost use Rattle.std.specs.Prelude.{IfErr, IfOk, OnOk};
ghost use Rattle.command_words.specs.Request.{WritesFiles, IsRun, explains, request_of, seen, warns};
ghost use Rattle.sc_values.specs.Streams.{IsNotReadBehind};
ghost use Rattle.sct_command.specs.Answer.{CountsFiles, Does, Refuses, IsRefused, TellsFault};
ghost use Rattle.sct_command.specs.Answer.{SaysBeside, SaysOfRefusal, TellsBeside};
ghost use Rattle.sct_command.specs.Beside.{GoesOut, IsSaid};
ghost use Rattle.sct_command.specs.declared.fault.Fault.TheVariants as told;
ghost use Rattle.sct_command.specs.Failing.{reads_failed, writes_failed};
ghost use Rattle.sct_command.specs.FaultText.{fault_text};
ghost use Rattle.sct_command.specs.Words.{TellsLines, fault_line};
ghost use Rattle.sct_command.specs.Writing.{WritesText, WritesPart};

use crate::compile::compile;
use crate::explain::explain;
use crate::fault::Fault;
use crate::migrate::migrate;
use crate::print::print_text;
use crate::run::run;
use crate::run_ruled::run_ruled;
use crate::run_with_states::run_with_states;
use crate::simulate::simulate_file;
use crate::test::test_files;
use crate::words::behind_line;
use crate::write_compiled::write_compiled;
use crate::writing::write_wanted;
use command_files::{Files, LoadFault};
use command_words::{Request, Unread, read_words};
use sc_values::{Sink, Source, write_all};
use std::alloc::{AllocError, Global};
use std::sync::Wait;
use std::thread::Threads;

/// The status of a command that was done.
pub const DONE: u8 = 0;

/// The status of a command that was refused.
pub const REFUSED: u8 = 1;

/// The status of words that ask for nothing.
pub const MISUSED: u8 = 2;

// The line of a fault.
fn line_of(alloc: Global, fault: &Fault) -> Result<String, AllocError>
    ensures { IfOk result (λ line. string_bytes line ≡ fault_line (fault_text fault.now)) }
{
    format!(in alloc; "sct: {fault}\n")
}

// The line of a fault, with words behind it where they are wanted.
fn lines_with_words(alloc: Global, fault: &Fault, wanted: bool) -> Result<String, AllocError>
    ensures { IfOk result (λ lines. TellsLines fault.now wanted [] (string_bytes lines)) }
{
    let mut lines = line_of(alloc, fault)?;
    let words = behind_line(alloc, fault, wanted);
    lines.push_str(words.as_str())?;
    Ok(lines)
}

// The line of a fault, with this report behind it.
fn lines_with_report(alloc: Global, fault: &Fault, report: &str) -> Result<String, AllocError>
    ensures { IfOk result (λ lines. string_bytes lines ≡ fault_line (fault_text fault.now) ++ report.now) }
{
    let mut lines = line_of(alloc, fault)?;
    lines.push_str(report)?;
    Ok(lines)
}

// The line of a fault, with the report of it behind it, or words where there is none and they are wanted.
fn lines_of(alloc: Global, fault: &Fault, wanted: bool, report: &str) -> Result<String, AllocError>
    ensures { IfOk result (λ lines. TellsLines fault.now wanted report.now (string_bytes lines)) }
{
    if report.is_empty() {
        return lines_with_words(alloc, fault, wanted);
    }
    lines_with_report(alloc, fault, report)
}

// Writes the line of a fault, with the report of it behind it, or words where they are wanted. Where it cannot be
// written, nothing else can be done.
fn refuse<X: Sink>(alloc: Global, fault: &Fault, wanted: bool, report: &str, errors: &mut X) -> u8
    ensures status { result ≡ REFUSED }
    ensures line { TellsFault fault.now wanted report.now
        (X.taken errors.old) (X.taken errors.new) (X.failures errors.old) (X.failures errors.new) }
{
    let _ = match lines_of(alloc, fault, wanted, report) {
        Ok(lines) => write_all(errors, lines.as_bytes()),
        Err(_) => write_all(errors, b"sct: E52\n"),
    };
    REFUSED
}

// Writes this text. Where it cannot be written, nothing else can be done.
#[tactic(auto, using(crate::proofs::Taken::taken_whole))]
fn write_out<X: Sink>(text: &str, errors: &mut X)
    ensures { GoesOut text.now
        (X.taken errors.old) (X.taken errors.new) (X.failures errors.old) (X.failures errors.new) }
{
    let _ = write_all(errors, text.as_bytes());
}

// Writes what is said beside what was done.
#[tactic(auto, using(crate::proofs::Wanted::said_nothing, crate::proofs::Wanted::said_some))]
fn say<X: Sink>(said: &str, errors: &mut X) -> u8
    ensures status { result ≡ DONE }
    ensures said { IsSaid said.now
        (X.taken errors.old) (X.taken errors.new) (X.failures errors.old) (X.failures errors.new) }
{
    if !said.is_empty() {
        write_out(said, errors);
    }
    DONE
}

// Writes the help that was asked for, or else what is wrong with the words.
fn write_help<W: Sink, X: Sink>(
    alloc: Global,
    text: &str,
    asked: bool,
    wanted: bool,
    output: &mut W,
    errors: &mut X,
) -> u8
    ensures status { result ≤ MISUSED }
    ensures shown { result ≡ DONE → WritesText (W.taken output.old) (W.taken output.new) }
    ensures quiet { result ≡ DONE → X.taken errors.new ≡ X.taken errors.old }
    ensures none_failed { result ≡ DONE → W.failures output.new ≡ W.failures output.old }
    ensures refused { result ≡ REFUSED → WritesPart (W.taken output.old) (W.taken output.new) }
    ensures failed { result ≡ REFUSED → W.failures output.new ≡ W.failures output.old + 1 }
    ensures told { result ≡ REFUSED
        → TellsFault told.Write wanted []
        (X.taken errors.old) (X.taken errors.new) (X.failures errors.old) (X.failures errors.new) }
    ensures misused { result ≡ MISUSED → W.taken output.new ≡ W.taken output.old }
{
    if !asked || text.is_empty() {
        let _ = write_all(errors, text.as_bytes());
        return MISUSED;
    }
    match write_all(output, text.as_bytes()) {
        Ok(()) => DONE,
        Err(_) => refuse(alloc, &Fault::Write, wanted, "", errors),
    }
}

// Whether words are wanted behind a fault: people read it, or it was asked for.
fn wants(are_people: bool, explains: bool) -> bool
    ensures { result ≡ (are_people || explains) }
{
    are_people || explains
}

// Whether words are told behind this fault of a request, where they are wanted: what an explanation tells of a file
// stands on the output.
fn words_behind(request: Request<'_>, fault: &Fault, wanted: bool) -> bool
    ensures { result ≡ true → wanted ≡ true }
{
    match request {
        Request::Explain(_) => match fault {
            Fault::Files(_) => false,
            _ => wanted,
        },
        _ => wanted,
    }
}

// Writes the line of the fault of a request, with the report of it behind it, or words where they are wanted.
fn refuse_request<X: Sink>(
    alloc: Global,
    request: Request<'_>,
    fault: &Fault,
    wanted: bool,
    report: &str,
    errors: &mut X,
) -> u8
    ensures status { result ≡ REFUSED }
    ensures line { TellsFault fault.now wanted report.now
        (X.taken errors.old) (X.taken errors.new) (X.failures errors.old) (X.failures errors.new) }
{
    let behind = words_behind(request, fault, wanted);
    refuse(alloc, fault, behind, report, errors)
}

// Does what is asked for, and says what is to be told on the errors.
fn perform<T: Threads + Wait + Sync, F: Files, R: Source, W: Sink>(
    rt: &T,
    alloc: Global,
    request: Request<'_>,
    warns: bool,
    wanted: bool,
    files: &mut F,
    input: &mut R,
    output: &mut W,
    said: &mut String,
) -> Result<(), Fault>
    requires none { string_bytes said.now ≡ [] }
    ensures done { OnOk result (Does (F.contents files.old) (F.contents files.new) (Some (seen request.entry))
        (R.to_come input.old) (W.taken output.old) (W.taken output.new)) }
    ensures refused { IfErr result (Refuses (F.contents files.old) (F.contents files.new) (Some (seen request.entry))
        (R.to_come input.old) (W.taken output.old) (W.taken output.new)) }
    ensures none_read { OnOk result (R.failures input.new ≡ R.failures input.old) }
    ensures read { IfErr result (λ fault. R.failures input.new ≡ R.failures input.old + reads_failed fault) }
    ensures none_failed { OnOk result (W.failures output.new ≡ W.failures output.old) }
    ensures failed { IfErr result (λ fault. W.failures output.new ≡ W.failures output.old + writes_failed fault) }
    ensures end { IsNotReadBehind (R.progress input.old) (R.progress input.new) }
    ensures unread { ¬ IsRun (Some (seen request.entry)) → R.to_come input.new ≡ R.to_come input.old }
    ensures files { ¬ WritesFiles (Some (seen request.entry)) → F.contents files.new ≡ F.contents files.old }
    ensures none_missed { OnOk result (F.failures files.new ≡ F.failures files.old) }
    ensures missed { IfErr result (λ fault. CountsFiles (Some (seen request.entry)) fault
        (F.failures files.old) (F.failures files.new)) }
    ensures beside { OnOk result
        (SaysBeside (F.contents files.old) (Some (seen request.entry)) warns (string_bytes said.new)) }
    ensures reported { IfErr result (λ fault. SaysOfRefusal (F.contents files.old) (Some (seen request.entry))
        wanted fault (string_bytes said.new)) }
{
    match request {
        Request::Write(asked) => write_wanted(alloc, asked, files, output),
        Request::Run(name, workers) => run(rt, alloc, name, workers, wanted, files, input, output),
        Request::RunWithStates(name, chart) => {
            run_with_states(alloc, name, chart, wanted, files, input, output)
        }
        Request::RunBy(name, rules) => {
            run_ruled(alloc, name, rules, wanted, files, input, output)
        }
        Request::Compile(from, to) => {
            compile(alloc, from, to, warns, wanted, files, output, said)
        }
        Request::WriteCompiled(from) => {
            write_compiled(alloc, from, warns, wanted, files, output, said)
        }
        Request::Print(name) => print_text(alloc, name, files, output),
        Request::Migrate(from, to) => migrate(alloc, from, to, files, output),
        Request::Explain(name) => explain(alloc, name, files, output),
        Request::Test(writes, words) => test_files(alloc, writes, words, files, output),
        Request::Simulate(name) => simulate_file(alloc, name, files, input, output),
    }
}

/// The whole program, over its words without its name, files, an input, an output and one for
/// errors: does what the words ask for, and gives the status. A fault is told by one line for errors, and in words
/// behind it where people read them or the words ask for that; the warnings of a text that is compiled are told there
/// where the words ask for them. A run starts threads where it has more than one worker.
#[tactic(auto, using(crate::proofs::Wanted::help_refused, crate::proofs::Wanted::nothing_beside, crate::proofs::Wanted::beside))]
pub fn command<T: Threads + Wait + Sync, F: Files, R: Source, W: Sink, X: Sink>(
    rt: &T,
    alloc: Global,
    words: &[String],
    are_people: bool,
    files: &mut F,
    input: &mut R,
    output: &mut W,
    errors: &mut X,
) -> u8
    ensures status { result ≤ MISUSED }

    ensures done { result ≡ DONE
        → Does (F.contents files.old) (F.contents files.new) (request_of (map string_bytes words.now))
        (R.to_come input.old) (W.taken output.old) (W.taken output.new) }
    ensures beside { result ≡ DONE
        → TellsBeside (F.contents files.old)
        (request_of (map string_bytes words.now)) (warns (map string_bytes words.now))
        (X.taken errors.old) (X.taken errors.new) (X.failures errors.old) (X.failures errors.new) }
    ensures none_failed { result ≡ DONE → W.failures output.new ≡ W.failures output.old }
    ensures none_read { result ≡ DONE → R.failures input.new ≡ R.failures input.old }
    ensures none_missed { result ≡ DONE → F.failures files.new ≡ F.failures files.old }

    ensures refused { result ≡ REFUSED
        → IsRefused
        (record {
          files = record { contents = F.contents files.old; failures = F.failures files.old };
          input = record {
            to_come = R.to_come input.old;
            progress = R.progress input.old;
            failures = R.failures input.old;
          };
          output = record { taken = W.taken output.old; failures = W.failures output.old };
          errors = record { taken = X.taken errors.old; failures = X.failures errors.old };
        })
        (record {
          files = record { contents = F.contents files.new; failures = F.failures files.new };
          input = record {
            to_come = R.to_come input.new;
            progress = R.progress input.new;
            failures = R.failures input.new;
          };
          output = record { taken = W.taken output.new; failures = W.failures output.new };
          errors = record { taken = X.taken errors.new; failures = X.failures errors.new };
        })
        (request_of (map string_bytes words.now)) (are_people || explains (map string_bytes words.now)) }

    ensures misused { result ≡ MISUSED → request_of (map string_bytes words.now) ≡ None }
    ensures nothing { result ≡ MISUSED → W.taken output.new ≡ W.taken output.old }

    ensures end { IsNotReadBehind (R.progress input.old) (R.progress input.new) }
    ensures unread { ¬ IsRun (request_of (map string_bytes words.now)) → R.to_come input.new ≡ R.to_come input.old }
    ensures files { ¬ WritesFiles (request_of (map string_bytes words.now))
        → F.contents files.new ≡ F.contents files.old }
{
    let asked = match read_words(alloc, words) {
        Ok(asked) => asked,
        Err(Unread::Shown { text, asked }) => {
            return write_help(alloc, text.as_str(), asked, are_people, output, errors);
        }
        Err(Unread::Memory) => {
            return refuse(
                alloc,
                &Fault::Files(LoadFault::Memory),
                are_people,
                "",
                errors,
            );
        }
    };
    let wanted = wants(are_people, asked.explains);
    let mut said = String::new(alloc);
    match perform(
        rt,
        alloc,
        asked.request,
        asked.warns,
        wanted,
        files,
        input,
        output,
        &mut said,
    ) {
        Ok(()) => say(said.as_str(), errors),
        Err(fault) => {
            refuse_request(alloc, asked.request, &fault, wanted, said.as_str(), errors)
        }
    }
}
