//! `sct`: checks images and runs them.
#![tactic(auto)]

ghost use Rattle.std.specs.Prelude.{◌≡◌, ◌<◌, ◌≤◌};

use sc_values::{Failures, OfRead, OfWrite};
use sct_command::{HostFiles, MISUSED, REFUSED, command};
use std::io::IsTerminal;
use std::marker::Brand;
use std::process::ExitCode;
use std::rt::{Files, Stderr, Stdin, Stdout};
use std::sync::Wait;
use std::sync::ledger::{Blank, Ledger};
use std::thread::Threads;
use std::{env, io};

// The words after the program's name.
fn words_of(rt: &HostRuntime) -> io::Result<Vec<String>> {
    let mut words = Vec::new(rt.alloc());
    for word in env::args(rt)?.skip(1) {
        words.push(word)?;
    }
    Ok(words)
}

// The status where the words cannot be had: memory was refused, or one is no text.
fn without_words(rt: &HostRuntime, error: &io::Error) -> u8
    ensures { (REFUSED ≤ result) × (result ≤ MISUSED) }
{
    if error.kind() == io::ErrorKind::OutOfMemory {
        let _ = rt.eprintln("sct: E52");
        REFUSED
    } else {
        let _ = rt.eprintln("error: invalid UTF-8 was detected in one or more arguments");
        MISUSED
    }
}

// The system's streams, whether people read the errors, and the blanks for the counts of failures, those of files too.
#[derive(Drop)]
struct Streams {
    input: Stdin,
    output: Stdout,
    errors: Stderr,
    read: Blank,
    written: Blank,
    reported: Blank,
    missed: Blank,
    are_people: bool,
}

// The command over the system's files and streams.
fn serve<
    R: Files + AllocGlobal + Clone + Drop + Threads + Wait + Sync,
    L: Ledger,
    M: Ledger,
    N: Ledger,
    O: Ledger,
>(rt: &R, words: &[String], streams: Streams) -> u8
    requires read { (streams.read.name ≡ L.name) × (streams.read.parts ≡ L.parts) × (0 < L.parts) }
    requires written { (streams.written.name ≡ M.name) × (streams.written.parts ≡ M.parts) × (0 < M.parts) }
    requires reported { (streams.reported.name ≡ N.name) × (streams.reported.parts ≡ N.parts) × (0 < N.parts) }
    requires missed { (streams.missed.name ≡ O.name) × (streams.missed.parts ≡ O.parts) × (0 < O.parts) }
    ensures { result ≤ MISUSED }
{
    let mut files: HostFiles<'_, R, O> = HostFiles::new(rt, Failures::none(streams.missed));
    let mut input: OfRead<_, L> = OfRead::new(streams.input, Failures::none(streams.read));
    let mut output: OfWrite<_, M> = OfWrite::new(streams.output, Failures::none(streams.written));
    let mut errors: OfWrite<_, N> = OfWrite::new(streams.errors, Failures::none(streams.reported));
    command(
        rt,
        rt.alloc(),
        words,
        streams.are_people,
        &mut files,
        &mut input,
        &mut output,
        &mut errors,
    )
}

fn main(rt: HostRuntime) -> ExitCode {
    let status = match words_of(&rt) {
        Ok(words) => {
            let errors = rt.stderr();
            let are_people = errors.is_terminal();
            let streams = Streams {
                input: rt.stdin(),
                output: rt.stdout(),
                errors,
                read: Blank::new(1),
                written: Blank::new(1),
                reported: Blank::new(1),
                missed: Blank::new(1),
                are_people,
            };
            serve::<_, Brand, Brand, Brand, Brand>(&rt, &words, streams)
        }
        Err(error) => without_words(&rt, &error),
    };
    ExitCode::from(status)
}
