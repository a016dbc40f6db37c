//! The words of a command: what they ask for, or what is shown for words that ask for nothing.

ghost use Rattle.std.specs.Prelude.{◌≡◌, Some, None, IfOk, IfSome, OnErr, map, option_map, string_bytes};
ghost use Rattle.command_words.specs.Request.{seen, asked, asked_plainly, list_of, request_by, request_of, run_of};
ghost use Rattle.command_words.specs.Request.{are_names, compile_to, explains, json_by, json_of, migrate_to, test_of};
ghost use Rattle.command_words.specs.Request.{tests_of};
ghost use Rattle.command_words.specs.Request.{ruled_by, ruled_of, text_by, warns};
ghost use Rattle.command_words.specs.Said.{One, Two, names_seen, said_seen};
ghost use Rattle.command_words.specs.declared.arguments.Unread.TheVariants.{Memory};

use crate::run_rules::RunRules;
use crate::said::{Names, Said, is_option};
use crate::verbs::sct_command;
use crate::workers::Workers;
use clap::Error;
use clap::error::ErrorKind;
use std::alloc::{AllocError, Global};

// How many workers a run has where its words do not say.
const USUAL_WORKERS: Workers = Workers { number: 2 };

/// A text that is written to the output, or the bytes of an image.
#[derive(Clone, Copy)]
pub enum Wanted<'a> {
    /// The summary of the image in this file.
    Summary(&'a str),
    /// The core chart of the chart in this file.
    Core(&'a str),
    /// The chart to which the extended chart in this file is reduced.
    Reduced(&'a str),
    /// The listing of the image in this file.
    Nodes(&'a str),
    /// The listing of the image in the first file, with the places of its nodes in the text of the second.
    Places(&'a str, &'a str),
    /// The image in this file as a line of JSON.
    Json(&'a str),
    /// The image in the first file as a line of JSON, with the states of the chart in the second.
    JsonWithStates(&'a str, &'a str),
    /// The drawing of the chart in this file, or of the graph of the SCL text.
    Drawing(&'a str),
    /// The image in this file, in version 2 of the layout.
    Migrated(&'a str),
}

/// What the words ask for.
#[derive(Clone, Copy)]
pub enum Request<'a> {
    /// Write one text, or one image, to the output.
    Write(Wanted<'a>),
    /// Run the image in this file by so many workers.
    Run(&'a str, Workers),
    /// Run it, and tell in each line which states are active of the chart in the second file.
    RunWithStates(&'a str, &'a str),
    /// Run the image in this file by the caller's thread, by these rules.
    RunBy(&'a str, RunRules<'a>),
    /// Write the image of the chart or SCL text in the first file to the second.
    Compile(&'a str, &'a str),
    /// Write the image of the chart or SCL text in this file to the output.
    WriteCompiled(&'a str),
    /// Print the SCL text in this file, or that of the chart in it.
    Print(&'a str),
    /// Write the image in the first file to the second, in version 2 of the layout.
    Migrate(&'a str, &'a str),
    /// Tell why the chart or SCL text in this file is refused.
    Explain(&'a str),
    /// Test the charts and SCL texts that these words name, of which there is one at least; and whether the traces that
    /// are missing are written.
    Test(bool, &'a [String]),
    /// Step the chart or SCL text in this file by hand.
    Simulate(&'a str),
}

/// What the words ask for, and what is told beside it.
#[derive(Clone, Copy)]
pub struct Asking<'a> {
    /// What they ask for.
    pub request: Request<'a>,
    /// Whether a fault is told in words too.
    pub explains: bool,
    /// Whether the warnings of a text that is compiled are told too.
    pub warns: bool,
}

/// Why the words ask for nothing that can be done.
#[derive(Drop)]
pub enum Unread {
    /// Memory was refused.
    Memory,
    /// A text to show: the help that was asked for, or what is wrong with the words.
    Shown { text: String, asked: bool },
}

impl From<AllocError> for Unread {
    ghost from_gives = { λ _ e. e ≡ Memory };

    fn from(_error: AllocError) -> Unread {
        Unread::Memory
    }
}

fn shown(alloc: Global, error: &Error) -> Unread {
    if error.kind() == ErrorKind::OutOfMemory {
        return Unread::Memory;
    }
    match format!(in alloc; "{error}") {
        Ok(text) => Unread::Shown {
            text,
            asked: !error.use_stderr(),
        },
        Err(_) => Unread::Memory,
    }
}

// A run of one file, with the states of a chart or without.
fn run_of<'a>(said: &Said<'a>) -> Option<Request<'a>>
    ensures { option_map seen result ≡ run_of (said_seen said.now).workers (said_seen said.now).source
        (said_seen said.now).chart (said_seen said.now).names }
{
    match (said.workers, said.source, said.chart, said.names) {
        (workers, None, None, Names::One(name)) => {
            Some(Request::Run(name, workers.unwrap_or(USUAL_WORKERS)))
        }
        (None, None, Some(chart), Names::One(name)) => Some(Request::RunWithStates(name, chart)),
        _ => None,
    }
}

// A run of one file by rules.
fn ruled_of<'a>(said: &Said<'a>) -> Option<Request<'a>>
    ensures { option_map seen result ≡ ruled_of (said_seen said.now).workers (said_seen said.now).source
        (said_seen said.now).chart (said_seen said.now).rules (said_seen said.now).names }
{
    match (said.workers, said.source, said.chart, said.names) {
        (None, None, None, Names::One(name)) => Some(Request::RunBy(name, said.rules)),
        _ => None,
    }
}

// A listing of one file.
fn list_of<'a>(said: &Said<'a>) -> Option<Request<'a>>
    ensures { option_map seen result ≡ list_of (said_seen said.now).workers (said_seen said.now).source
        (said_seen said.now).chart (said_seen said.now).names }
{
    match (said.workers, said.source, said.chart, said.names) {
        (None, None, None, Names::One(name)) => Some(Request::Write(Wanted::Nodes(name))),
        (None, Some(source), None, Names::One(name)) => {
            Some(Request::Write(Wanted::Places(name, source)))
        }
        _ => None,
    }
}

// A line of JSON of one file.
fn json_of<'a>(said: &Said<'a>) -> Option<Request<'a>>
    ensures { option_map seen result ≡ json_of (said_seen said.now).workers (said_seen said.now).source
        (said_seen said.now).chart (said_seen said.now).names }
{
    match (said.workers, said.source, said.chart, said.names) {
        (None, None, None, Names::One(name)) => Some(Request::Write(Wanted::Json(name))),
        (None, None, Some(chart), Names::One(name)) => {
            Some(Request::Write(Wanted::JsonWithStates(name, chart)))
        }
        _ => None,
    }
}

// Where the image of a text goes.
fn compile_to<'a>(from: &'a str, to: &'a str) -> Request<'a>
    ensures { seen result ≡ compile_to from.now to.now }
{
    match to {
        "-" => Request::WriteCompiled(from),
        to => Request::Compile(from, to),
    }
}

// Where an image in version 2 goes.
fn migrate_to<'a>(from: &'a str, to: &'a str) -> Request<'a>
    ensures { seen result ≡ migrate_to from.now to.now }
{
    match to {
        "-" => Request::Write(Wanted::Migrated(from)),
        to => Request::Migrate(from, to),
    }
}

// What another verb asks for with one name.
fn asked_of_one<'a>(verb: &str, name: &'a str) -> Option<Request<'a>>
    ensures { option_map seen result ≡ asked verb.now (One name.now) }
{
    match verb {
        "check" => Some(Request::Write(Wanted::Summary(name))),
        "core" => Some(Request::Write(Wanted::Core(name))),
        "reduce" => Some(Request::Write(Wanted::Reduced(name))),
        "dot" => Some(Request::Write(Wanted::Drawing(name))),
        "scl" => Some(Request::Print(name)),
        "explain" => Some(Request::Explain(name)),
        "simulate" => Some(Request::Simulate(name)),
        _ => None,
    }
}

// And with two.
fn asked_of_two<'a>(verb: &str, from: &'a str, to: &'a str) -> Option<Request<'a>>
    ensures { option_map seen result ≡ asked verb.now (Two from.now to.now) }
{
    match verb {
        "compile" => Some(compile_to(from, to)),
        "migrate" => Some(migrate_to(from, to)),
        _ => None,
    }
}

// And with these.
fn asked<'a>(verb: &str, names: Names<'a>) -> Option<Request<'a>>
    ensures { option_map seen result ≡ asked verb.now (names_seen names.entry) }
{
    match names {
        Names::One(name) => asked_of_one(verb, name),
        Names::Two(from, to) => asked_of_two(verb, from, to),
        Names::None => None,
    }
}

// The same, of a verb that has no option of its own.
fn asked_plainly<'a>(verb: &str, said: &Said<'a>) -> Option<Request<'a>>
    ensures { option_map seen result ≡ asked_plainly verb.now (said_seen said.now).workers (said_seen said.now).source
        (said_seen said.now).chart (said_seen said.now).names }
{
    match (said.workers, said.source, said.chart) {
        (None, None, None) => asked(verb, said.names),
        _ => None,
    }
}

// What a verb asks for in JSON.
fn json_by<'a>(verb: &str, said: &Said<'a>) -> Option<Request<'a>>
    ensures { option_map seen result ≡ json_by verb.now (said_seen said.now) }
{
    match verb {
        "list" => json_of(said),
        _ => None,
    }
}

// What a verb asks for in plain text.
fn text_by<'a>(verb: &str, said: &Said<'a>) -> Option<Request<'a>>
    ensures { option_map seen result ≡ text_by verb.now (said_seen said.now) }
{
    match verb {
        "run" => run_of(said),
        "list" => list_of(said),
        verb => asked_plainly(verb, said),
    }
}

// What a verb asks for by rules.
fn ruled_by<'a>(verb: &str, said: &Said<'a>) -> Option<Request<'a>>
    ensures { option_map seen result ≡ ruled_by verb.now (said_seen said.now) }
{
    if said.json {
        return None;
    }
    match verb {
        "run" => ruled_of(said),
        _ => None,
    }
}

// What a verb asks for with what is said behind it.
fn request_by<'a>(verb: &str, said: &Said<'a>) -> Option<Request<'a>>
    ensures { option_map seen result ≡ request_by verb.now (said_seen said.now) }
{
    if said.warns && verb != "compile" {
        return None;
    }
    if said.rules.are_said() {
        ruled_by(verb, said)
    } else if said.json {
        json_by(verb, said)
    } else {
        text_by(verb, said)
    }
}

// Whether all words are names.
fn are_names(words: &[String]) -> bool
    ensures { result ≡ are_names (map string_bytes words.now) }
{
    match words.split_first() {
        None => true,
        Some((word, words)) => !is_option(word.as_str()) && are_names(words),
    }
}

// Tests of the files and folders that words name.
fn tests_of<'a>(writes: bool, names: &'a [String]) -> Option<Request<'a>>
    ensures { option_map seen result ≡ tests_of writes (map string_bytes names.now) }
{
    if names.is_empty() || !are_names(names) {
        return None;
    }
    Some(Request::Test(writes, names))
}

// The same, before which it may be said that traces are written.
fn test_of<'a>(words: &'a [String]) -> Option<Request<'a>>
    ensures { option_map seen result ≡ test_of (map string_bytes words.now) }
{
    let (first, names) = words.split_first()?;
    if first.as_str() == "--write" {
        tests_of(true, names)
    } else {
        tests_of(false, words)
    }
}

// What a verb and the words behind it ask for.
fn asked_by<'a>(verb: &str, said: &Said<'a>) -> Option<Asking<'a>>
    ensures request { option_map (λ a. seen a.request) result ≡ request_by verb.now (said_seen said.now) }
    ensures explains { IfSome result (λ a. a.explains ≡ said.now.explains) }
    ensures warns { IfSome result (λ a. a.warns ≡ said.now.warns) }
{
    let request = request_by(verb, said)?;
    Some(Asking {
        request,
        explains: said.explains,
        warns: said.warns,
    })
}

// What these words, without the program's name, ask for.
fn asked_of<'a>(words: &'a [String]) -> Option<Asking<'a>>
    ensures request { option_map (λ a. seen a.request) result ≡ request_of (map string_bytes words.now) }
    ensures explains { IfSome result (λ a. a.explains ≡ explains (map string_bytes words.now)) }
    ensures warns { IfSome result (λ a. a.warns ≡ warns (map string_bytes words.now)) }
{
    let (verb, words) = words.split_first()?;
    if verb.as_str() == "test" {
        let request = test_of(words)?;
        return Some(Asking {
            request,
            explains: false,
            warns: false,
        });
    }
    let said = Said::by(words)?;
    asked_by(verb.as_str(), &said)
}

// What is shown for words that ask for nothing.
fn why_unread(alloc: Global, words: &[String]) -> Result<Unread, AllocError> {
    match sct_command(alloc)?.try_get_matches_from(words) {
        Ok(matches) => {
            drop(matches);
            Ok(Unread::Shown {
                text: String::from_str(alloc, "error: no such command\n")?,
                asked: false,
            })
        }
        Err(error) => Ok(shown(alloc, &error)),
    }
}

/// What these words, without the program's name, ask for. Err: they ask for nothing.
pub fn read_words<'a>(alloc: Global, words: &'a [String]) -> Result<Asking<'a>, Unread>
    ensures asked { IfOk result (λ a. request_of (map string_bytes words.now) ≡ Some (seen a.request)) }
    ensures explains { IfOk result (λ a. explains (map string_bytes words.now) ≡ a.explains) }
    ensures warns { IfOk result (λ a. warns (map string_bytes words.now) ≡ a.warns) }
    ensures unread { OnErr result (request_of (map string_bytes words.now) ≡ None) }
{
    match asked_of(words) {
        Some(asked) => Ok(asked),
        None => Err(why_unread(alloc, words)?),
    }
}
