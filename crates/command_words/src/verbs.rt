//! The verbs, with their help, as the library of command lines knows them. It is asked where words ask for nothing.

use crate::parts::{Verb, command_of};
use crate::words::Word;
use clap::Command;
use std::alloc::{AllocError, Global};

const EXAMPLE: &str = r#"Examples:
  sct compile examples/abro.scl abro.image
  sct run examples/two_threads.image < examples/two_threads.ticks"#;

const COMPILE_EXAMPLES: &str = r#"Examples:
  sct compile examples/abro.chart abro.image
  sct compile --warn examples/abro.chart abro.image
  sct compile - - < examples/abro.chart > abro.image"#;

const LIST_EXAMPLES: &str = r#"Examples:
  sct list examples/two_threads.image
  sct list examples/two_threads.image --json
  sct list abro.image --json --chart examples/abro.chart"#;

// What is typed where ticks are played by hand.
const SIMULATE_HELP: &str = r#"Each line is a tick, or says what to do:
  left right level=7   inputs: those that are named are true, or have this value
  {"left":true}        the same as a line of a run
                       an empty line: no inputs
  undo, reset          one tick back, back to the beginning
  ticks                the ticks so far, as lines of a run
  help, quit

Example:
  sct simulate examples/boxes.chart"#;

// What a test prints, and how it ends.
const TEST_HELP: &str =
    r#"Output, a line for each file that passes, else what differs first, and how many there are:
  ok examples/abro.chart
  1 passed, 0 failed

With --write, a trace that is missing is written, and no other file:
  wrote examples/abro.trace

Status:
  0  none failed
  1  one did, or could not be tried: the last line on standard error is `sct: E66`

Examples:
  sct test examples
  sct test --write examples/abro.chart examples/boxes.chart"#;

// What a run reads and prints, and how it ends.
const RUN_HELP: &str = r#"Input, a line for each tick (an input that is not named is false, or 0):
  {"left":true,"level":7}

Output, a line for each:
  {"out":{"x":1,"y":1},"steps":7,"tick":1}

With --chart:
  {"out":{"x":1,"y":1},"steps":7,"tick":1,"states":["Main.Run"]}

With --skip-bad-lines, of a line that gives no inputs:
  {"error":"E51","line":2}

Status:
  0  the whole input was played
  1  it was not: a line on standard error, such as `sct: E51 line 2`, says why
  2  these words ask for nothing

Examples:
  sct run examples/two_threads.image < examples/two_threads.ticks
  sct run boxes.image --save boxes.place < morning.ticks
  sct run boxes.image --from boxes.place < afternoon.ticks"#;

// The verbs, in the order of the help. Tests are told in words as they are.
const VERBS: &[Verb] = &[
    Verb {
        name: "compile",
        about: "Compiles a chart or an SCL text to an image",
        help: COMPILE_EXAMPLES,
        words: &[Word::Source, Word::WrittenImage, Word::Warn, Word::Explain],
    },
    Verb {
        name: "scl",
        about: "Prints an SCL text, or that of a chart, in its layout",
        help: "Example:\n  sct scl examples/abro.chart",
        words: &[Word::Source, Word::Explain],
    },
    Verb {
        name: "core",
        about: "Prints the chart without aborts to which a chart is expanded",
        help: "Example:\n  sct core examples/abro.chart",
        words: &[Word::Chart, Word::Explain],
    },
    Verb {
        name: "reduce",
        about: "Prints the chart to which an extended chart is reduced",
        help: "Example:\n  sct reduce examples/extended/oven.extended > oven.chart",
        words: &[Word::Extended, Word::Explain],
    },
    Verb {
        name: "explain",
        about: "Tells where and why a chart or an SCL text is refused, and writes no file",
        help: "Example:\n  sct explain examples/abro.chart",
        words: &[Word::Source, Word::Explain],
    },
    Verb {
        name: "dot",
        about: "Prints a chart, or the graph of an SCL text, as Graphviz text",
        help: "Example:\n  sct dot examples/abro.chart | dot -Tsvg > abro.svg",
        words: &[Word::Source, Word::Explain],
    },
    Verb {
        name: "test",
        about: "Plays controllers over their ticks, and compares what they give with their traces",
        help: TEST_HELP,
        words: &[Word::Tested, Word::Write],
    },
    Verb {
        name: "simulate",
        about: "Steps a chart or an SCL text by hand, a tick for each line that is typed",
        help: SIMULATE_HELP,
        words: &[Word::Source, Word::Explain],
    },
    Verb {
        name: "check",
        about: "Decodes and verifies an image",
        help: "Example:\n  sct check examples/two_threads.image",
        words: &[Word::Image, Word::Explain],
    },
    Verb {
        name: "list",
        about: "Prints an image for people: variables, threads, nodes and protocol edges",
        help: LIST_EXAMPLES,
        words: &[
            Word::Image,
            Word::Places,
            Word::Json,
            Word::ListedStates,
            Word::Explain,
        ],
    },
    Verb {
        name: "run",
        about: "Plays standard input to standard output, a tick for each line",
        help: RUN_HELP,
        words: &[
            Word::Image,
            Word::Workers,
            Word::States,
            Word::Strict,
            Word::Skips,
            Word::From,
            Word::Save,
            Word::Explain,
        ],
    },
    Verb {
        name: "migrate",
        about: "Writes an image in version 2 of the layout",
        help: "Example:\n  sct migrate examples/v1/two_threads.image two_threads.image",
        words: &[Word::Old, Word::New, Word::Explain],
    },
];

// The program, without its verbs.
fn program<'a>(alloc: Global) -> Result<Command<'a>, AllocError> {
    let program = Command::new(alloc, "sct")
        .version("0.1.0")
        .about("Compiles SCCharts to images, checks images and runs them")
        .no_binary_name(true)
        .subcommand_required(true)
        .arg_required_else_help(true)
        .after_help(EXAMPLE);
    program.bin_name("sct")
}

// The commands of all verbs.
fn commands_of<'a>(alloc: Global, verbs: &[Verb]) -> Result<Vec<Command<'a>>, AllocError> {
    let mut commands = Vec::new(alloc);
    for verb in verbs {
        commands.push(command_of(alloc, verb)?)?;
    }
    Ok(commands)
}

/// The program with all its verbs. Err: memory was refused.
pub(crate) fn sct_command<'a>(alloc: Global) -> Result<Command<'a>, AllocError> {
    let commands = commands_of(alloc, VERBS)?;
    program(alloc)?.subcommands(commands)
}
