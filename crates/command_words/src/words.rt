//! The arguments of verbs, with their help. What is known of them is told by functions, so that the table of verbs has
//! their names alone: a constant with all of it within is dear to check.

// The file that a command writes.
const WRITTEN: &str = "The file that is written, or - for standard output";

// What can be said of workers.
const NUMBERS: &[&str] = &["1", "2", "3", "4", "5", "6", "7", "8"];

/// An argument of a verb.
#[derive(Clone, Copy)]
pub(crate) enum Word {
    /// The operand that is a source text.
    Source,
    /// The operand that is a chart.
    Chart,
    /// The operand that is an extended chart.
    Extended,
    /// The operand that is an image.
    Image,
    /// The file that a compilation writes.
    WrittenImage,
    /// The image that is migrated.
    Old,
    /// The file that a migration writes.
    New,
    /// What is tested.
    Tested,
    /// Whether traces that are missing are written.
    Write,
    /// Whether what a chart most likely does not mean is told.
    Warn,
    /// The text whose places are listed.
    Places,
    /// Whether programs read what is listed.
    Json,
    /// The chart whose states are listed.
    ListedStates,
    /// What can be asked of each verb but one: words behind a fault.
    Explain,
    /// How many threads serve.
    Workers,
    /// The chart whose active states are told.
    States,
    /// Whether each line has to name every input.
    Strict,
    /// Whether a line that gives no inputs is passed over.
    Skips,
    /// Where a run begins.
    From,
    /// Where the place goes where it ends.
    Save,
}

/// How an argument is given.
#[derive(Clone, Copy)]
pub(crate) enum Form {
    /// As an operand, which has to be there.
    Operand,
    /// As operands, of which there is one at least.
    Operands,
    /// As a flag.
    Flag,
    /// As an option with a value.
    Valued,
    /// As an option with one of the first values, or, where it is not given, the second.
    OneOf(&'static [&'static str], &'static str),
}

impl Word {
    /// By what it is read back, and, of an option, what stands behind the hyphens.
    pub(crate) fn name(self) -> &'static str {
        match self {
            Word::Source | Word::Chart | Word::Extended | Word::Tested => "file",
            Word::Image | Word::WrittenImage => "image",
            Word::Old => "old",
            Word::New => "new",
            Word::Write => "write",
            Word::Warn => "warn",
            Word::Places => "source",
            Word::Json => "json",
            Word::ListedStates | Word::States => "chart",
            Word::Explain => "explain",
            Word::Workers => "workers",
            Word::Strict => "strict",
            Word::Skips => "skip-bad-lines",
            Word::From => "from",
            Word::Save => "save",
        }
    }

    /// How it is given.
    pub(crate) fn form(self) -> Form {
        match self {
            Word::Source
            | Word::Chart
            | Word::Extended
            | Word::Image
            | Word::WrittenImage
            | Word::Old
            | Word::New => Form::Operand,
            Word::Tested => Form::Operands,
            Word::Write | Word::Warn | Word::Json | Word::Explain | Word::Strict | Word::Skips =>
                Form::Flag,
            Word::Places | Word::ListedStates | Word::States | Word::From | Word::Save =>
                Form::Valued,
            Word::Workers => Form::OneOf(NUMBERS, "2"),
        }
    }

    /// What help calls its value, where it has one.
    pub(crate) fn shown(self) -> &'static [&'static str] {
        match self {
            Word::Source
            | Word::Chart
            | Word::Extended
            | Word::Tested
            | Word::Places
            | Word::ListedStates
            | Word::States
            | Word::From
            | Word::Save => &["FILE"],
            Word::Image | Word::WrittenImage => &["IMAGE"],
            Word::Old => &["OLD"],
            Word::New => &["NEW"],
            Word::Write | Word::Warn | Word::Json | Word::Explain | Word::Strict | Word::Skips =>
                &[],
            Word::Workers => &["N"],
        }
    }

    /// What help says of it.
    pub(crate) fn about(self) -> &'static str {
        match self {
            Word::Source => "The file of the chart or SCL text, or - for standard input",
            Word::Chart => "The file of the chart, or - for standard input",
            Word::Extended => "The file of the extended chart, or - for standard input",
            Word::Image => "The file of the image",
            Word::WrittenImage | Word::New => WRITTEN,
            Word::Old => "The file of the image, in either version",
            Word::Tested =>
                "Charts or SCL texts, or folders of them: beside NAME.chart, NAME.ticks has the input and NAME.trace what it has to give",
            Word::Write =>
                "Before the files: write each trace that is missing, as what the ticks give now",
            Word::Warn =>
                "Tell on standard error what a chart says and most likely does not mean, as `sct explain` does",
            Word::Places =>
                "The chart or SCL text that it was compiled from: each node is listed with its place there",
            Word::Json => "Print a line of JSON for programs: variables, counts and the budget",
            Word::ListedStates =>
                "With --json: the chart that it was compiled from, whose states are told too",
            Word::Explain =>
                "Tell a fault in words too, behind its line, as where standard error is a terminal",
            Word::Workers => "How many threads serve, from 1 to 8: the trace is the same for each",
            Word::States =>
                "The chart that it was compiled from: each line tells the active states too, and one thread serves",
            Word::Strict => "Each line has to name every input; one thread serves",
            Word::Skips =>
                "A line that gives no inputs is answered and passed over; one thread serves",
            Word::From => "Begin at the place that is in this file; one thread serves",
            Word::Save => "Write the place where it ends to this file; one thread serves",
        }
    }

    /// What cannot be given beside it.
    pub(crate) fn bars(self) -> &'static [&'static str] {
        match self {
            Word::Json => &["source"],
            Word::States => &["workers"],
            Word::Strict | Word::Skips | Word::From | Word::Save => &["workers", "chart"],
            _ => &[],
        }
    }

    /// What has to be given beside it.
    pub(crate) fn needs(self) -> &'static [&'static str] {
        match self {
            Word::ListedStates => &["json"],
            _ => &[],
        }
    }
}
