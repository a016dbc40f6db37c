//! The words behind a verb, one after the other: its options with their values, and the names of files.

ghost use Rattle.std.specs.Prelude.{◌≡◌, Some, map, option_map, string_bytes};
ghost use Rattle.command_words.specs.Said.{chart_in, names_seen, said_seen, source_in, step, workers_in, workers_named};
ghost use Rattle.command_words.specs.Said.{by_file, ended, opened, read_on, said_by, start, valued, with_name};
ghost use Rattle.command_words.specs.Said.{explained, in_json, is_option, named, warned};
ghost use Rattle.command_words.specs.Inside.Flags.{flagged};
ghost use Rattle.command_words.specs.Inside.Taking.{taken};
ghost use Rattle.command_words.specs.Said.{by_rule, from_in, ruled, rules_seen, save_in};
ghost use Rattle.command_words.specs.Said.{with_chart, with_source, with_workers};

use crate::run_rules::RunRules;
use crate::workers::Workers;

/// The names of files: no command has more than two.
#[derive(Clone, Copy)]
pub(crate) enum Names<'a> {
    None,
    One(&'a str),
    Two(&'a str, &'a str),
}

/// For what the next word is taken.
#[derive(Clone, Copy, PartialEq, Eq)]
pub(crate) enum Next {
    /// An option or a name.
    Any,
    /// How many workers there are.
    Number,
    /// The name of a source.
    Source,
    /// The name of a chart.
    Chart,
    /// The name of the file that has the place where a run begins.
    From,
    /// The name of the file to which the place goes where it ends.
    Save,
    /// A name, whatever it begins with: a `--` stood before.
    Name,
}

/// What was said so far.
#[derive(Clone, Copy)]
pub(crate) struct Said<'a> {
    next: Next,
    /// How many workers there are, where that was said.
    pub(crate) workers: Option<Workers>,
    /// The source, where one was said.
    pub(crate) source: Option<&'a str>,
    /// The chart, where one was said.
    pub(crate) chart: Option<&'a str>,
    /// Whether words are wanted behind a fault.
    pub(crate) explains: bool,
    /// Whether JSON is wanted.
    pub(crate) json: bool,
    /// Whether warnings are wanted.
    pub(crate) warns: bool,
    /// What is asked of a run.
    pub(crate) rules: RunRules<'a>,
    /// The files.
    pub(crate) names: Names<'a>,
}

/// Whether a word is an option: a hyphen and more.
pub(crate) fn is_option(word: &str) -> bool
    ensures { result ≡ is_option word.now }
{
    match word.as_bytes() {
        [first, _, ..] => *first == b'-',
        _ => false,
    }
}

// How many workers a word names: 1 to 8.
fn workers_named(word: &[u8]) -> Option<Workers>
    ensures { option_map (λ w. w.number) result ≡ workers_named word.now }
{
    match word {
        [digit] if b'1' <= *digit && *digit <= b'8' => Some(Workers {
            number: *digit - b'0',
        }),
        _ => None,
    }
}

// How many workers an option says in one word.
fn workers_in(word: &[u8]) -> Option<Workers>
    ensures { option_map (λ w. w.number) result ≡ workers_in word.now }
{
    workers_named(word.strip_prefix(b"--workers=")?)
}

// The name of the source that an option says in one word.
#[tactic(auto, using(crate::proofs::Sources::said))]
fn source_in(word: &str) -> Option<&str>
    ensures { option_map (λ s. s.now) result ≡ source_in word.now }
{
    word.strip_prefix("--source=")
}

// The name of the chart that an option says in one word.
#[tactic(auto, using(crate::proofs::Sources::chart_said))]
fn chart_in(word: &str) -> Option<&str>
    ensures { option_map (λ s. s.now) result ≡ chart_in word.now }
{
    word.strip_prefix("--chart=")
}

// The file that an option says in one word, in which a run begins.
#[tactic(auto, using(crate::proofs::Sources::from_said))]
fn from_in(word: &str) -> Option<&str>
    ensures { option_map (λ s. s.now) result ≡ from_in word.now }
{
    word.strip_prefix("--from=")
}

// The file that an option says in one word, to which its place goes.
#[tactic(auto, using(crate::proofs::Sources::save_said))]
fn save_in(word: &str) -> Option<&str>
    ensures { option_map (λ s. s.now) result ≡ save_in word.now }
{
    word.strip_prefix("--save=")
}

// One more name.
fn with_name<'a>(names: Names<'a>, name: &'a str) -> Option<Names<'a>>
    ensures { option_map names_seen result ≡ with_name (names_seen names.entry) name.now }
{
    match names {
        Names::None => Some(Names::One(name)),
        Names::One(first) => Some(Names::Two(first, name)),
        Names::Two(_, _) => None,
    }
}

impl<'a> Said<'a> {
    // Nothing yet.
    fn start() -> Said<'a>
        ensures { said_seen result ≡ start }
    {
        Said {
            next: Next::Any,
            workers: None,
            source: None,
            chart: None,
            explains: false,
            json: false,
            warns: false,
            rules: RunRules::none(),
            names: Names::None,
        }
    }

    // Takes the number of workers, which is said once.
    fn with_workers(&mut self, workers: Workers) -> bool
        ensures { taken result (said_seen self.new) ≡ with_workers (said_seen self.old) workers.number }
    {
        if self.workers.is_some() {
            return false;
        }
        self.next = Next::Any;
        self.workers = Some(workers);
        true
    }

    // Takes the source, which is said once.
    fn with_source(&mut self, source: &'a str) -> bool
        ensures { taken result (said_seen self.new) ≡ with_source (said_seen self.old) source.now }
    {
        if self.source.is_some() {
            return false;
        }
        self.next = Next::Any;
        self.source = Some(source);
        true
    }

    // Takes the chart, which is said once.
    fn with_chart(&mut self, chart: &'a str) -> bool
        ensures { taken result (said_seen self.new) ≡ with_chart (said_seen self.old) chart.now }
    {
        if self.chart.is_some() {
            return false;
        }
        self.next = Next::Any;
        self.chart = Some(chart);
        true
    }

    // Takes that words are wanted behind a fault, which is said once.
    fn explained(&mut self) -> bool
        ensures { taken result (said_seen self.new) ≡ explained (said_seen self.old) }
    {
        let is_new = !self.explains;
        self.explains = true;
        is_new
    }

    // Takes that JSON is wanted, which is said once.
    fn in_json(&mut self) -> bool
        ensures { taken result (said_seen self.new) ≡ in_json (said_seen self.old) }
    {
        let is_new = !self.json;
        self.json = true;
        is_new
    }

    // Takes that warnings are wanted, which is said once.
    fn warned(&mut self) -> bool
        ensures { taken result (said_seen self.new) ≡ warned (said_seen self.old) }
    {
        let is_new = !self.warns;
        self.warns = true;
        is_new
    }

    // Takes one more name.
    fn named(&mut self, name: &'a str) -> bool
        ensures { taken result (said_seen self.new) ≡ named (said_seen self.old) name.now }
    {
        match with_name(self.names, name) {
            Some(names) => {
                self.names = names;
                true
            }
            None => false,
        }
    }

    // Takes these rules of a run, where they can be said.
    fn ruled(&mut self, rules: Option<RunRules<'a>>) -> bool
        ensures { taken result (said_seen self.new)
            ≡ ruled (said_seen self.old) (option_map rules_seen rules.entry) }
    {
        match rules {
            Some(rules) => {
                self.next = Next::Any;
                self.rules = rules;
                true
            }
            None => false,
        }
    }

    // Takes an option that says in the same word where a run begins or is kept.
    fn by_rule(&mut self, word: &'a str) -> bool
        ensures { taken result (said_seen self.new) ≡ by_rule (said_seen self.old) word.now }
    {
        if let Some(name) = from_in(word) {
            return self.ruled(self.rules.begun_in(name));
        }
        match save_in(word) {
            Some(name) => self.ruled(self.rules.kept_in(name)),
            None => false,
        }
    }

    // Takes an option that says a file in the same word.
    fn by_file(&mut self, word: &'a str) -> bool
        ensures { taken result (said_seen self.new) ≡ by_file (said_seen self.old) word.now }
    {
        if let Some(source) = source_in(word) {
            return self.with_source(source);
        }
        match chart_in(word) {
            Some(chart) => self.with_chart(chart),
            None => self.by_rule(word),
        }
    }

    // Takes an option that says its value in the same word.
    fn valued(&mut self, word: &'a str) -> bool
        ensures { taken result (said_seen self.new) ≡ valued (said_seen self.old) word.now }
    {
        match workers_in(word.as_bytes()) {
            Some(workers) => self.with_workers(workers),
            None => self.by_file(word),
        }
    }

    // Takes the next word for this.
    fn awaits(&mut self, next: Next) -> bool
        ensures { taken result (said_seen self.new) ≡ Some (record (said_seen self.old) { next = next }) }
    {
        self.next = next;
        true
    }

    // Takes a flag, an option that says its value in the same word, or a name.
    fn flagged(&mut self, word: &'a str) -> bool
        ensures { taken result (said_seen self.new) ≡ flagged (said_seen self.old) word.now }
    {
        match word {
            "--strict" => self.ruled(self.rules.strictly()),
            "--skip-bad-lines" => self.ruled(self.rules.skipping()),
            "--explain" => self.explained(),
            "--json" => self.in_json(),
            "--warn" => self.warned(),
            word if is_option(word) => self.valued(word),
            word => self.named(word),
        }
    }

    // Takes a word that may be an option.
    fn opened(&mut self, word: &'a str) -> bool
        ensures { taken result (said_seen self.new) ≡ opened (said_seen self.old) word.now }
    {
        match word {
            "--" => self.awaits(Next::Name),
            "--workers" => self.awaits(Next::Number),
            "--source" => self.awaits(Next::Source),
            "--chart" => self.awaits(Next::Chart),
            "--from" => self.awaits(Next::From),
            "--save" => self.awaits(Next::Save),
            word => self.flagged(word),
        }
    }

    // Takes one more word. Whether it can be taken.
    fn step(&mut self, word: &'a str) -> bool
        ensures { taken result (said_seen self.new) ≡ step (said_seen self.old) word.now }
    {
        match self.next {
            Next::Any => self.opened(word),
            Next::Number => match workers_named(word.as_bytes()) {
                Some(workers) => self.with_workers(workers),
                None => false,
            },
            Next::Source | Next::Chart | Next::From | Next::Save if is_option(word) => false,
            Next::Source => self.with_source(word),
            Next::Chart => self.with_chart(word),
            Next::From => self.ruled(self.rules.begun_in(word)),
            Next::Save => self.ruled(self.rules.kept_in(word)),
            Next::Name => self.named(word),
        }
    }

    // Whether no value is missing.
    fn is_ended(&self) -> bool
        ensures { taken result (said_seen self.now) ≡ ended (said_seen self.now) }
    {
        match self.next {
            Next::Any | Next::Name => true,
            Next::Number | Next::Source | Next::Chart | Next::From | Next::Save => false,
        }
    }

    // Takes these words, which are the last ones. Whether they can be taken, and no value is missing.
    fn read_on(&mut self, words: &'a [String]) -> bool
        ensures { taken result (said_seen self.new) ≡ read_on (said_seen self.old) (map string_bytes words.now) }
    {
        match words.split_first() {
            None => self.is_ended(),
            Some((word, words)) => self.step(word.as_str()) && self.read_on(words),
        }
    }

    /// What the words behind a verb say. None: one of them cannot be taken, or a value is missing.
    pub(crate) fn by(words: &'a [String]) -> Option<Said<'a>>
        ensures { option_map said_seen result ≡ said_by (map string_bytes words.now) }
    {
        let mut said = Said::start();
        if said.read_on(words) {
            Some(said)
        } else {
            None
        }
    }
}
