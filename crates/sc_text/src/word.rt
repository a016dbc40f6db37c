//! The reserved words.

ghost use Rattle.std.specs.Prelude.{◌≡◌, ◌≢◌, MatchOption};
ghost use Rattle.sc_text.specs.Words.{word_text};
ghost use Rattle.sc_text.specs.declared.word.Word.{Word};

/// A reserved word, of charts or of SCL.
#[derive(Clone, Copy, PartialEq, Eq)]
pub enum Word {
    Chart,
    Scl,
    Input,
    Output,
    Local,
    Bool,
    Int,
    Region,
    Initial,
    Final,
    State,
    Go,
    Strong,
    Weak,
    Join,
    Immediate,
    If,
    Else,
    Do,
    Goto,
    Fork,
    Par,
    Pause,
    True,
    False,
    Not,
    And,
    Or,
    Min,
    Max,
}

const WORDS: [Word; 30] = [
    Word::Chart,
    Word::Scl,
    Word::Input,
    Word::Output,
    Word::Local,
    Word::Bool,
    Word::Int,
    Word::Region,
    Word::Initial,
    Word::Final,
    Word::State,
    Word::Go,
    Word::Strong,
    Word::Weak,
    Word::Join,
    Word::Immediate,
    Word::If,
    Word::Else,
    Word::Do,
    Word::Goto,
    Word::Fork,
    Word::Par,
    Word::Pause,
    Word::True,
    Word::False,
    Word::Not,
    Word::And,
    Word::Or,
    Word::Min,
    Word::Max,
];

impl Word {
    /// The word that these bytes spell. None: they spell none.
    pub fn of(bytes: &[u8]) -> Option<Word>
        ensures { MatchOption result ((w : Word) → bytes.now ≢ word_text w) (λ w. bytes.now ≡ word_text w) }
    {
        for word in WORDS {
            if bytes == word.text().as_bytes() {
                return Some(word);
            }
        }
        None
    }

    /// How it is spelled.
    pub fn text(self) -> &'static str
        ensures { result.now ≡ word_text self }
    {
        match self {
            Word::Chart => "chart",
            Word::Scl => "scl",
            Word::Input => "input",
            Word::Output => "output",
            Word::Local => "local",
            Word::Bool => "bool",
            Word::Int => "int",
            Word::Region => "region",
            Word::Initial => "initial",
            Word::Final => "final",
            Word::State => "state",
            Word::Go => "go",
            Word::Strong => "strong",
            Word::Weak => "weak",
            Word::Join => "join",
            Word::Immediate => "immediate",
            Word::If => "if",
            Word::Else => "else",
            Word::Do => "do",
            Word::Goto => "goto",
            Word::Fork => "fork",
            Word::Par => "par",
            Word::Pause => "pause",
            Word::True => "true",
            Word::False => "false",
            Word::Not => "not",
            Word::And => "and",
            Word::Or => "or",
            Word::Min => "min",
            Word::Max => "max",
        }
    }
}
