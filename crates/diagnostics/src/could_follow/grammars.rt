//! The grammars by which texts are read.

ghost use Rattle.std.specs.Prelude.{◌≡◌};
ghost use Rattle.diagnostics.specs.Continuations.{IsReadBy, tokens_of};

use chart_texts::begins_extended;
use sc_text::{Language, language_of};

/// The grammars by which texts are read.
#[derive(Clone, Copy, PartialEq, Eq)]
pub enum Grammar {
    Chart,
    ExtendedChart,
    Scl,
}

impl Grammar {
    /// The grammar by which a text is read: its first token tells.
    pub fn of(text: &str) -> Grammar
        ensures { IsReadBy text.now result }
    {
        if begins_extended(text.as_bytes()) {
            return Grammar::ExtendedChart;
        }
        match language_of(text) {
            Language::Chart => Grammar::Chart,
            Language::Scl => Grammar::Scl,
        }
    }

    /// The language into whose tokens its texts are cut.
    pub fn tokens(self) -> Language
        ensures { result ≡ tokens_of self }
    {
        match self {
            Grammar::Chart | Grammar::ExtendedChart => Language::Chart,
            Grammar::Scl => Language::Scl,
        }
    }
}
