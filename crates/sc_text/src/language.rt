//! The two languages of programs.

ghost use Rattle.std.specs.Prelude.{◌≡◌};

/// Which language a text is in.
#[derive(Clone, Copy, PartialEq, Eq)]
pub enum Language {
    /// Charts. Their names don't begin with `_`, so that compiling them finds names of its own.
    Chart,
    Scl,
}

impl Language {
    ghost use Rattle.sc_text.specs.Tokens.{allows};

    /// Whether a name may begin with this byte, which is a letter or `_`.
    pub fn allows(self, first: u8) -> bool
        ensures { result ≡ allows self first }
    {
        match self {
            Language::Chart => first != b'_',
            Language::Scl => true,
        }
    }
}
