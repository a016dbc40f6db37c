//! The signs.

ghost use Rattle.std.specs.Prelude.{◌≡◌, ◌≢◌, MatchOption};
ghost use Rattle.sc_text.specs.Words.{sign_text};
ghost use Rattle.sc_text.specs.declared.sign.Sign.{Sign};

/// A sign, of charts or of SCL.
#[derive(Clone, Copy, PartialEq, Eq)]
pub enum Sign {
    OpenBrace,
    CloseBrace,
    OpenParenthesis,
    CloseParenthesis,
    Semicolon,
    Colon,
    Comma,
    Becomes,
    Equal,
    NotEqual,
    Less,
    LessOrEqual,
    Greater,
    GreaterOrEqual,
    Plus,
    Minus,
    Star,
    Slash,
    Percent,
    Arrow,
}

const SIGNS: [Sign; 20] = [
    Sign::OpenBrace,
    Sign::CloseBrace,
    Sign::OpenParenthesis,
    Sign::CloseParenthesis,
    Sign::Semicolon,
    Sign::Colon,
    Sign::Comma,
    Sign::Becomes,
    Sign::Equal,
    Sign::NotEqual,
    Sign::Less,
    Sign::LessOrEqual,
    Sign::Greater,
    Sign::GreaterOrEqual,
    Sign::Plus,
    Sign::Minus,
    Sign::Star,
    Sign::Slash,
    Sign::Percent,
    Sign::Arrow,
];

impl Sign {
    /// The sign that these bytes spell. None: they spell none.
    pub fn of(bytes: &[u8]) -> Option<Sign>
        ensures { MatchOption result ((s : Sign) → bytes.now ≢ sign_text s) (λ s. bytes.now ≡ sign_text s) }
    {
        for sign in SIGNS {
            if bytes == sign.text().as_bytes() {
                return Some(sign);
            }
        }
        None
    }

    /// How it is spelled.
    pub fn text(self) -> &'static str
        ensures { result.now ≡ sign_text self }
    {
        match self {
            Sign::OpenBrace => "{",
            Sign::CloseBrace => "}",
            Sign::OpenParenthesis => "(",
            Sign::CloseParenthesis => ")",
            Sign::Semicolon => ";",
            Sign::Colon => ":",
            Sign::Comma => ",",
            Sign::Becomes => "=",
            Sign::Equal => "==",
            Sign::NotEqual => "!=",
            Sign::Less => "<",
            Sign::LessOrEqual => "<=",
            Sign::Greater => ">",
            Sign::GreaterOrEqual => ">=",
            Sign::Plus => "+",
            Sign::Minus => "-",
            Sign::Star => "*",
            Sign::Slash => "/",
            Sign::Percent => "%",
            Sign::Arrow => "->",
        }
    }
}
