//! The levels of infix operators.

ghost use Rattle.std.specs.Prelude.{◌≡◌, []};
ghost use Rattle.grammar.specs.Read.{starts};
ghost use Rattle.sc_text.specs.Expression.{text_tokens, comparisons};
ghost use Rattle.sc_text.specs.Phrases.{operator_of, division_of};
ghost use Rattle.sc_text.specs.Levels.{operators, begins_behind, quotients, divisions};

use crate::ahead::{sign_follows, word_follows};
use crate::sign::Sign;
use crate::token::{Token, TokenKind};
use crate::word::Word;
use sc_values::{BinaryOperator, Divisor, UnaryOperator};

/// A level of infix operators, from the one that binds weakest.
#[derive(Clone, Copy)]
pub enum Level {
    Disjunction,
    Conjunction,
    Sum,
    Product,
}

impl Level {
    /// Whether an operator of the level is next.
    pub fn has_next(self, tokens: &[Token]) -> bool
        ensures { result ≡ starts text_tokens (operators self) tokens.now }
    {
        match self {
            Level::Disjunction => word_follows(tokens, Word::Or),
            Level::Conjunction => word_follows(tokens, Word::And),
            Level::Sum => sign_follows(tokens, Sign::Plus) || sign_follows(tokens, Sign::Minus),
            Level::Product => sign_follows(tokens, Sign::Star),
        }
    }

    /// Whether an operand is followed by another one of the level, or divided.
    pub fn goes_on(self, tokens: &[Token]) -> bool
        ensures { result ≡ starts text_tokens (begins_behind self) tokens.now }
    {
        match self {
            Level::Product => sign_follows(tokens, Sign::Star) || divides(tokens),
            Level::Disjunction | Level::Conjunction | Level::Sum => self.has_next(tokens),
        }
    }

    /// Whether an operand of the level is divided.
    pub fn divides(self, tokens: &[Token]) -> bool
        ensures { result ≡ starts text_tokens (quotients self) tokens.now }
    {
        match self {
            Level::Product => divides(tokens),
            Level::Disjunction | Level::Conjunction | Level::Sum => nothing(tokens),
        }
    }
}

fn nothing(tokens: &[Token]) -> bool
    ensures { result ≡ starts text_tokens [] tokens.now }
{
    match tokens {
        [] => false,
        [_, ..] => false,
    }
}

/// Whether a comparison is next.
pub fn compares(tokens: &[Token]) -> bool
    ensures { result ≡ starts text_tokens comparisons tokens.now }
{
    sign_follows(tokens, Sign::Equal)
        || sign_follows(tokens, Sign::NotEqual)
        || sign_follows(tokens, Sign::Less)
        || sign_follows(tokens, Sign::LessOrEqual)
        || sign_follows(tokens, Sign::Greater)
        || sign_follows(tokens, Sign::GreaterOrEqual)
}

/// Whether a division is next.
pub fn divides(tokens: &[Token]) -> bool
    ensures { result ≡ starts text_tokens divisions tokens.now }
{
    sign_follows(tokens, Sign::Slash) || sign_follows(tokens, Sign::Percent)
}

/// The operator that a token writes between its operands or before them.
pub fn operator_of(kind: TokenKind) -> BinaryOperator
    ensures { result ≡ operator_of kind }
{
    match kind {
        TokenKind::Word(word) => of_word(word),
        TokenKind::Sign(sign) => of_sign(sign),
        TokenKind::Name(_) | TokenKind::Number(_) => BinaryOperator::Add,
    }
}

fn of_word(word: Word) -> BinaryOperator
    ensures { result ≡ operator_of (TokenKind.Word word) }
{
    match word {
        Word::Or => BinaryOperator::Or,
        Word::And => BinaryOperator::And,
        Word::Min => BinaryOperator::Min,
        Word::Max => BinaryOperator::Max,
        _ => BinaryOperator::Add,
    }
}

fn of_sign(sign: Sign) -> BinaryOperator
    ensures { result ≡ operator_of (TokenKind.Sign sign) }
{
    match sign {
        Sign::Equal => BinaryOperator::Equal,
        Sign::NotEqual => BinaryOperator::NotEqual,
        Sign::Less => BinaryOperator::Less,
        Sign::LessOrEqual => BinaryOperator::LessOrEqual,
        Sign::Greater => BinaryOperator::Greater,
        Sign::GreaterOrEqual => BinaryOperator::GreaterOrEqual,
        Sign::Minus => BinaryOperator::Subtract,
        Sign::Star => BinaryOperator::Multiply,
        _ => BinaryOperator::Add,
    }
}

/// The division that a token writes, by this divisor.
pub fn division_of(kind: TokenKind, divisor: Divisor) -> UnaryOperator
    ensures { result ≡ division_of kind divisor }
{
    match kind {
        TokenKind::Sign(Sign::Percent) => UnaryOperator::Remainder(divisor),
        _ => UnaryOperator::Divide(divisor),
    }
}
