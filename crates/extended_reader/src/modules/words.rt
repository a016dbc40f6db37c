//! The words and signs by which modules and uses are found.

ghost use Rattle.std.specs.Prelude.{◌≡◌, ◌≤◌, ◌&&◌, drop, length};
ghost use Rattle.extended_reader.specs.Words.{is_name, is_word, is_opening, begins, is_end, is_closing, is_region};
ghost use Rattle.extended_reader.specs.Words.{is_declaring};

use sc_text::{Sign, Token, TokenKind, Word};

fn is_name(kind: TokenKind) -> bool
    ensures { result ≡ is_name kind }
{
    match kind {
        TokenKind::Name(_) => true,
        _ => false,
    }
}

/// Whether a token is this word.
pub(crate) fn is_word(word: &str, kind: TokenKind) -> bool
    ensures { result ≡ is_word word.now kind }
{
    match kind {
        TokenKind::Name(name) => name.as_str() == word,
        _ => false,
    }
}

fn is_opening(kind: TokenKind) -> bool
    ensures { result ≡ is_opening kind }
{
    match kind {
        TokenKind::Sign(Sign::OpenParenthesis) => true,
        _ => false,
    }
}

/// Whether a module or a use begins, by its word.
pub(crate) fn begins(word: &str, tokens: &[Token]) -> bool
    ensures { result ≡ begins word.now tokens.now }
{
    match tokens {
        [first, second, third, ..] => {
            is_word(word, first.kind) && is_name(second.kind) && is_opening(third.kind)
        }
        _ => false,
    }
}

/// Whether one begins where it may.
pub(crate) fn follows(may_begin: bool, word: &str, tokens: &[Token]) -> bool
    ensures { result ≡ (may_begin && begins word.now tokens.now) }
{
    may_begin && begins(word, tokens)
}

/// The tokens behind so many.
#[tactic(auto, using(crate::proofs::Rests::rest_is))]
pub(crate) fn rest_of(tokens: &[Token], count: usize) -> &[Token]
    requires { count ≤ length tokens.now }
    ensures { result.now ≡ drop count tokens.now }
{
    &tokens[count..]
}

/// Whether an item, an action, a region, a state or a transition may begin behind a token.
pub(crate) fn is_end(kind: TokenKind) -> bool
    ensures { result ≡ is_end kind }
{
    match kind {
        TokenKind::Sign(Sign::Semicolon) => true,
        TokenKind::Sign(Sign::OpenBrace) => true,
        TokenKind::Sign(Sign::CloseBrace) => true,
        _ => false,
    }
}

/// Whether a token is the brace that closes.
pub(crate) fn is_closing(kind: TokenKind) -> bool
    ensures { result ≡ is_closing kind }
{
    match kind {
        TokenKind::Sign(Sign::CloseBrace) => true,
        _ => false,
    }
}

/// Whether a token is the word of a region.
pub(crate) fn is_region(kind: TokenKind) -> bool
    ensures { result ≡ is_region kind }
{
    match kind {
        TokenKind::Word(Word::Region) => true,
        _ => false,
    }
}

/// Whether an item names what it declares behind a token.
pub(crate) fn is_declaring(kind: TokenKind) -> bool
    ensures { result ≡ is_declaring kind }
{
    match kind {
        TokenKind::Word(Word::Bool) => true,
        TokenKind::Word(Word::Int) => true,
        _ => is_word("signal", kind),
    }
}
