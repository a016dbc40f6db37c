//! Cutting a text into its tokens.

ghost use Rattle.std.specs.Prelude.{◌≡◌, ◌<◌, ◌≤◌, ◌++◌, OnOk, pos, length, IfOk, IfErr, MatchOption, MatchResult};
ghost use Rattle.std.specs.List.{list_all};
ghost use Rattle.sc_values.specs.Name.{is_digit};
ghost use Rattle.sc_text.specs.Tokens.{AreTokens, IsScanFault, IsPassed, IsRefused, Spells, has_idle_zero};
ghost use Rattle.sc_text.specs.Tokens.{number_limit, written};
ghost use Rattle.sc_text.specs.Inside.{IsMadeOf, IsStep, IsNoStep, IsValue, IsNumber, IsNoNumber, IsFree, token_at};
ghost use Rattle.sc_text.specs.declared.piece.Piece.TheVariants as piece;

use crate::language::Language;
use crate::piece::{Piece, longest_piece};
use crate::read_fault::{FaultKind, ReadFault};
use crate::token::{Token, TokenKind};
use crate::word::Word;
use sc_values::Name;
use sqlite_items::Items;
use std::alloc::{AllocError, Global};

const NUMBER_LIMIT: u64 = 2147483647;

/// The tokens of a text, in order. White space and comments are passed over. Err: at the first place
/// where no token stands what is broken there, or memory was refused.
pub fn tokens(alloc: Global, language: Language, text: &str) -> Result<Items<Token>, ReadFault>
    ensures ok { IfOk result (λ tokens. AreTokens language 0 text.now tokens) }
    ensures fault { IfErr result (λ fault. IsScanFault language text.now fault) }
{
    let bytes = text.as_bytes();
    let mut tokens = Items::new(alloc);
    let mut at = 0;
    while at < bytes.len() {
        let step = match next_step(language, &bytes[at..]) {
            Ok(step) => step,
            Err(broken) => return Err(ReadFault::Text(broken, at)),
        };
        put(&mut tokens, at, step.kind)?;
        at += step.length;
    }
    Ok(tokens)
}

// Puts the token at this place behind the others, if there is one.
fn put(tokens: &mut Items<Token>, at: usize, kind: Option<TokenKind>) -> Result<(), AllocError>
    ensures { OnOk result (tokens.new ≡ tokens.old ++ token_at at kind) }
{
    match kind {
        Some(kind) => tokens.push(Token { kind, at }),
        None => Ok(()),
    }
}

// The longest piece at the front of a text, and its token, if it is one.
#[derive(Clone, Copy)]
struct Step {
    length: usize,
    kind: Option<TokenKind>,
}

fn next_step(language: Language, text: &[u8]) -> Result<Step, FaultKind>
    requires { 0 < length text.now }
    ensures { MatchResult result (λ step. IsStep language text.now step) (λ broken. IsNoStep language text.now broken) }
{
    match longest_piece(text) {
        Some((piece, length)) => {
            match kind_of(language, piece, &text[..length]) {
                Ok(kind) => Ok(Step { length, kind }),
                Err(broken) => Err(broken),
            }
        }
        None => Err(FaultKind::Token),
    }
}

// The token that a piece is. None: it is passed over.
fn kind_of(language: Language, piece: Piece, bytes: &[u8]) -> Result<Option<TokenKind>, FaultKind>
    requires { IsMadeOf piece bytes.now }
    ensures { MatchResult result (λ kind. MatchOption kind (IsPassed bytes.now) (λ k. Spells language bytes.now k))
        (λ broken. IsRefused language bytes.now broken) }
{
    match piece {
        Piece::Word => Ok(Some(word_or_name(language, bytes)?)),
        Piece::Digits => Ok(Some(number(bytes)?)),
        Piece::Sign(sign) => Ok(Some(TokenKind::Sign(sign))),
        Piece::Blank => Ok(None),
        Piece::Comment => Ok(None),
    }
}

fn word_or_name(language: Language, bytes: &[u8]) -> Result<TokenKind, FaultKind>
    requires { IsMadeOf piece.Word bytes.now }
    ensures { MatchResult result (λ kind. Spells language bytes.now kind)
        (λ broken. IsRefused language bytes.now broken) }
{
    match Word::of(bytes) {
        Some(word) => Ok(TokenKind::Word(word)),
        None => name(language, bytes),
    }
}

fn name(language: Language, bytes: &[u8]) -> Result<TokenKind, FaultKind>
    requires made_of { IsMadeOf piece.Word bytes.now }
    requires free { IsFree bytes.now }
    ensures { MatchResult result (λ kind. Spells language bytes.now kind)
        (λ broken. IsRefused language bytes.now broken) }
{
    if language.allows(bytes[0]) {
        match Name::from_bytes(bytes) {
            Some(name) => Ok(TokenKind::Name(name)),
            None => Err(FaultKind::Limit),
        }
    } else {
        Err(FaultKind::Token)
    }
}

fn number(digits: &[u8]) -> Result<TokenKind, FaultKind>
    requires { IsMadeOf piece.Digits digits.now }
    ensures { MatchResult result (λ kind. IsNumber digits.now kind) (λ broken. IsNoNumber digits.now broken) }
{
    if has_idle_zero(digits) {
        return Err(FaultKind::Token);
    }
    match value_of(digits) {
        Some(value) => Ok(TokenKind::Number(value)),
        None => Err(FaultKind::Limit),
    }
}

fn has_idle_zero(digits: &[u8]) -> bool
    ensures { result ≡ has_idle_zero digits.now }
{
    match digits {
        [first, _, ..] => *first == b'0',
        _ => false,
    }
}

// The number that these digits write. None: it is too large.
fn value_of(digits: &[u8]) -> Option<i32>
    ensures { MatchOption result (number_limit < written digits.now) (λ value. IsValue value digits.now) }
{
    let mut value: u64 = 0;
    for digit in digits {
        value = value * 10 + digit.saturating_sub(b'0') as u64;
        if value > NUMBER_LIMIT {
            return None;
        }
    }
    Some(value as i32)
}
