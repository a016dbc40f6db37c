//! The parts of an expression in which no other expression stands.

ghost use Rattle.std.specs.Prelude.{◌≡◌, ◌<ℤ◌, pos, Some, [], ◌∷◌, IsFalse, MatchOption, MatchResult};
ghost use Rattle.grammar.specs.Grammar.{one, is_in};
ghost use Rattle.grammar.specs.Read.{read, starts};
ghost use Rattle.sc_values.specs.Division.{divisor_of};
ghost use Rattle.sc_text.specs.Classes.{Number, class_of, same_class};
ghost use Rattle.sc_text.specs.Phrases.{is_true, leaf_of, signed};
ghost use Rattle.sc_text.specs.Expression.{text_tokens, comparisons, leaf, divisor, quotient};
ghost use Rattle.sc_text.specs.Reading.{Stops, Reads};
ghost use Rattle.sc_text.specs.Levels.{operators, calls, enclosing, leaves, TakesOperator, TakesNumber, TakesDivisor};
ghost use Rattle.sc_text.specs.Levels.{IsAbove};

use crate::ahead::{behind, sign_follows, word_follows, wrong};
use crate::level::{Level, compares, divides, division_of, operator_of};
use crate::operation::TextOperation;
use crate::read_fault::ReadFault;
use crate::sign::Sign;
use crate::token::{Token, TokenKind};
use crate::word::Word;
use sc_values::{BinaryOperator, Divisor, Value};
use sqlite_items::Items;

/// Whether a call is next.
pub fn calls(tokens: &[Token]) -> bool
    ensures { result ≡ starts text_tokens calls tokens.now }
{
    word_follows(tokens, Word::Min) || word_follows(tokens, Word::Max)
}

/// Whether a parenthesis or a call is next.
pub fn encloses(tokens: &[Token]) -> bool
    ensures { result ≡ starts text_tokens enclosing tokens.now }
{
    sign_follows(tokens, Sign::OpenParenthesis) || calls(tokens)
}

/// The operator of the level that is next, and the tokens behind it. Err: none is next.
pub fn operator(
    level: Level,
    tokens: &[Token],
    end: usize,
) -> Result<(BinaryOperator, &[Token]), ReadFault>
    ensures { MatchResult result
        (λ p. TakesOperator (read (one {L = text_tokens} (operators level)) tokens.now) p.0 p.1.now)
        (λ fault. Stops end (read (one {L = text_tokens} (operators level)) tokens.now) fault) }
{
    if !level.has_next(tokens) {
        return Err(wrong(tokens, end));
    }
    match tokens {
        [] => Err(wrong(tokens, end)),
        [next, rest @ ..] => Ok((operator_of(next.kind), rest)),
    }
}

/// The comparison that is next, and the tokens behind it. Err: none is next.
#[tactic(auto, using(crate::proofs::Steps::one_fails))]
pub fn comparator(tokens: &[Token], end: usize) -> Result<(BinaryOperator, &[Token]), ReadFault>
    ensures { MatchResult result
        (λ p. TakesOperator (read (one {L = text_tokens} comparisons) tokens.now) p.0 p.1.now)
        (λ fault. Stops end (read (one {L = text_tokens} comparisons) tokens.now) fault) }
{
    if !compares(tokens) {
        return Err(wrong(tokens, end));
    }
    match tokens {
        [] => Err(wrong(tokens, end)),
        [next, rest @ ..] => Ok((operator_of(next.kind), rest)),
    }
}

/// The function that is called next, and the tokens behind it. Err: none is next.
pub fn function(tokens: &[Token], end: usize) -> Result<(BinaryOperator, &[Token]), ReadFault>
    ensures { MatchResult result
        (λ p. TakesOperator (read (one {L = text_tokens} calls) tokens.now) p.0 p.1.now)
        (λ fault. Stops end (read (one {L = text_tokens} calls) tokens.now) fault) }
{
    if !calls(tokens) {
        return Err(wrong(tokens, end));
    }
    match tokens {
        [] => Err(wrong(tokens, end)),
        [next, rest @ ..] => Ok((operator_of(next.kind), rest)),
    }
}

/// A name, a number or a truth value.
pub fn leaf<'a>(
    tokens: &'a [Token],
    end: usize,
    code: &mut Items<TextOperation>,
) -> Result<&'a [Token], ReadFault>
    ensures { MatchResult result
        (λ rest. Reads (read leaf tokens.now) code.old code.new rest.now)
        (λ fault. Stops end (read leaf tokens.now) fault) }
{
    if !leaf_follows(tokens) {
        return Err(wrong(tokens, end));
    }
    match tokens {
        [] => Err(wrong(tokens, end)),
        [next, ..] => {
            code.push(leaf_of(next))?;
            Ok(behind(tokens))
        }
    }
}

fn leaf_follows(tokens: &[Token]) -> bool
    ensures { result ≡ starts text_tokens leaves tokens.now }
{
    match tokens {
        [] => false,
        [next, ..] => is_leaf(next.kind),
    }
}

#[tactic(auto, using(crate::proofs::Steps::number_is_leaf))]
fn is_leaf(kind: TokenKind) -> bool
    ensures { result ≡ is_in text_tokens leaves (class_of kind) }
{
    match kind {
        TokenKind::Name(_) => true,
        TokenKind::Number(_) => true,
        TokenKind::Word(word) => Word::True == word || Word::False == word,
        TokenKind::Sign(_) => false,
    }
}

fn leaf_of(token: &Token) -> TextOperation
    ensures { result ≡ leaf_of token.now.kind token.now.at }
{
    match &token.kind {
        TokenKind::Name(name) => TextOperation::Load(*name, token.at),
        TokenKind::Number(n) => TextOperation::Literal(Value::Int(*n)),
        TokenKind::Word(word) => TextOperation::Literal(Value::Bool(is_true(*word))),
        TokenKind::Sign(_) => TextOperation::Literal(Value::Bool(false)),
    }
}

fn is_true(word: Word) -> bool
    ensures { result ≡ is_true word }
{
    match word {
        Word::True => true,
        _ => false,
    }
}

/// A division: the operator and what it divides by.
pub fn quotient<'a>(
    tokens: &'a [Token],
    end: usize,
    code: &mut Items<TextOperation>,
) -> Result<&'a [Token], ReadFault>
    ensures { MatchResult result
        (λ rest. Reads (read quotient tokens.now) code.old code.new rest.now)
        (λ fault. Stops end (read quotient tokens.now) fault) }
{
    if !divides(tokens) {
        return Err(wrong(tokens, end));
    }
    match tokens {
        [] => Err(wrong(tokens, end)),
        [next, ..] => {
            let (divisor, after) = divisor(behind(tokens), end)?;
            code.push(TextOperation::Unary(division_of(next.kind, divisor)))?;
            Ok(after)
        }
    }
}

fn divisor(tokens: &[Token], end: usize) -> Result<(Divisor, &[Token]), ReadFault>
    ensures { MatchResult result
        (λ p. TakesDivisor (read divisor tokens.now) p.0 p.1.now)
        (λ fault. Stops end (read divisor tokens.now) fault) }
{
    if sign_follows(tokens, Sign::Minus) {
        let (divisor, rest) = number_above_zero(behind(tokens), end, true)?;
        return Ok((divisor, rest));
    }
    let (divisor, rest) = number_above_zero(tokens, end, false)?;
    Ok((divisor, rest))
}

// A number above 0, as a divisor with this sign.
fn number_above_zero(
    tokens: &[Token],
    end: usize,
    negative: bool,
) -> Result<(Divisor, &[Token]), ReadFault>
    ensures { MatchResult result
        (λ p. TakesNumber (read (one {L = text_tokens} (Number ∷ [])) tokens.now) negative p.0 p.1.now)
        (λ fault. Stops end (read (one {L = text_tokens} (Number ∷ [])) tokens.now) fault) }
{
    match tokens {
        [] => Err(wrong(tokens, end)),
        [next, rest @ ..] => match above_zero(next.kind) {
            Some(n) => Ok((divisor_of(n, negative), rest)),
            None => Err(wrong(tokens, end)),
        },
    }
}

fn divisor_of(n: i32, negative: bool) -> Divisor
    requires { pos 0 <ℤ n }
    ensures { divisor_of (signed negative n) ≡ Some result }
{
    let number = if negative { -n } else { n };
    match Divisor::of(number) {
        Some(divisor) => divisor,
        None => unreachable!(),
    }
}

fn above_zero(kind: TokenKind) -> Option<i32>
    ensures { MatchOption result (IsFalse (same_class Number (class_of kind))) (IsAbove kind) }
{
    match kind {
        TokenKind::Number(n) => { if n > 0 { Some(n) } else { None } }
        TokenKind::Name(_) | TokenKind::Word(_) | TokenKind::Sign(_) => None,
    }
}
