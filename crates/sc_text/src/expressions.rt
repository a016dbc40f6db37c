//! Reading expressions: a function for each rule of their grammar.

ghost use Rattle.std.specs.Prelude.{◌≡◌, [], ◌∷◌, MatchResult};
ghost use Rattle.grammar.specs.Read.{read};
ghost use Rattle.sc_text.specs.Classes.{TheSign};
ghost use Rattle.sc_text.specs.Expression.{text_tokens, within, expression, before, call, atom, unary, negation};
ghost use Rattle.sc_text.specs.Expression.{comparison, disjunction};
ghost use Rattle.sc_text.specs.Reading.{Stops, Reads};
ghost use Rattle.sc_text.specs.Levels.{whole, operand, behind_operand};

use crate::ahead::{behind, past_sign, sign_follows, too_deep, word_follows};
use crate::leaf::{calls, comparator, encloses, function, leaf, operator, quotient};
use crate::level::{Level, compares};
use crate::operation::TextOperation;
use crate::read_fault::ReadFault;
use crate::sign::Sign;
use crate::token::Token;
use crate::word::Word;
use sc_values::UnaryOperator;
use sqlite_items::Items;
use std::alloc::Global;

/// The parentheses and prefix operators that may be open at once.
pub const OPEN_LIMIT: u8 = 64;

/// Reads an expression from the front of the tokens, which are of a text of `end` bytes. Gives its operations
/// and the tokens behind it. Err: the fault at the first token that can't go on, or memory was refused.
pub fn expression(
    alloc: Global,
    tokens: &[Token],
    end: usize,
) -> Result<(Items<TextOperation>, &[Token]), ReadFault>
    ensures { MatchResult result
        (λ p. Reads (read (expression 0) tokens.now) [] p.0 p.1.now)
        (λ fault. Stops end (read (expression 0) tokens.now) fault) }
{
    let mut code = Items::new(alloc);
    let rest = chain(Level::Disjunction, OPEN_LIMIT, tokens, end, &mut code)?;
    Ok((code, rest))
}

// All operands of a level.
#[cycle(expression)]
fn chain<'a>(
    level: Level,
    depth: u8,
    tokens: &'a [Token],
    end: usize,
    code: &mut Items<TextOperation>,
) -> Result<&'a [Token], ReadFault>
    ensures { MatchResult result
        (λ rest. Reads (read (whole level (within depth)) tokens.now) code.old code.new rest.now)
        (λ fault. Stops end (read (whole level (within depth)) tokens.now) fault) }
{
    let mut rest = operand(level, depth, tokens, end, code)?;
    let most = rest.len();
    for used in 0..most {
        if !level.goes_on(rest) {
            return Ok(rest);
        }
        rest = right(level, depth, rest, end, code)?;
    }
    Ok(rest)
}

#[cycle(expression)]
fn operand<'a>(
    level: Level,
    depth: u8,
    tokens: &'a [Token],
    end: usize,
    code: &mut Items<TextOperation>,
) -> Result<&'a [Token], ReadFault>
    ensures { MatchResult result
        (λ rest. Reads (read (operand level (within depth)) tokens.now) code.old code.new rest.now)
        (λ fault. Stops end (read (operand level (within depth)) tokens.now) fault) }
{
    let rest = match level {
        Level::Disjunction => chain(Level::Conjunction, depth, tokens, end, code)?,
        Level::Conjunction => negation(depth, tokens, end, code)?,
        Level::Sum => chain(Level::Product, depth, tokens, end, code)?,
        Level::Product => unary(depth, tokens, end, code)?,
    };
    Ok(rest)
}

// An operator of the level and its right operand, or a division.
#[cycle(expression)]
fn right<'a>(
    level: Level,
    depth: u8,
    tokens: &'a [Token],
    end: usize,
    code: &mut Items<TextOperation>,
) -> Result<&'a [Token], ReadFault>
    ensures { MatchResult result
        (λ rest. Reads (read (behind_operand level (within depth)) tokens.now) code.old code.new rest.now)
        (λ fault. Stops end (read (behind_operand level (within depth)) tokens.now) fault) }
{
    if level.divides(tokens) {
        let rest = quotient(tokens, end, code)?;
        return Ok(rest);
    }
    let (operator, rest) = operator(level, tokens, end)?;
    let after = operand(level, depth, rest, end, code)?;
    code.push(TextOperation::Binary(operator))?;
    Ok(after)
}

#[cycle(expression)]
fn comparison<'a>(
    depth: u8,
    tokens: &'a [Token],
    end: usize,
    code: &mut Items<TextOperation>,
) -> Result<&'a [Token], ReadFault>
    ensures { MatchResult result
        (λ rest. Reads (read (comparison (within depth)) tokens.now) code.old code.new rest.now)
        (λ fault. Stops end (read (comparison (within depth)) tokens.now) fault) }
{
    let rest = chain(Level::Sum, depth, tokens, end, code)?;
    if !compares(rest) {
        return Ok(rest);
    }
    let (operator, second) = comparator(rest, end)?;
    let after = chain(Level::Sum, depth, second, end, code)?;
    code.push(TextOperation::Binary(operator))?;
    Ok(after)
}

#[cycle(expression)]
fn negation<'a>(
    depth: u8,
    tokens: &'a [Token],
    end: usize,
    code: &mut Items<TextOperation>,
) -> Result<&'a [Token], ReadFault>
    ensures { MatchResult result
        (λ rest. Reads (read (negation (within depth)) tokens.now) code.old code.new rest.now)
        (λ fault. Stops end (read (negation (within depth)) tokens.now) fault) }
{
    if !word_follows(tokens, Word::Not) {
        let rest = comparison(depth, tokens, end, code)?;
        return Ok(rest);
    }
    if depth == 0 {
        return Err(too_deep(tokens, end));
    }
    let rest = negation(depth - 1, behind(tokens), end, code)?;
    code.push(TextOperation::Unary(UnaryOperator::Not))?;
    Ok(rest)
}

#[cycle(expression)]
fn unary<'a>(
    depth: u8,
    tokens: &'a [Token],
    end: usize,
    code: &mut Items<TextOperation>,
) -> Result<&'a [Token], ReadFault>
    ensures { MatchResult result
        (λ rest. Reads (read (unary (within depth)) tokens.now) code.old code.new rest.now)
        (λ fault. Stops end (read (unary (within depth)) tokens.now) fault) }
{
    if !sign_follows(tokens, Sign::Minus) {
        let rest = atom(depth, tokens, end, code)?;
        return Ok(rest);
    }
    if depth == 0 {
        return Err(too_deep(tokens, end));
    }
    let rest = unary(depth - 1, behind(tokens), end, code)?;
    code.push(TextOperation::Unary(UnaryOperator::Negate))?;
    Ok(rest)
}

#[cycle(expression)]
fn atom<'a>(
    depth: u8,
    tokens: &'a [Token],
    end: usize,
    code: &mut Items<TextOperation>,
) -> Result<&'a [Token], ReadFault>
    ensures { MatchResult result
        (λ rest. Reads (read (atom (within depth)) tokens.now) code.old code.new rest.now)
        (λ fault. Stops end (read (atom (within depth)) tokens.now) fault) }
{
    if depth == 0 {
        if encloses(tokens) {
            return Err(too_deep(tokens, end));
        }
        let rest = leaf(tokens, end, code)?;
        return Ok(rest);
    }
    if sign_follows(tokens, Sign::OpenParenthesis) {
        let rest = closed(depth - 1, Sign::CloseParenthesis, behind(tokens), end, code)?;
        return Ok(rest);
    }
    if calls(tokens) {
        let rest = call(depth - 1, tokens, end, code)?;
        return Ok(rest);
    }
    let rest = leaf(tokens, end, code)?;
    Ok(rest)
}

// An expression and the sign that closes it.
#[cycle(expression)]
fn closed<'a>(
    depth: u8,
    closing: Sign,
    tokens: &'a [Token],
    end: usize,
    code: &mut Items<TextOperation>,
) -> Result<&'a [Token], ReadFault>
    ensures { MatchResult result
        (λ rest. Reads (read (before (disjunction (within depth))
        (TheSign closing ∷ [])) tokens.now) code.old code.new rest.now)
        (λ fault. Stops end (read (before (disjunction (within depth)) (TheSign closing ∷ [])) tokens.now) fault) }
{
    let rest = chain(Level::Disjunction, depth, tokens, end, code)?;
    let after = past_sign(rest, end, closing)?;
    Ok(after)
}

#[cycle(expression)]
fn call<'a>(
    depth: u8,
    tokens: &'a [Token],
    end: usize,
    code: &mut Items<TextOperation>,
) -> Result<&'a [Token], ReadFault>
    ensures { MatchResult result
        (λ rest. Reads (read (call (disjunction (within depth))) tokens.now) code.old code.new rest.now)
        (λ fault. Stops end (read (call (disjunction (within depth))) tokens.now) fault) }
{
    let (operator, rest) = function(tokens, end)?;
    let inside = past_sign(rest, end, Sign::OpenParenthesis)?;
    let second = closed(depth, Sign::Comma, inside, end, code)?;
    let after = closed(depth, Sign::CloseParenthesis, second, end, code)?;
    code.push(TextOperation::Binary(operator))?;
    Ok(after)
}
