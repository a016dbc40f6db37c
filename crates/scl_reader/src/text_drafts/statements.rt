//! Reading statements: a function for each rule of their grammar.

ghost use Rattle.std.specs.Prelude.{◌≡◌, [], ◌∷◌, MatchResult};
ghost use Rattle.std.specs.List.{flat_map};
ghost use Rattle.grammar.specs.Grammar.{maybe, many};
ghost use Rattle.grammar.specs.Read.{read, starts};
ghost use Rattle.sc_text.specs.Classes.{TheWord};
ghost use Rattle.sc_text.specs.Expression.{text_tokens, after, expression};
ghost use Rattle.sc_text.specs.Reading.{Stops};
ghost use Rattle.scl.specs.Rules.{if_limit};
ghost use Rattle.scl_reader.specs.Statements.{none_or_them};
ghost use Rattle.scl_reader.specs.Program.{block, test, choice, branch, fork};
ghost use Rattle.scl_reader.specs.Inside.TextDrafts.{Adds, TakesValue, itself, alone, one_branch, statement_classes};
ghost use Rattle.scl_reader.specs.Within.{no_if, within};

use crate::text_drafts::simple::simple;
use crate::text_drafts::statement::TextStatement;
use crate::text_drafts::value::value;
use sc_text::ahead::{behind, past_sign, past_word, place, too_deep, word_follows};
use sc_text::{ReadFault, Sign, TextExpression, Token, Word, name_follows};
use sqlite_items::Items;
use std::alloc::Global;

/// The forks that may stand in one another.
pub const FORK_LIMIT: u8 = 32;

/// The ifs that may stand in one another within a thread.
pub const IF_LIMIT: u8 = 32;

// Whether a statement is next.
fn statement_follows(tokens: &[Token]) -> bool
    ensures { result ≡ starts text_tokens statement_classes tokens.now }
{
    word_follows(tokens, Word::If)
        || word_follows(tokens, Word::Fork)
        || name_follows(tokens)
        || word_follows(tokens, Word::Goto)
        || word_follows(tokens, Word::Pause)
}

/// Reads the statements at the front of the tokens, and puts them behind the others. So many forks and ifs may
/// still stand in one another. Gives the tokens behind them. Err: the fault at the first token that can't go
/// on, or memory was refused.
#[cycle(statement)]
#[tactic(auto, using(crate::proofs::Loops::within_begins, crate::proofs::Loops::within_ends, crate::proofs::Loops::within_over, crate::proofs::Loops::within_stops, crate::proofs::Loops::within_goes_on))]
pub fn statements<'a>(
    alloc: Global,
    forks: u8,
    ifs: u8,
    tokens: &'a [Token],
    end: usize,
    into: &mut Items<TextStatement>,
) -> Result<&'a [Token], ReadFault>
    ensures { MatchResult result
        (λ rest. Adds (flat_map alone) (read (many (within forks ifs)) tokens.now) into.old into.new rest.now)
        (λ fault. Stops end (read (many (within forks ifs)) tokens.now) fault) }
{
    let mut rest = tokens;
    let most = rest.len();
    for used in 0..most {
        if !statement_follows(rest) {
            return Ok(rest);
        }
        rest = statement(alloc, forks, ifs, rest, end, into)?;
    }
    Ok(rest)
}

#[cycle(statement)]
#[tactic(auto, using(crate::proofs::Choosing::if_deep))]
fn statement<'a>(
    alloc: Global,
    forks: u8,
    ifs: u8,
    tokens: &'a [Token],
    end: usize,
    into: &mut Items<TextStatement>,
) -> Result<&'a [Token], ReadFault>
    ensures { MatchResult result
        (λ rest. Adds alone (read (within forks ifs) tokens.now) into.old into.new rest.now)
        (λ fault. Stops end (read (within forks ifs) tokens.now) fault) }
{
    if !word_follows(tokens, Word::If) {
        return no_if(alloc, forks, tokens, end, into);
    }
    if ifs == 0 {
        return Err(too_deep(tokens, end));
    }
    choice(alloc, forks, ifs - 1, tokens, end, into)
}

#[cycle(statement)]
#[tactic(auto, using(crate::proofs::Choosing::fork_deep))]
fn no_if<'a>(
    alloc: Global,
    forks: u8,
    tokens: &'a [Token],
    end: usize,
    into: &mut Items<TextStatement>,
) -> Result<&'a [Token], ReadFault>
    ensures { MatchResult result
        (λ rest. Adds alone (read (no_if forks) tokens.now) into.old into.new rest.now)
        (λ fault. Stops end (read (no_if forks) tokens.now) fault) }
{
    if !word_follows(tokens, Word::Fork) {
        return simple(alloc, tokens, end, into);
    }
    if forks == 0 {
        return Err(too_deep(tokens, end));
    }
    fork(alloc, forks - 1, tokens, end, into)
}

// Statements in braces.
#[cycle(statement)]
#[tactic(auto, using(crate::proofs::Blocks::open_stops, crate::proofs::Blocks::body_stops))]
fn block<'a>(
    alloc: Global,
    forks: u8,
    ifs: u8,
    tokens: &'a [Token],
    end: usize,
    into: &mut Items<TextStatement>,
) -> Result<&'a [Token], ReadFault>
    ensures { MatchResult result
        (λ rest. Adds itself (read (block (within forks ifs)) tokens.now) into.old into.new rest.now)
        (λ fault. Stops end (read (block (within forks ifs)) tokens.now) fault) }
{
    let body = past_sign(tokens, end, Sign::OpenBrace)?;
    let rest = statements(alloc, forks, ifs, body, end, into)?;
    past_sign(rest, end, Sign::CloseBrace)
}

#[cycle(statement)]
#[tactic(auto, using(crate::proofs::Blocks::if_word_stops, crate::proofs::Blocks::test_stops, crate::proofs::Blocks::first_stops, crate::proofs::Blocks::second_stops, crate::proofs::Blocks::choice_reads))]
fn choice<'a>(
    alloc: Global,
    forks: u8,
    ifs: u8,
    tokens: &'a [Token],
    end: usize,
    into: &mut Items<TextStatement>,
) -> Result<&'a [Token], ReadFault>
    ensures { MatchResult result
        (λ rest. Adds alone (read (choice (expression 0) (within forks ifs)) tokens.now) into.old into.new rest.now)
        (λ fault. Stops end (read (choice (expression 0) (within forks ifs)) tokens.now) fault) }
{
    let at = place(tokens, end);
    let opened = past_word(tokens, end, Word::If)?;
    let (test, listed) = test(alloc, opened, end)?;
    let mut first = Items::new(alloc);
    let rest = block(alloc, forks, ifs, listed, end, &mut first)?;
    let mut second = Items::new(alloc);
    let after = otherwise(alloc, forks, ifs, rest, end, &mut second)?;
    into.push(TextStatement::If {
        at,
        test,
        first,
        second,
    })?;
    Ok(after)
}

// What is tested, in parentheses.
#[tactic(auto, using(crate::proofs::Blocks::parenthesis_stops))]
fn test(
    alloc: Global,
    tokens: &[Token],
    end: usize,
) -> Result<(TextExpression, &[Token]), ReadFault>
    ensures { MatchResult result
        (λ p. TakesValue (read (test (expression 0)) tokens.now) p.0 p.1.now)
        (λ fault. Stops end (read (test (expression 0)) tokens.now) fault) }
{
    let inside = past_sign(tokens, end, Sign::OpenParenthesis)?;
    value(alloc, Sign::CloseParenthesis, inside, end)
}

// The second list of an if, where there is one.
#[cycle(statement)]
#[tactic(auto, using(crate::proofs::Blocks::no_else_reads))]
fn otherwise<'a>(
    alloc: Global,
    forks: u8,
    ifs: u8,
    tokens: &'a [Token],
    end: usize,
    into: &mut Items<TextStatement>,
) -> Result<&'a [Token], ReadFault>
    ensures { MatchResult result
        (λ rest. Adds none_or_them (read (maybe (after (TheWord Word.Else ∷ []) (block (within forks ifs)))) tokens.now)
        into.old into.new rest.now)
        (λ fault. Stops end
        (read (maybe (after (TheWord Word.Else ∷ []) (block (within forks ifs)))) tokens.now) fault) }
{
    if !word_follows(tokens, Word::Else) {
        return Ok(tokens);
    }
    block(alloc, forks, ifs, behind(tokens), end, into)
}

#[cycle(statement)]
#[tactic(auto, using(crate::proofs::Forks::first_branch_stops, crate::proofs::Forks::branches_stop, crate::proofs::Forks::join_stops, crate::proofs::Forks::join_end_stops, crate::proofs::Forks::fork_reads))]
fn fork<'a>(
    alloc: Global,
    forks: u8,
    tokens: &'a [Token],
    end: usize,
    into: &mut Items<TextStatement>,
) -> Result<&'a [Token], ReadFault>
    ensures { MatchResult result
        (λ rest. Adds alone (read (fork (within forks if_limit)) tokens.now) into.old into.new rest.now)
        (λ fault. Stops end (read (fork (within forks if_limit)) tokens.now) fault) }
{
    let mut all = Items::new(alloc);
    let more = branch(alloc, forks, Word::Fork, tokens, end, &mut all)?;
    let rest = branches(alloc, forks, more, end, &mut all)?;
    let join = place(rest, end);
    let joined = past_word(rest, end, Word::Join)?;
    let after = past_sign(joined, end, Sign::Semicolon)?;
    into.push(TextStatement::Fork {
        branches: all,
        join,
    })?;
    Ok(after)
}

// The further branches of a fork.
#[cycle(statement)]
#[tactic(auto, using(crate::proofs::Loops::branches_begin, crate::proofs::Loops::branches_end, crate::proofs::Loops::branches_over, crate::proofs::Loops::branch_stops, crate::proofs::Loops::branches_go_on))]
fn branches<'a>(
    alloc: Global,
    forks: u8,
    tokens: &'a [Token],
    end: usize,
    into: &mut Items<(usize, Items<TextStatement>)>,
) -> Result<&'a [Token], ReadFault>
    ensures { MatchResult result
        (λ rest. Adds (flat_map one_branch) (read (many (branch Word.Par (within forks if_limit))) tokens.now)
        into.old into.new rest.now)
        (λ fault. Stops end (read (many (branch Word.Par (within forks if_limit))) tokens.now) fault) }
{
    let mut rest = tokens;
    let most = rest.len();
    for used in 0..most {
        if !word_follows(rest, Word::Par) {
            return Ok(rest);
        }
        rest = branch(alloc, forks, Word::Par, rest, end, into)?;
    }
    Ok(rest)
}

// The branch that is opened by this word.
#[cycle(statement)]
#[tactic(auto, using(crate::proofs::Forks::opening_stops, crate::proofs::Forks::branch_body_stops, crate::proofs::Forks::branch_reads))]
fn branch<'a>(
    alloc: Global,
    forks: u8,
    opening: Word,
    tokens: &'a [Token],
    end: usize,
    into: &mut Items<(usize, Items<TextStatement>)>,
) -> Result<&'a [Token], ReadFault>
    ensures { MatchResult result
        (λ rest. Adds one_branch (read (branch opening (within forks if_limit)) tokens.now) into.old into.new rest.now)
        (λ fault. Stops end (read (branch opening (within forks if_limit)) tokens.now) fault) }
{
    let at = place(tokens, end);
    let body = past_word(tokens, end, opening)?;
    let mut statements = Items::new(alloc);
    let rest = block(alloc, forks, IF_LIMIT, body, end, &mut statements)?;
    into.push((at, statements))?;
    Ok(rest)
}
