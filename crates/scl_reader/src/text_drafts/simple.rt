//! The statements in which no other statement stands.

ghost use Rattle.std.specs.Prelude.{MatchResult};
ghost use Rattle.grammar.specs.Read.{read};
ghost use Rattle.sc_text.specs.Expression.{expression};
ghost use Rattle.sc_text.specs.Reading.{Stops};
ghost use Rattle.scl_reader.specs.Program.{named, goto, pause, simple};
ghost use Rattle.scl_reader.specs.Inside.TextDrafts.{Adds, alone};

use crate::text_drafts::name::name;
use crate::text_drafts::statement::TextStatement;
use crate::text_drafts::value::value;
use sc_text::ahead::{behind, past_sign, past_word, place, sign_follows, word_follows};
use sc_text::{ReadFault, Sign, Token, Word, name_follows};
use sqlite_items::Items;
use std::alloc::Global;

/// Reads a statement that is no if and no fork, and puts it behind the others. Gives the tokens behind
/// it. Err: the fault at the first token that can't go on, or memory was refused.
pub fn simple<'a>(
    alloc: Global,
    tokens: &'a [Token],
    end: usize,
    statements: &mut Items<TextStatement>,
) -> Result<&'a [Token], ReadFault>
    ensures { MatchResult result
        (λ rest. Adds alone (read (simple (expression 0)) tokens.now) statements.old statements.new rest.now)
        (λ fault. Stops end (read (simple (expression 0)) tokens.now) fault) }
{
    if name_follows(tokens) {
        return named(alloc, tokens, end, statements);
    }
    if word_follows(tokens, Word::Goto) {
        return goto(tokens, end, statements);
    }
    pause(tokens, end, statements)
}

// An assignment or a label.
fn named<'a>(
    alloc: Global,
    tokens: &'a [Token],
    end: usize,
    statements: &mut Items<TextStatement>,
) -> Result<&'a [Token], ReadFault>
    ensures { MatchResult result
        (λ rest. Adds alone (read (named (expression 0)) tokens.now) statements.old statements.new rest.now)
        (λ fault. Stops end (read (named (expression 0)) tokens.now) fault) }
{
    let called = name(tokens, end)?;
    let rest = behind(tokens);
    if sign_follows(rest, Sign::Becomes) {
        let (value, after) = value(alloc, Sign::Semicolon, behind(rest), end)?;
        statements.push(TextStatement::Assign {
            target: called,
            value,
        })?;
        return Ok(after);
    }
    let after = past_sign(rest, end, Sign::Colon)?;
    statements.push(TextStatement::Label(called))?;
    Ok(after)
}

fn goto<'a>(
    tokens: &'a [Token],
    end: usize,
    statements: &mut Items<TextStatement>,
) -> Result<&'a [Token], ReadFault>
    ensures { MatchResult result
        (λ rest. Adds alone (read goto tokens.now) statements.old statements.new rest.now)
        (λ fault. Stops end (read goto tokens.now) fault) }
{
    let target = past_word(tokens, end, Word::Goto)?;
    let called = name(target, end)?;
    let rest = behind(target);
    let after = past_sign(rest, end, Sign::Semicolon)?;
    statements.push(TextStatement::Goto(called))?;
    Ok(after)
}

fn pause<'a>(
    tokens: &'a [Token],
    end: usize,
    statements: &mut Items<TextStatement>,
) -> Result<&'a [Token], ReadFault>
    ensures { MatchResult result
        (λ rest. Adds alone (read pause tokens.now) statements.old statements.new rest.now)
        (λ fault. Stops end (read pause tokens.now) fault) }
{
    let at = place(tokens, end);
    let rest = past_word(tokens, end, Word::Pause)?;
    let after = past_sign(rest, end, Sign::Semicolon)?;
    statements.push(TextStatement::Pause { at })?;
    Ok(after)
}
