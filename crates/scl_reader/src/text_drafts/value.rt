//! Expressions within a statement.

ghost use Rattle.std.specs.Prelude.{[], ◌∷◌, MatchResult};
ghost use Rattle.grammar.specs.Grammar.{headed};
ghost use Rattle.grammar.specs.Read.{read};
ghost use Rattle.sc_text.specs.Classes.{TheSign};
ghost use Rattle.sc_text.specs.Expression.{before, expression};
ghost use Rattle.sc_text.specs.Reading.{Stops};
ghost use Rattle.scl_reader.specs.Inside.TextDrafts.{TakesValue};

use sc_text::ahead::{past_sign, place};
use sc_text::{ReadFault, Sign, TextExpression, Token, expression};
use std::alloc::Global;

/// An expression up to the sign that closes it, and the tokens behind the sign.
/// Err: the fault at the first token that can't go on, or memory was refused.
pub fn value(
    alloc: Global,
    closing: Sign,
    tokens: &[Token],
    end: usize,
) -> Result<(TextExpression, &[Token]), ReadFault>
    ensures { MatchResult result
        (λ p. TakesValue (read (before (headed (expression 0)) (TheSign closing ∷ [])) tokens.now) p.0 p.1.now)
        (λ fault. Stops end (read (before (headed (expression 0)) (TheSign closing ∷ [])) tokens.now) fault) }
{
    let start = place(tokens, end);
    let (operations, rest) = expression(alloc, tokens, end)?;
    let after = past_sign(rest, end, closing)?;
    Ok((TextExpression { start, operations }, after))
}
