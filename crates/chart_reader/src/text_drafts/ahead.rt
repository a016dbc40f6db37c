//! The tokens of a chart that are still to be read.

ghost use Rattle.std.specs.Prelude.{MatchResult};
ghost use Rattle.grammar.specs.Grammar.{one};
ghost use Rattle.grammar.specs.Read.{read};
ghost use Rattle.sc_text.specs.Expression.{text_tokens};
ghost use Rattle.sc_text.specs.Reading.{Stops, Takes};
ghost use Rattle.chart_reader.specs.ChartText.{the_word, the_sign};

use sc_text::ahead::{past_sign, past_word};
use sc_text::{ReadFault, Sign, Token, Word};

/// The tokens that are still to be read. The functions that read take what they read off the front.
#[derive(Drop)]
pub struct Ahead<'a> {
    pub tokens: &'a [Token],
}

/// Takes this sign off the front. Err: another token is there.
pub fn skip_sign(ahead: &mut Ahead, end: usize, sign: Sign) -> Result<(), ReadFault>
    ensures { MatchResult result
        (λ _. Takes (read (one {L = text_tokens} (the_sign sign)) ahead.old.tokens.now) ahead.new.tokens.now)
        (λ fault. Stops end (read (one {L = text_tokens} (the_sign sign)) ahead.old.tokens.now) fault) }
{
    ahead.tokens = past_sign(ahead.tokens, end, sign)?;
    Ok(())
}

/// Takes this word off the front. Err: another token is there.
pub fn skip_word(ahead: &mut Ahead, end: usize, word: Word) -> Result<(), ReadFault>
    ensures { MatchResult result
        (λ _. Takes (read (one {L = text_tokens} (the_word word)) ahead.old.tokens.now) ahead.new.tokens.now)
        (λ fault. Stops end (read (one {L = text_tokens} (the_word word)) ahead.old.tokens.now) fault) }
{
    ahead.tokens = past_word(ahead.tokens, end, word)?;
    Ok(())
}
