//! Reading parts that stand in a row, alone or between commas.

ghost use Rattle.std.specs.Prelude.{◌≡◌, MatchResult};
ghost use Rattle.grammar.specs.Grammar.{made, maybe, many};
ghost use Rattle.grammar.specs.Predictive.{first};
ghost use Rattle.grammar.specs.Read.{read, starts};
ghost use Rattle.sc_text.specs.declared.sign.Sign.TheVariants as sign;
ghost use Rattle.sc_text.specs.Expression.{text_tokens, after};
ghost use Rattle.sc_text.specs.Reading.{Stops};
ghost use Rattle.sc_text.specs.DraftParts.{or_none};
ghost use Rattle.chart_reader.specs.ChartText.{Grows, the_word, the_sign, listed};
ghost use Rattle.chart_reader.specs.PartsRead.{Fills};
ghost use Rattle.chart_reader.specs.Phrase.{Gives};

use crate::text_drafts::ahead::{Ahead, skip_sign};
use sc_text::ahead::{behind, sign_follows, word_follows};
use sc_text::{ReadFault, Sign, Token, Word};
use sqlite_items::Items;
use std::alloc::Global;
use std::marker::PhantomData;

/// A part of a text. Contracts see the grammar that spells it.
pub trait Part {
    /// What it is read into.
    type Read: Drop;

    ghost phrase: { Grows Self.Read };

    /// Takes one off the front. Err: the text goes on with another token; or memory was refused.
    fn take(alloc: Global, ahead: &mut Ahead, end: usize) -> Result<Self::Read, ReadFault>
        ensures { MatchResult result
            (λ x. Gives (read phrase ahead.old.tokens.now) x ahead.new.tokens.now)
            (λ fault. Stops end (read phrase ahead.old.tokens.now) fault) };
}

/// A part of which some may stand in a row.
pub trait RowPart: Part {
    /// Whether one is next.
    fn follows(tokens: &[Token]) -> bool
        ensures { result ≡ starts text_tokens (first Self.phrase) tokens.now };
}

/// Puts the parts that stand in a row behind others.
pub fn put_row<P: RowPart>(
    alloc: Global,
    ahead: &mut Ahead,
    end: usize,
    found: &mut Items<P::Read>,
) -> Result<(), ReadFault>
    ensures { MatchResult result
        (λ _. Fills (read (many P.phrase) ahead.old.tokens.now) found.old found.new ahead.new.tokens.now)
        (λ fault. Stops end (read (many P.phrase) ahead.old.tokens.now) fault) }
{
    let most = ahead.tokens.len();
    for used in 0..most {
        if !P::follows(ahead.tokens) {
            return Ok(());
        }
        let next = P::take(alloc, ahead, end)?;
        found.push(next)?;
    }
    Ok(())
}

// A part behind a comma.
struct Further<P: Part> {
    of: PhantomData<P>,
}

impl<P: Part> Part for Further<P> {
    type Read = P::Read;

    ghost phrase = { after (the_sign sign.Comma) P.phrase };

    #[tactic(auto, using(crate::proofs::Parts::after_stops_first))]
    fn take(alloc: Global, ahead: &mut Ahead, end: usize) -> Result<P::Read, ReadFault> {
        skip_sign(ahead, end, Sign::Comma)?;
        P::take(alloc, ahead, end)
    }
}

impl<P: Part> RowPart for Further<P> {
    fn follows(tokens: &[Token]) -> bool {
        sign_follows(tokens, Sign::Comma)
    }
}

/// The parts between which commas stand, one at least.
#[tactic(auto, using(crate::proofs::Filling::fills_alone))]
pub fn listed<P: Part>(
    alloc: Global,
    ahead: &mut Ahead,
    end: usize,
) -> Result<Items<P::Read>, ReadFault>
    ensures { MatchResult result
        (λ x. Gives (read (listed P.phrase (after (the_sign sign.Comma) P.phrase)) ahead.old.tokens.now) x
        ahead.new.tokens.now)
        (λ fault. Stops end (read (listed P.phrase (after (the_sign sign.Comma) P.phrase)) ahead.old.tokens.now)
        fault) }
{
    let mut found = Items::new(alloc);
    put_listed::<P>(alloc, ahead, end, &mut found)?;
    Ok(found)
}

#[tactic(auto, using(crate::proofs::RowReading::listed_stops))]
fn put_listed<P: Part>(
    alloc: Global,
    ahead: &mut Ahead,
    end: usize,
    found: &mut Items<P::Read>,
) -> Result<(), ReadFault>
    ensures { MatchResult result
        (λ _. Fills (read (listed P.phrase (after (the_sign sign.Comma) P.phrase)) ahead.old.tokens.now)
        found.old found.new ahead.new.tokens.now)
        (λ fault. Stops end (read (listed P.phrase (after (the_sign sign.Comma) P.phrase)) ahead.old.tokens.now)
        fault) }
{
    let first = P::take(alloc, ahead, end)?;
    found.push(first)?;
    put_row::<Further<P>>(alloc, ahead, end, found)
}

/// Such parts behind a word, or none where it is not there.
#[tactic(auto, using(crate::proofs::Filling::none_behind))]
pub fn listed_behind<P: Part>(
    alloc: Global,
    ahead: &mut Ahead,
    end: usize,
    word: Word,
) -> Result<Items<P::Read>, ReadFault>
    ensures { MatchResult result
        (λ x. Gives (read (made or_none (maybe (after (the_word word)
        (listed P.phrase (after (the_sign sign.Comma) P.phrase))))) ahead.old.tokens.now) x ahead.new.tokens.now)
        (λ fault. Stops end (read (made or_none (maybe (after (the_word word)
        (listed P.phrase (after (the_sign sign.Comma) P.phrase))))) ahead.old.tokens.now) fault) }
{
    if !word_follows(ahead.tokens, word) {
        return Ok(Items::new(alloc));
    }
    ahead.tokens = behind(ahead.tokens);
    listed::<P>(alloc, ahead, end)
}
