//! The tokens that are still to be read, for the readers of both languages. The tokens are of a text of `end` bytes.

ghost use Rattle.std.specs.Prelude.{◌≡◌, [], ◌∷◌, MatchResult, drop};
ghost use Rattle.grammar.specs.Grammar.{one};
ghost use Rattle.grammar.specs.Read.{Wrong, Deep, read, starts};
ghost use Rattle.sc_text.specs.Classes.{TheWord, TheSign, class_of, same_class};
ghost use Rattle.sc_text.specs.Expression.{text_tokens};
ghost use Rattle.sc_text.specs.Reading.{Stops, Takes, place_of, broken_by};

use crate::read_fault::{FaultKind, ReadFault};
use crate::sign::Sign;
use crate::token::{Token, TokenKind};
use crate::word::Word;

/// The first byte of the next token; at the end of the text its length.
pub fn place(tokens: &[Token], end: usize) -> usize
    ensures { result ≡ place_of end tokens.now }
{
    match tokens {
        [] => end,
        [next, ..] => next.at,
    }
}

/// The fault where the text can't go on with the next token.
pub fn wrong(tokens: &[Token], end: usize) -> ReadFault
    ensures { result ≡ ReadFault.Text (broken_by Wrong) (place_of end tokens.now) }
{
    ReadFault::Text(FaultKind::Grammar, place(tokens, end))
}

/// The fault where only texts that are nested too deep go on with the next token.
pub fn too_deep(tokens: &[Token], end: usize) -> ReadFault
    ensures { result ≡ ReadFault.Text (broken_by Deep) (place_of end tokens.now) }
{
    ReadFault::Text(FaultKind::Limit, place(tokens, end))
}

fn is_sign(kind: TokenKind, sign: Sign) -> bool
    ensures { result ≡ same_class (TheSign sign) (class_of kind) }
{
    match kind {
        TokenKind::Name(_) => false,
        TokenKind::Number(_) => false,
        TokenKind::Word(_) => false,
        TokenKind::Sign(other) => sign == other,
    }
}

fn is_word(kind: TokenKind, word: Word) -> bool
    ensures { result ≡ same_class (TheWord word) (class_of kind) }
{
    match kind {
        TokenKind::Name(_) => false,
        TokenKind::Number(_) => false,
        TokenKind::Word(other) => word == other,
        TokenKind::Sign(_) => false,
    }
}

/// Whether the next token is this sign.
pub fn sign_follows(tokens: &[Token], sign: Sign) -> bool
    ensures { result ≡ starts text_tokens (TheSign sign ∷ []) tokens.now }
{
    match tokens {
        [] => false,
        [next, ..] => is_sign(next.kind, sign),
    }
}

/// Whether the next token is this word.
pub fn word_follows(tokens: &[Token], word: Word) -> bool
    ensures { result ≡ starts text_tokens (TheWord word ∷ []) tokens.now }
{
    match tokens {
        [] => false,
        [next, ..] => is_word(next.kind, word),
    }
}

/// The tokens behind the next one, which has to be this sign. Err: it is not.
#[tactic(auto, using(crate::proofs::Steps::one_fails, crate::proofs::Steps::one_taken))]
pub fn past_sign<'a>(tokens: &'a [Token], end: usize, sign: Sign) -> Result<&'a [Token], ReadFault>
    ensures { MatchResult result
        (λ rest. Takes (read (one {L = text_tokens} (TheSign sign ∷ [])) tokens.now) rest.now)
        (λ fault. Stops end (read (one {L = text_tokens} (TheSign sign ∷ [])) tokens.now) fault) }
{
    if !sign_follows(tokens, sign) {
        return Err(wrong(tokens, end));
    }
    Ok(behind(tokens))
}

/// The tokens behind the next one, which has to be this word. Err: it is not.
#[tactic(auto, using(crate::proofs::Steps::one_fails, crate::proofs::Steps::one_taken))]
pub fn past_word<'a>(tokens: &'a [Token], end: usize, word: Word) -> Result<&'a [Token], ReadFault>
    ensures { MatchResult result
        (λ rest. Takes (read (one {L = text_tokens} (TheWord word ∷ [])) tokens.now) rest.now)
        (λ fault. Stops end (read (one {L = text_tokens} (TheWord word ∷ [])) tokens.now) fault) }
{
    if word_follows(tokens, word) {
        Ok(behind(tokens))
    } else {
        Err(wrong(tokens, end))
    }
}

/// The tokens behind the next one.
pub fn behind(tokens: &[Token]) -> &[Token]
    ensures { result.now ≡ drop 1 tokens.now }
{
    match tokens {
        [] => tokens,
        [_, rest @ ..] => rest,
    }
}
