//! Whether tokens are such as texts of charts have.

ghost use Rattle.std.specs.Prelude.{◌≡◌, MatchResult};
ghost use Rattle.extended_reader.specs.Answer.{Good, Tells};
ghost use Rattle.extended_reader.specs.Well.{is_reserved, begins_well, is_natural, is_well, are_well, well_text};

use sc_text::{FaultKind, ReadFault, Token, TokenKind, Word};
use sc_values::Name;
use sqlite_items::Items;

#[tactic(auto, using(crate::proofs::Reserved::free, crate::proofs::Reserved::taken))]
fn is_reserved(name: Name) -> bool
    ensures { result ≡ is_reserved name }
{
    match Word::of(name.as_bytes()) {
        Some(_) => true,
        None => false,
    }
}

fn begins_well(name: &[u8]) -> bool
    ensures { result ≡ begins_well name.now }
{
    match name {
        [first, ..] => *first != b'_',
        [] => true,
    }
}

fn is_natural(number: i32) -> bool
    ensures { result ≡ is_natural number }
{
    number >= 0
}

fn is_well(kind: TokenKind) -> bool
    ensures { result ≡ is_well kind }
{
    match kind {
        TokenKind::Name(name) => begins_well(name.as_bytes()) && !is_reserved(name),
        TokenKind::Number(number) => is_natural(number),
        _ => true,
    }
}

fn are_well(text: &[Token]) -> bool
    ensures { result ≡ are_well text.now }
{
    text.iter().all(|token| is_well(token.kind))
}

/// The text, where each token is one that texts have. Err: one is none.
pub(crate) fn well_text(text: Items<Token>, end: usize) -> Result<Items<Token>, ReadFault>
    ensures { MatchResult result (λ well. well_text end text ≡ Good well) (Tells (well_text end text)) }
{
    if are_well(text.as_slice()) {
        Ok(text)
    } else {
        Err(ReadFault::Text(FaultKind::Token, end))
    }
}
