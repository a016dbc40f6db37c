//! Names among the tokens that are still to be read.

ghost use Rattle.std.specs.Prelude.{◌≡◌, IsTrue, MatchResult};
ghost use Rattle.grammar.specs.Read.{read};
ghost use Rattle.sc_text.specs.Classes.{AName, class_of, same_class};
ghost use Rattle.sc_text.specs.Reading.{Stops};
ghost use Rattle.sc_text.specs.DraftParts.{name_of};
ghost use Rattle.scl_reader.specs.Program.{name};
ghost use Rattle.scl_reader.specs.Inside.TextDrafts.{TakesName};

use sc_text::ahead::wrong;
use sc_text::{Named, ReadFault, Token, TokenKind, name_follows};
use sc_values::Name;

/// The name that is next, with its place. Err: none is next.
#[tactic(auto, using(crate::proofs::Names::no_name, crate::proofs::Names::name_taken))]
pub fn name(tokens: &[Token], end: usize) -> Result<Named, ReadFault>
    ensures { MatchResult result
        (λ called. TakesName tokens.now called)
        (λ fault. Stops end (read name tokens.now) fault) }
{
    if !name_follows(tokens) {
        return Err(wrong(tokens, end));
    }
    match tokens {
        [] => Err(wrong(tokens, end)),
        [next, ..] => Ok(Named {
            name: name_of(next.kind),
            at: next.at,
        }),
    }
}

// The name that a token is.
fn name_of(kind: TokenKind) -> Name
    requires { IsTrue (same_class AName (class_of kind)) }
    ensures { result ≡ name_of kind }
{
    match kind {
        TokenKind::Name(name) => name,
        _ => unreachable!(),
    }
}
