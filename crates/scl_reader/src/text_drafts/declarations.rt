//! Reading the declarations of variables.

ghost use Rattle.std.specs.Prelude.{◌≡◌, [], ◌∷◌, MatchResult};
ghost use Rattle.std.specs.List.{flat_map};
ghost use Rattle.grammar.specs.Grammar.{one, many};
ghost use Rattle.grammar.specs.Read.{read, starts};
ghost use Rattle.sc_text.specs.Expression.{text_tokens};
ghost use Rattle.sc_text.specs.Reading.{Stops};
ghost use Rattle.sc_text.specs.DraftParts.{roles, kinds};
ghost use Rattle.scl_reader.specs.Program.{declaration};
ghost use Rattle.scl_reader.specs.Inside.TextDrafts.{Adds, TakesRole, TakesKind, one_declared};

use crate::text_drafts::name::name;
use sc_graph::Role;
use sc_text::ahead::{behind, past_sign, wrong};
use sc_text::{Declaration, ReadFault, Sign, Token, kind_follows, kind_of, role_follows, role_of};
use sc_values::Kind;
use sqlite_items::Items;

/// Reads the declarations at the front of the tokens, and puts them behind the others. Gives the tokens behind
/// them. Err: the fault at the first token that can't go on, or memory was refused.
#[tactic(auto, using(crate::proofs::Declaring::declarations_begin, crate::proofs::Declaring::declarations_end, crate::proofs::Declaring::declarations_over, crate::proofs::Declaring::declarations_stop, crate::proofs::Declaring::declarations_go_on))]
pub fn declarations<'a>(
    tokens: &'a [Token],
    end: usize,
    declarations: &mut Items<Declaration>,
) -> Result<&'a [Token], ReadFault>
    ensures { MatchResult result
        (λ rest. Adds (flat_map one_declared) (read (many declaration) tokens.now)
        declarations.old declarations.new rest.now)
        (λ fault. Stops end (read (many declaration) tokens.now) fault) }
{
    let mut rest = tokens;
    let most = rest.len();
    for used in 0..most {
        if !role_follows(rest) {
            return Ok(rest);
        }
        rest = declaration(rest, end, declarations)?;
    }
    Ok(rest)
}

fn declaration<'a>(
    tokens: &'a [Token],
    end: usize,
    declarations: &mut Items<Declaration>,
) -> Result<&'a [Token], ReadFault>
    ensures { MatchResult result
        (λ rest. Adds one_declared (read declaration tokens.now) declarations.old declarations.new rest.now)
        (λ fault. Stops end (read declaration tokens.now) fault) }
{
    let (role, typed) = role(tokens, end)?;
    let (kind, named) = kind(typed, end)?;
    let called = name(named, end)?;
    let rest = behind(named);
    let after = past_sign(rest, end, Sign::Semicolon)?;
    declarations.push(Declaration {
        role,
        kind,
        named: called,
    })?;
    Ok(after)
}

// The role that is next, and the tokens behind it. Err: none is next.
#[tactic(auto, using(sc_text::proofs::Steps::one_fails))]
fn role(tokens: &[Token], end: usize) -> Result<(Role, &[Token]), ReadFault>
    ensures { MatchResult result
        (λ p. TakesRole (read (one {L = text_tokens} roles) tokens.now) p.0 p.1.now)
        (λ fault. Stops end (read (one {L = text_tokens} roles) tokens.now) fault) }
{
    if !role_follows(tokens) {
        return Err(wrong(tokens, end));
    }
    match tokens {
        [] => Err(wrong(tokens, end)),
        [next, rest @ ..] => Ok((role_of(next.kind), rest)),
    }
}

// The kind that is next, and the tokens behind it. Err: none is next.
#[tactic(auto, using(sc_text::proofs::Steps::one_fails))]
fn kind(tokens: &[Token], end: usize) -> Result<(Kind, &[Token]), ReadFault>
    ensures { MatchResult result
        (λ p. TakesKind (read (one {L = text_tokens} kinds) tokens.now) p.0 p.1.now)
        (λ fault. Stops end (read (one {L = text_tokens} kinds) tokens.now) fault) }
{
    if !kind_follows(tokens) {
        return Err(wrong(tokens, end));
    }
    match tokens {
        [] => Err(wrong(tokens, end)),
        [next, rest @ ..] => Ok((kind_of(next.kind), rest)),
    }
}
