//! Reading a whole program.

ghost use Rattle.std.specs.Prelude.{◌≡◌, ◌↔◌, [], IsTrue, IfOk, IfErr, MatchResult};
ghost use Rattle.grammar.specs.Read.{read, read_all};
ghost use Rattle.sc_text.specs.Reading.{Stops};
ghost use Rattle.scl_reader.specs.Draft.{IsDraft, IsDraftFault};
ghost use Rattle.scl_reader.specs.Program.{scl};
ghost use Rattle.scl_reader.specs.Inside.TextDrafts.{Drafts, AddsBody, in_braces};

use crate::text_drafts::declarations::declarations;
use crate::text_drafts::draft::Draft;
use crate::text_drafts::name::name;
use crate::text_drafts::statement::TextStatement;
use crate::text_drafts::statements::{FORK_LIMIT, IF_LIMIT, statements};
use sc_text::ahead::{behind, past_sign, past_word, wrong};
use sc_text::{Declaration, Language, ReadFault, Sign, Token, Word, tokens};
use sqlite_items::Items;
use std::alloc::Global;

/// The draft of a text: what its tokens spell by the grammar. Err: the first place where no token stands; else
/// the first token that can't go on, or with which only programs go on that are nested too deep, or the end of
/// the text, where none may end; or memory was refused.
#[tactic(auto, using(crate::proofs::Drafting::scanned))]
pub fn read_draft(alloc: Global, text: &str) -> Result<Draft, ReadFault>
    ensures ok { IfOk result (λ draft. IsDraft text.now draft) }
    ensures fault { IfErr result (λ fault. IsDraftFault text.now fault) }
{
    let tokens = tokens(alloc, Language::Scl, text)?;
    whole(alloc, tokens.as_slice(), text.len())
}

// A program that ends where the tokens do.
#[tactic(auto, using(crate::proofs::Programs::scl_stops, crate::proofs::Programs::name_stops, crate::proofs::Programs::body_stops, crate::proofs::Programs::more_stops, crate::proofs::Programs::whole_drafts))]
fn whole(alloc: Global, tokens: &[Token], end: usize) -> Result<Draft, ReadFault>
    ensures { MatchResult result
        (λ draft. Drafts (read_all (scl 0) tokens.now) draft)
        (λ fault. Stops end (read_all (scl 0) tokens.now) fault) }
{
    let named = past_word(tokens, end, Word::Scl)?;
    let called = name(named, end)?;
    let mut variables = Items::new(alloc);
    let mut statements = Items::new(alloc);
    let rest = body(alloc, behind(named), end, &mut variables, &mut statements)?;
    if !is_over(rest) {
        return Err(wrong(rest, end));
    }
    Ok(Draft {
        name: called.name,
        declarations: variables,
        statements,
    })
}

// Whether no token is left.
fn is_over(tokens: &[Token]) -> bool
    ensures { IsTrue result ↔ (tokens.now ≡ []) }
{
    tokens.is_empty()
}

// Declarations and statements, in braces.
#[tactic(auto, using(crate::proofs::Programs::open_stops, crate::proofs::Programs::declarations_stop, crate::proofs::Programs::statements_stop))]
fn body<'a>(
    alloc: Global,
    tokens: &'a [Token],
    end: usize,
    variables: &mut Items<Declaration>,
    into: &mut Items<TextStatement>,
) -> Result<&'a [Token], ReadFault>
    ensures { MatchResult result
        (λ rest. AddsBody (read in_braces tokens.now) variables.old variables.new into.old into.new rest.now)
        (λ fault. Stops end (read in_braces tokens.now) fault) }
{
    let inside = past_sign(tokens, end, Sign::OpenBrace)?;
    let start = declarations(inside, end, variables)?;
    let rest = statements(alloc, FORK_LIMIT, IF_LIMIT, start, end, into)?;
    past_sign(rest, end, Sign::CloseBrace)
}
