//! The origins of the nodes of the program of an SCL text.

ghost use Rattle.std.specs.Prelude.{◌≡◌, ℕ, IfOk, IsSome, Some, map, slice_get};
ghost use Rattle.node_elements.specs.declared.graph.origin.NodeOrigin.{NodeOrigin};
ghost use Rattle.sc_text.specs.Tokens.{AreTokens};
ghost use Rattle.sc_text.specs.declared.language.Language.TheVariants as language;
ghost use Rattle.scl_reader.specs.Checked.{IsFlawless};
ghost use Rattle.scl_reader.specs.Resolved.{IsProgramOf};
ghost use Rattle.node_sources.specs.SclOrigins.{at_first, point_origin, scl_origins};
ghost use Rattle.node_sources.specs.Sources.{SclSources};
ghost use Rattle.sc_graph.specs.Program.{Program};
ghost use Rattle.scl_graph.specs.Answers.{IsGraph};
ghost use Rattle.compiler.specs.Kept.{KeepsDraft};

use crate::origin::Origin;
use crate::statements::{StatementPlace, spots_of};
use node_elements::{NodeOrigin, node_origins, origins_tell_nodes};
use sc_text::{Language, ReadFault, Token, tokens};
use scl::Scl;
use scl_reader::Draft;
use sqlite_items::{Items, at};
use std::alloc::{AllocError, Global};

/// The origin of the first node of the point of this number, where the points stand there.
pub(crate) fn first_origin(spots: &[StatementPlace], number: usize) -> Option<Origin>
    ensures { result ≡ at_first (slice_get spots.now number) }
{
    match at(spots, number) {
        Some(spot) => Some(Origin::statement(spot.first)),
        None => None,
    }
}

// The origin of a node that comes from a point, where the points stand there.
fn point_origin(spots: &[StatementPlace], node: NodeOrigin) -> Option<Origin>
    ensures { result ≡ point_origin spots.now node }
{
    match node {
        NodeOrigin::First(point) => first_origin(spots, point as usize),
        NodeOrigin::Second(point) => match at(spots, point as usize) {
            Some(spot) => Some(Origin::statement(spot.second)),
            None => None,
        },
    }
}

// The origins of nodes, each of which comes from a point that is there.
fn origins_at(
    alloc: Global,
    spots: &[StatementPlace],
    nodes: &[NodeOrigin],
) -> Result<Items<Origin>, AllocError>
    requires { (k : ℕ) (n : NodeOrigin) → slice_get nodes.now k ≡ Some n → IsSome (point_origin spots.now n) }
    ensures { IfOk result (λ origins. map Some origins ≡ map (point_origin spots.now) nodes.now) }
{
    let mut origins = Items::new(alloc);
    for (number, node) in nodes.iter().enumerate() {
        match point_origin(spots, *node) {
            Some(origin) => origins.push(origin)?,
            None => unreachable!(),
        }
    }
    Ok(origins)
}

// The origins of the nodes of the program of a draft of a text with these tokens.
#[tactic(auto, using(crate::proofs::SclTold::origins_are))]
fn origins_in(
    alloc: Global,
    text: &str,
    draft: &Draft,
    tokens: &[Token],
    scl: &Scl,
) -> Result<Items<Origin>, AllocError>
    requires drafted { IsFlawless text.now draft.now }
    requires cut { AreTokens language.Scl 0 text.now tokens.now }
    requires spelled { IsProgramOf draft.now scl.now }
    ensures { IfOk result (λ origins. map Some origins
        ≡ scl_origins tokens.now draft.now.statements scl.now.body) }
{
    let spots = spots_of(alloc, tokens, draft.statements.as_slice())?;
    let nodes = node_origins(alloc, scl.body.as_slice())?;
    origins_tell_nodes();
    origins_at(alloc, spots.as_slice(), nodes.as_slice())
}

// The tokens of a text that has a draft.
pub(crate) fn tokens_of(
    alloc: Global,
    text: &str,
    draft: &Draft,
) -> Result<Items<Token>, AllocError>
    requires { IsFlawless text.now draft.now }
    ensures { IfOk result (AreTokens language.Scl 0 text.now) }
{
    match tokens(alloc, Language::Scl, text) {
        Ok(tokens) => Ok(tokens),
        Err(ReadFault::Memory) => Err(AllocError),
        Err(ReadFault::Text(_, _)) => unreachable!(),
    }
}

/// The origins of the nodes of the program of an SCL text. Err: memory was refused.
pub(crate) fn origins_of_scl(
    alloc: Global,
    text: &str,
    draft: &Draft,
    scl: &Scl,
) -> Result<Items<Origin>, AllocError>
    requires { KeepsDraft text.now scl.now draft.now }
    ensures { IfOk result (λ origins. (p : Program) → IsGraph scl.now p → SclSources text.now p origins) }
{
    let tokens = tokens_of(alloc, text, draft)?;
    let origins = origins_in(alloc, text, draft, tokens.as_slice(), scl)?;
    Ok(origins)
}
