//! For which of the author's states the states of a reduced chart stand.

ghost use Rattle.std.specs.Prelude.{◌≡◌, IfErr, IfOk, map, option_and_then, string_bytes};
ghost use Rattle.chart_reduction.specs.Reduction.{LacksChart};
ghost use Rattle.author_states.specs.Author.{author_nodes, author_state, author_states};

use crate::paths::paths_of;
use chart_reduction::{ReduceFault, reduce};
use extended_charts::ExtendedChart;
use sqlite_items::Items;
use std::alloc::{AllocError, Global};
use std::marker::Model;

/// The states of an author, by their paths, and for which of them each state of the chart stands to which his extended
/// chart is reduced. States are numbered from 0 in the order of each text.
#[derive(Drop)]
pub struct AuthorStates {
    paths: Vec<String>,
    stand: Items<Option<u32>>,
}

impl Model for AuthorStates {
    ghost use Rattle.std.specs.Prelude.{map, string_bytes};
    ghost use Rattle.author_states.specs.Author.{AuthorsStates};

    ghost Value = { AuthorsStates };

    ghost view = { λ s. record { paths = map string_bytes s.paths.items; stand = s.stand } };
}

impl AuthorStates {
    /// For which of the author's states nodes stand that stand for these states of the reduced chart. Err: memory was
    /// refused.
    pub fn past(
        &self,
        alloc: Global,
        nodes: &[Option<u32>],
    ) -> Result<Items<Option<u32>>, AllocError>
        ensures { IfOk result (λ made. made ≡ author_nodes self.now.stand nodes.now) }
    {
        author_nodes(alloc, self.stand.as_slice(), nodes)
    }

    /// The paths of the author's states, in the order of his text.
    pub fn into_paths(self) -> Vec<String>
        ensures { map string_bytes result.items ≡ self.paths }
    {
        self.paths
    }
}

/// The states of the author of an extended chart, and for which of them the states of the chart stand to which that is
/// reduced. `Limit`: it is reduced to none.
pub fn author_states(alloc: Global, chart: &ExtendedChart) -> Result<AuthorStates, ReduceFault>
    ensures states { IfOk result (λ states. states ≡ author_states chart.now) }
    ensures fault { IfErr result (LacksChart chart.now) }
{
    let (_, rows) = reduce(alloc, chart)?;
    let paths = paths_of(alloc, chart)?;
    Ok(AuthorStates {
        paths,
        stand: rows.states,
    })
}

fn author_nodes(
    alloc: Global,
    stand: &[Option<u32>],
    nodes: &[Option<u32>],
) -> Result<Items<Option<u32>>, AllocError>
    ensures { IfOk result (λ made. made ≡ author_nodes stand.now nodes.now) }
{
    let mut made = Items::new(alloc);
    for node in nodes {
        made.push(author_state(stand, *node))?;
    }
    Ok(made)
}

// The author's state for which what stands for this state of the reduced chart stands, if there is one.
fn author_state(stand: &[Option<u32>], state: Option<u32>) -> Option<u32>
    ensures { result ≡ option_and_then (author_state stand.now) state }
{
    let number = state?;
    match stand.get(number as usize) {
        Some(own) => *own,
        None => None,
    }
}
