//! The states of a region by their names.

ghost use Rattle.std.specs.Prelude.{◌≡◌, ◌≤◌, IfOk, length};
ghost use Rattle.core_charts.specs.Rules.{state_text_limit};
ghost use Rattle.sc_text.specs.Index.{IsIndex};
ghost use Rattle.sc_text.specs.Resolved.{number_of};
ghost use Rattle.chart_reader.specs.Flaws.{state_names};

use crate::text_drafts::{DraftState, state_names};
use sc_text::Index;
use sc_values::Name;
use std::alloc::{AllocError, Global};

/// What the transitions of a region lead to: its states, and a table of their places by name.
#[derive(Drop)]
pub struct StateScope<'a> {
    pub states: &'a [DraftState],
    index: Index,
    ghost same: { IsIndex (state_names states.now) index },
    ghost few: { length states.now ≤ state_text_limit },
}

impl<'a> StateScope<'a> {
    /// The scope of these states. Err: memory was refused.
    pub fn of(alloc: Global, states: &'a [DraftState]) -> Result<StateScope<'a>, AllocError>
        requires { length states.now ≤ state_text_limit }
        ensures { IfOk result (λ scope. scope.states.now ≡ states.now) }
    {
        let names = state_names(alloc, states)?;
        let index = Index::of(alloc, names.as_slice())?;
        Ok(StateScope { states, index })
    }

    /// The number of the state of this name, or 0 where there is none.
    #[tactic(auto, using(crate::proofs::Numbers::number_fits))]
    pub fn number(&self, name: Name) -> u32
        ensures is { result ≡ number_of (state_names self.now.states.now) name }
        ensures few { result ≤ state_text_limit }
    {
        match self.index.place(name) {
            Some(at) => at as u32,
            None => 0,
        }
    }
}
