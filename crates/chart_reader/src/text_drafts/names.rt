//! The names of states or of regions that stand side by side.

ghost use Rattle.std.specs.Prelude.{◌≡◌, IfOk};
ghost use Rattle.sc_text.specs.Flaws.{is_among, is_repeated};
ghost use Rattle.sc_text.specs.Index.{IsIndex};

use sc_text::Index;
use sc_values::Name;
use sqlite_items::Items;
use std::alloc::{AllocError, Global};

/// Some names, with a table of their places.
#[derive(Drop)]
pub(crate) struct Names {
    names: Items<Name>,
    index: Index,
    ghost same: { IsIndex names index },
}

impl Names {
    /// These names. Err: memory was refused.
    pub(crate) fn of(alloc: Global, names: Items<Name>) -> Result<Names, AllocError>
        ensures { IfOk result (λ all. all.names ≡ names) }
    {
        let index = Index::of(alloc, names.as_slice())?;
        Ok(Names { names, index })
    }

    /// Whether this is one of the names.
    pub(crate) fn has(&self, name: Name) -> bool
        ensures { result ≡ is_among self.now.names name }
    {
        self.index.has(name)
    }

    /// Whether the name that stands at this place stands at an earlier one too.
    pub(crate) fn is_repeated(&self, at: usize, name: Name) -> bool
        ensures { result ≡ is_repeated self.now.names at name }
    {
        self.index.is_repeated(at, name)
    }
}
