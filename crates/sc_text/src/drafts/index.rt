//! Names, looked up in a table that is made once.

ghost use Rattle.std.specs.Prelude.{◌≡◌, ℕ, List, IfOk, nat_eq};
ghost use Rattle.std.specs.BTreeMap as tree;
ghost use Rattle.std.specs.HashMap as hash;
ghost use Rattle.std.specs.Cmp.Lexicographic.{pointwise, slice_cmp};
ghost use Rattle.std.specs.Ordering.{nat_cmp};
ghost use Rattle.sc_text.specs.Flaws.{place_among, is_among, is_at, is_repeated};
ghost use Rattle.sc_text.specs.Index.{IsIndex};

use crate::drafts::crowding::is_crowded;
use sc_values::Name;
use std::alloc::{AllocError, Global};
use std::collections::{BTreeMap, HashMap};

/// Some names, each with its place among them. They stand in one of two tables, and none in the other.
#[derive(Drop)]
pub struct Index {
    hashed: HashMap<Name, usize>,
    ordered: BTreeMap<Name, usize>,
}

impl Index {
    /// The table of these names. Err: memory was refused.
    #[tactic(auto, using(crate::proofs::Indexed::hashed_alone, crate::proofs::Indexed::ordered_alone))]
    pub fn of(alloc: Global, names: &[Name]) -> Result<Index, AllocError>
        ensures { IfOk result (λ index. IsIndex names.now index) }
    {
        if is_crowded(alloc, names)? {
            let ordered = in_order(alloc, names)?;
            let hashed = HashMap::new(alloc);
            return Ok(Index { hashed, ordered });
        }
        let hashed = by_hash(alloc, names)?;
        let ordered = BTreeMap::new(alloc);
        Ok(Index { hashed, ordered })
    }

    /// Which of the names this is: the first of them that is equal. None: it is none of them.
    pub fn place(&self, name: Name) -> Option<usize>
        ensures { (names : List (List ℕ)) → IsIndex names self.now → result ≡ place_among names name }
    {
        match self.hashed.get(&name) {
            Some(at) => Some(*at),
            None => self.ordered.get(&name).copied(),
        }
    }

    /// Whether this is one of the names.
    pub fn has(&self, name: Name) -> bool
        ensures { (names : List (List ℕ)) → IsIndex names self.now → result ≡ is_among names name }
    {
        self.place(name).is_some()
    }

    /// Whether the name that stands at this place stands at an earlier one too.
    pub fn is_repeated(&self, at: usize, name: Name) -> bool
        ensures { (names : List (List ℕ)) → IsIndex names self.now → result ≡ is_repeated names at name }
    {
        !is_at(at, self.place(name))
    }
}

fn is_at(at: usize, place: Option<usize>) -> bool
    ensures { result ≡ is_at at place }
{
    match place {
        Some(found) => found == at,
        None => false,
    }
}

// Of equal names the first has the last word, so the last goes in first.
fn by_hash(alloc: Global, names: &[Name]) -> Result<HashMap<Name, usize>, AllocError>
    ensures { IfOk result (λ places. (q : List ℕ) → hash.get (pointwise nat_eq) places q ≡ place_among names.now q) }
{
    let mut hashed = HashMap::with_capacity(alloc, names.len())?;
    let mut left = names.len();
    while left > 0 {
        left -= 1;
        hashed.insert(names[left], left)?;
    }
    Ok(hashed)
}

// The same in a table that nobody can crowd.
fn in_order(alloc: Global, names: &[Name]) -> Result<BTreeMap<Name, usize>, AllocError>
    ensures { IfOk result (λ places. (q : List ℕ) → tree.get (slice_cmp nat_cmp) places q ≡ place_among names.now q) }
{
    let mut ordered = BTreeMap::new(alloc);
    let mut left = names.len();
    while left > 0 {
        left -= 1;
        ordered.insert(names[left], left)?;
    }
    Ok(ordered)
}
