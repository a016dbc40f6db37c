//! Whether names crowd a table that finds them by their hash. The hash has no key, so whoever chooses names can choose
//! such that fall into few places, and then each is looked for among many others. No contract rests on the answer: it
//! picks one of two tables that say the same.

use sc_values::Name;
use std::alloc::{AllocError, Global};
use std::hash::{BuildHasher, BuildHasherDefault, FoldHasher};

// A group of the table has room for so many names, and so many are meant for it.
const ROOM: usize = 12;

const LOAD: usize = 9;
// As many names may find no room in their group, nor in those behind it. By chance some twenty do, of a million. So few
// names are soon gone through, however they fall.
const MOST: usize = 96;

/// Whether a name may have to be looked for among too many others. Err: memory was refused.
pub(crate) fn is_crowded(alloc: Global, names: &[Name]) -> Result<bool, AllocError> {
    if names.len() <= MOST {
        return Ok(false);
    }
    let mut counts = vec![in alloc; 0; group_count(names.len())]?;
    count_all(counts.as_mut_slice(), names);
    let once = left_over(counts.as_slice(), 0);
    let again = left_over(counts.as_slice(), once.0);
    Ok(again.1 > MOST)
}

// How many groups a table of so many names has: a power of two.
fn group_count(names: usize) -> usize {
    match names.div_ceil(LOAD).checked_next_power_of_two() {
        Some(count) => count,
        None => 1,
    }
}

fn count_all(counts: &mut [usize], names: &[Name]) {
    let hashes = BuildHasherDefault::<FoldHasher>::new();
    for name in names {
        count_one(counts, hashes.hash_one(*name));
    }
}

// Counts a name of this hash at its group: the last bits of both halves tell which.
fn count_one(counts: &mut [usize], hash: u64) {
    let group = (hash ^ hash >> 32) as usize & counts.len().saturating_sub(1);
    if group < counts.len() {
        counts[group] = counts[group].saturating_add(1);
    }
}

// Each group hands on what it has no room for. How many the last one hands on, and the most that one does, where so
// many are handed to the first.
fn left_over(counts: &[usize], handed: usize) -> (usize, usize) {
    let mut rest = handed;
    let mut most = handed;
    for count in counts {
        rest = rest.saturating_add(*count).saturating_sub(ROOM);
        most = most.max(rest);
    }
    (rest, most)
}
