//! The states of the author's from which those of a reduced chart come.

ghost use Rattle.std.specs.Prelude.{◌≡◌, suc};
ghost use Rattle.chart_warnings.specs.Author.{around, before, entered, own};

use sqlite_items::at;

/// The number of the author's at this place of a row, if there is one.
pub(crate) fn own(states: &[Option<u32>], number: usize) -> Option<usize>
    ensures { result ≡ own states.now number }
{
    match at(states, number) {
        Some(Some(own)) => Some(*own as usize),
        Some(None) => None,
        None => None,
    }
}

// That at the place behind.
#[tactic(auto, using(std::proofs::lemmas::Option::slice_get_past))]
fn behind(states: &[Option<u32>], number: usize) -> Option<usize>
    ensures { result ≡ own states.now (suc number) }
{
    if number < states.len() {
        own(states, number + 1)
    } else {
        None
    }
}

// That at the place before.
fn before(states: &[Option<u32>], number: usize) -> Option<usize>
    ensures { result ≡ before states.now number }
{
    if number == 0 {
        None
    } else {
        own(states, number - 1)
    }
}

/// The author's state that is entered by this one: it itself, or the one behind it where this one is made.
pub(crate) fn entered(states: &[Option<u32>], number: usize) -> Option<usize>
    ensures { result ≡ entered states.now number }
{
    match own(states, number) {
        Some(own) => Some(own),
        None => behind(states, number),
    }
}

/// The author's state whose regions stand in this one: it itself, or the one before it where this one is made.
pub(crate) fn around(states: &[Option<u32>], number: usize) -> Option<usize>
    ensures { result ≡ around states.now number }
{
    match own(states, number) {
        Some(own) => Some(own),
        None => before(states, number),
    }
}
