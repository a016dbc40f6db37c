//! Values that are given to inputs, in the order of their names.

ghost use Rattle.std.specs.Prelude.{◌≡◌, ◌≤◌, ◌↔◌, IsTrue, OnOk, length, insert, slice_set};
ghost use Rattle.trace_lines.specs.Inside.Ordered.{is_behind, AreInOrder, is_behind_last, place_in, IsNamedAt};
ghost use Rattle.trace_lines.specs.Inside.Ordered.{with_given};

use sc_values::{Name, Value};
use std::alloc::AllocError;

const FEW: usize = 32;

// Whether this name is behind the other.
fn is_behind(name: &Name, other: &Name) -> bool
    ensures { result ≡ is_behind name.now other.now }
{
    name.cmp(other).is_gt()
}

/// Whether this name is behind the last one.
pub(crate) fn is_behind_last(found: &[(Name, Value)], name: &Name) -> bool
    ensures { result ≡ is_behind_last name.now found.now }
{
    match found.last() {
        Some(last) => is_behind(name, &last.0),
        None => true,
    }
}

// How many of these, from the first on, this name is behind.
fn count_before(found: &[(Name, Value)], name: &Name) -> usize
    ensures { result ≡ place_in name.now found.now }
{
    for at in 0..found.len() {
        if !is_behind(name, &found[at].0) {
            return at;
        }
    }
    found.len()
}

// The place of this name among these.
fn place_in(found: &[(Name, Value)], name: &Name) -> usize
    requires { AreInOrder found.now }
    ensures { result ≡ place_in name.now found.now }
{
    if is_behind_last(found, name) {
        return found.len();
    }
    count_before(found, name)
}

fn is_same(name: &Name, other: &Name) -> bool
    ensures { IsTrue result ↔ (name.now ≡ other.now) }
{
    name == other
}

// Whether the one at this place has this name.
fn is_named_at(found: &[(Name, Value)], place: usize, name: &Name) -> bool
    ensures { IsTrue result ↔ IsNamedAt found.now place name.now }
{
    match sqlite_items::at(found, place) {
        Some(one) => is_same(&one.0, name),
        None => false,
    }
}

fn set(found: &mut Vec<(Name, Value)>, place: usize, given: (Name, Value))
    ensures { found.new.items ≡ slice_set found.old.items place given }
{
    if place < found.len() {
        found[place] = given;
    }
}

fn insert(
    found: &mut Vec<(Name, Value)>,
    place: usize,
    given: (Name, Value),
) -> Result<(), AllocError>
    requires { place ≤ length found.old.items }
    ensures { OnOk result (found.new.items ≡ insert found.old.items place given) }
{
    found.insert(place, given)?;
    Ok(())
}

// Puts one more to this place, which is that of its name, or sets the one of its name.
fn put_at(
    found: &mut Vec<(Name, Value)>,
    place: usize,
    given: (Name, Value),
) -> Result<(), AllocError>
    requires { place ≡ place_in given.0 found.old.items }
    ensures { OnOk result (found.new.items ≡ with_given given found.old.items) }
{
    if is_named_at(found, place, &given.0) {
        set(found, place, given);
        return Ok(());
    }
    insert(found, place, given)?;
    Ok(())
}

/// Whether one more of this name passes over no more than a few, so that many in no order cost no square
/// of their number.
pub(crate) fn is_near_end(found: &[(Name, Value)], name: &Name) -> bool {
    found.len() < FEW || is_behind_last(found, name)
}

/// Puts one more to the place of its name, or sets the one of its name.
pub(crate) fn put(found: &mut Vec<(Name, Value)>, given: (Name, Value)) -> Result<(), AllocError>
    requires { AreInOrder found.old.items }
    ensures { OnOk result (found.new.items ≡ with_given given found.old.items) }
{
    let place = place_in(found, &given.0);
    put_at(found, place, given)
}
