//! Rows with room for all items of a class, made before the first item is put.

ghost use Rattle.std.specs.Prelude.{◌≡◌, ◌+◌, ◌<◌, ◌≤◌, ◌^◌, ℕ, IfOk, sum_by, take, length, slice_index};
ghost use Rattle.tick_core.specs.Rows.{HasRooms};

use std::alloc::{AllocError, Global};

/// For each class up to the greatest of the places, how many places are of it.
pub(crate) fn rooms_of(alloc: Global, places: &[u16]) -> Result<Vec<usize>, AllocError>
    ensures rooms { IfOk result (λ rooms. HasRooms rooms.items places.now) }
    ensures all { IfOk result (λ rooms. sum_by (λ x. x) rooms.items ≡ length places.now) }
{
    let classes = greatest_of(places) as usize + 1;
    let mut rooms = vec![in alloc; 0; classes]?;
    for place in places {
        rooms[*place as usize] += 1;
    }
    Ok(rooms)
}

/// Where each row begins, where they lie one after another.
pub(crate) fn starts_of(alloc: Global, rooms: &[usize]) -> Result<Vec<usize>, AllocError>
    requires { sum_by (λ x. x) rooms.now < 2 ^ 63 }
    ensures length { IfOk result (λ starts. length starts.items ≡ length rooms.now) }
    ensures starts { IfOk result (λ starts. (class : ℕ) → class < length rooms.now
        → slice_index starts.items class ≡ sum_by (λ x. x) (take class rooms.now)) }
{
    let mut starts = Vec::with_capacity(alloc, rooms.len())?;
    let mut next = 0;
    for room in rooms {
        starts.push(next)?;
        next += *room;
    }
    Ok(starts)
}

// The greatest of these classes; 0 where there is none.
fn greatest_of(places: &[u16]) -> u16
    ensures { (i : ℕ) → i < length places.now → slice_index places.now i ≤ result }
{
    let mut greatest = 0;
    for place in places {
        greatest = greatest.max(*place);
    }
    greatest
}
