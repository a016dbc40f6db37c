//! Marks, one a number.

ghost use Rattle.std.specs.Prelude.{◌≡◌, false, true, get_or, slice_set, replicate, IfOk};

use std::alloc::{AllocError, Global};

/// So many marks that are not set.
pub(crate) fn unmarked(alloc: Global, count: usize) -> Result<Vec<bool>, AllocError>
    ensures { IfOk result (λ marks. marks.items ≡ replicate count false) }
{
    let mut marks = Vec::with_capacity(alloc, count)?;
    for _number in 0..count {
        marks.push(false)?;
    }
    Ok(marks)
}

/// Sets the mark of a number, if there is one.
pub(crate) fn mark(marks: &mut Vec<bool>, number: usize)
    ensures { marks.new.items ≡ slice_set marks.old.items number true }
{
    if number < marks.len() {
        marks[number] = true;
    }
}

/// Whether a number is marked.
pub(crate) fn is_marked(marks: &[bool], number: usize) -> bool
    ensures { result ≡ get_or marks.now number false }
{
    match marks.get(number) {
        Some(is_marked) => *is_marked,
        None => false,
    }
}
