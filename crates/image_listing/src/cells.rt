//! Cells of columns: texts and numbers filled up with spaces.

ghost use Rattle.std.specs.Prelude.{◌≡◌, ◌++◌, IfOk, OnOk, string_bytes};
ghost use Rattle.image_listing.specs.Cells.{left_cell, number_cell, right_cell, spaces};

use std::alloc::{AllocError, Global};

/// Puts so many spaces behind a text. Err: memory was refused.
pub(crate) fn put_spaces(text: &mut String, count: usize) -> Result<(), AllocError>
    ensures { OnOk result (string_bytes text.new ≡ string_bytes text.old ++ spaces count) }
{
    for _ in 0..count {
        text.push_str(" ")?;
    }
    Ok(())
}

/// Puts a piece behind a text, with spaces behind it up to the width. Err: memory was refused.
pub(crate) fn put_left(text: &mut String, width: usize, piece: &str) -> Result<(), AllocError>
    ensures { OnOk result (string_bytes text.new ≡ string_bytes text.old ++ left_cell width piece.now) }
{
    text.push_str(piece)?;
    put_spaces(text, width.saturating_sub(piece.len()))
}

/// Puts a piece behind a text, with spaces before it up to the width. Err: memory was refused.
pub(crate) fn put_right(text: &mut String, width: usize, piece: &str) -> Result<(), AllocError>
    ensures { OnOk result (string_bytes text.new ≡ string_bytes text.old ++ right_cell width piece.now) }
{
    put_spaces(text, width.saturating_sub(piece.len()))?;
    text.push_str(piece)
}

/// Puts a number behind a text, with spaces before it up to the width. Err: memory was refused.
pub(crate) fn put_number(
    alloc: Global,
    text: &mut String,
    width: usize,
    number: u32,
) -> Result<(), AllocError>
    ensures { OnOk result (string_bytes text.new ≡ string_bytes text.old ++ number_cell width number) }
{
    let digits = format!(in alloc; "{number}")?;
    put_right(text, width, digits.as_str())
}

/// The text, with spaces behind it up to the width; a longer one stays as it is. Err: memory was refused.
pub fn left_cell(alloc: Global, width: usize, text: &str) -> Result<String, AllocError>
    ensures { IfOk result (λ cell. string_bytes cell ≡ left_cell width text.now) }
{
    let mut cell = String::new(alloc);
    put_left(&mut cell, width, text)?;
    Ok(cell)
}

/// The number, with spaces before it up to the width. Err: memory was refused.
pub(crate) fn number_cell(alloc: Global, width: usize, number: u32) -> Result<String, AllocError>
    ensures { IfOk result (λ cell. string_bytes cell ≡ number_cell width number) }
{
    let mut cell = String::new(alloc);
    put_number(alloc, &mut cell, width, number)?;
    Ok(cell)
}
