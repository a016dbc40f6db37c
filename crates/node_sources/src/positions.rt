//! Lines and columns of the places of a text, found without a walk from its beginning.

use crate::line_columns::{LineColumn, START};
use sqlite_items::Items;
use std::alloc::{AllocError, Global};

// How many bytes lie between two places that are noted.
const STRIDE: usize = 256;

/// The lines and columns of the bytes of a text.
#[derive(Drop)]
pub struct Positions<'a> {
    bytes: &'a [u8],
    noted: Items<LineColumn>,
}

impl<'a> Positions<'a> {
    /// Those of a text. Err: memory was refused.
    pub fn of(alloc: Global, text: &'a str) -> Result<Positions<'a>, AllocError> {
        let bytes = text.as_bytes();
        let mut noted = Items::new(alloc);
        let mut here = START;
        for (at, byte) in bytes.iter().enumerate() {
            if at % STRIDE == 0 {
                noted.push(here)?;
            }
            here = here.behind(*byte);
        }
        Ok(Positions { bytes, noted })
    }

    /// That of the byte of this number, from 0, at which a character begins; behind the last byte that of the end.
    pub fn line_column(&self, at: usize) -> LineColumn {
        let place = at.min(self.bytes.len());
        let first = self.last_noted(place / STRIDE);
        let mut here = match self.noted.get(first) {
            Some(line_column) => *line_column,
            None => START,
        };
        let begin = first.saturating_mul(STRIDE);
        for offset in 0..place.saturating_sub(begin) {
            if let Some(byte) = self.bytes.get(begin.saturating_add(offset)) {
                here = here.behind(*byte);
            }
        }
        here
    }

    // This number, or that of the last noted place.
    fn last_noted(&self, number: usize) -> usize {
        number.min(self.noted.len().saturating_sub(1))
    }
}
