//! A line as it is kept.

/// A line of an input.
#[derive(Clone, Copy)]
pub enum Line<'b> {
    /// The line.
    Whole(&'b [u8]),
    /// It is longer than a line may be.
    Long,
    /// It is not kept.
    Lost,
}
