//! What is asked of the lines of a trace.

/// What is asked of the lines of a trace.
#[derive(Clone, Copy, PartialEq, Eq)]
pub struct Rules {
    /// Whether each line has to name every input.
    pub strict: bool,
    /// Whether a line that gives no inputs is answered and passed over; else it ends the trace.
    pub skips: bool,
}
