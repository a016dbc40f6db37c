//! What is wrong, and what helps, as it is written here.

/// A fault in words.
#[derive(Clone, Copy)]
pub(crate) struct Told {
    /// What is wrong. `@` stands for the name, or another piece of the text, of which it is said.
    pub(crate) cause: &'static str,
    /// What helps. Empty: nothing is known to.
    pub(crate) cure: &'static str,
}
