//! From which point of a text a node comes.

/// From which point of a text a node comes. Points are the statements and the ends of threads, numbered from 0 in the
/// order of the text, a statement before those in it.
#[derive(Clone, Copy, PartialEq, Eq)]
pub enum NodeOrigin {
    /// The only node of this point, or the first one: the surface of a pause, or a fork.
    First(u32),
    /// The second node of this point: the depth of a pause, or the join of a fork.
    Second(u32),
}
