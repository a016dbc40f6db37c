//! The limits of a program, and of the layout of an image.

/// The variables of a program.
pub const VARIABLE_LIMIT: usize = 256;

/// The outputs among them.
pub const OUTPUT_LIMIT: usize = 64;

/// The threads of a program.
pub const THREAD_LIMIT: usize = 1_024;

/// The nodes of a program.
pub const NODE_LIMIT: usize = 16_384;

/// The children of a fork.
pub const CHILD_LIMIT: usize = 64;

/// The ancestors of a thread.
pub const ANCESTOR_LIMIT: u16 = 32;

/// The steps of a tick.
pub const BUDGET_LIMIT: u32 = 16_777_216;

/// How many variables, threads and nodes an image can count.
pub const COUNT_LIMIT: usize = 65_535;

/// How many children of one fork an image can count.
pub const CHILD_COUNT_LIMIT: usize = 255;

/// What stands in an image for the parent of a thread that has none.
pub const NO_PARENT: u16 = 65_535;
