//! The limits of names and codes.

/// The bytes of a name.
pub const NAME_LIMIT: usize = 64;

/// The operations of a code.
pub const OPERATION_LIMIT: usize = 64;

/// The operands of a code that stand at any moment.
pub const OPERAND_LIMIT: usize = 16;

/// The loads of a code.
pub const LOAD_LIMIT: usize = 16;
