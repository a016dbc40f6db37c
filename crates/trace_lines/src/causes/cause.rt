//! What is met where a line gives no inputs.

use sc_values::Kind;

/// What a member has for a value.
#[derive(Clone, Copy, Debug, PartialEq, Eq)]
pub enum Met {
    /// `null`.
    Null,
    /// A truth value.
    Truth(bool),
    /// A number that is whole, without fraction and exponent.
    Whole,
    /// Another number.
    Fraction,
    /// A text.
    Text,
    /// A list.
    List,
    /// An object.
    Object,
}

/// Why a line gives no inputs.
#[derive(Debug, Drop)]
pub enum Cause {
    /// It has more than 65,536 bytes.
    TooLong,
    /// It is no JSON object.
    NoObject,
    /// A member of this name names no input.
    NoInput(String),
    /// A member of this name has a value that the input's kind does not take.
    NoValue(String, Kind, Met),
    /// No member names the input of this name.
    Missing(String),
}
