//! How many threads serve in a run.

ghost use Rattle.std.specs.Prelude.{◌≤◌};

/// How many threads serve in a run: 1 to 8.
#[derive(Clone, Copy)]
pub struct Workers {
    /// The number.
    pub number: u8,
    ghost some: { 1 ≤ number },
    ghost few: { number ≤ 8 },
}
