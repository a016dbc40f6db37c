//! Rules about tables of numbers.

ghost use Rattle.std.specs.Prelude.{◌≡◌, ◌<◌, ℕ, IfOk, IsTrue, length, slice_index};
ghost use Rattle.least_or_cycle.specs.Least.{IsNeeded, IsPart, Keeps};

use std::alloc::{AllocError, Global};

/// A rule about tables of numbers, of which each place asks that its number is great enough.
pub trait NumberRule {
    ghost keeps: { Self → (ℕ → ℕ) → ℕ → Type 0 };

    /// What the rule asks for a place, given the rest of the table.
    fn need(&self, table: &[u32], place: u16) -> u64
        requires { place < length table.now }
        ensures { IsNeeded (keeps self.now) table.now place result };

    /// A part of what the rule asks for a place, where a part is found faster than all of it.
    fn part(&self, table: &[u32], place: u16) -> u64
        requires { place < length table.now }
        ensures { IsPart (keeps self.now) table.now place result }
    {
        0
    }

    /// Whether a table of so many numbers keeps the rule at each place, where this is found faster than place by place.
    /// False: it was not found. Err: memory was refused.
    fn is_kept(&self, alloc: Global, table: &[u32], count: u16) -> Result<bool, AllocError>
        requires { length table.now ≡ count }
        ensures { IfOk result (λ kept. IsTrue kept → Keeps (keeps self.now) count (slice_index table.now)) }
    {
        Ok(false)
    }
}
