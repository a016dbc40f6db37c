//! Whether two programs are one and the same.

ghost use Rattle.std.specs.Prelude.{◌≡◌, ◌↔◌, IsTrue};

mod parts;
mod rows;
mod steps;

use crate::Program;
use rows::are_same_rows;

/// Whether two programs have the same variables, threads and nodes.
pub fn are_same(one: &Program, other: &Program) -> bool
    ensures { IsTrue result ↔ (one.now ≡ other.now) }
{
    are_same_rows(one.variables(), other.variables())
        && are_same_rows(one.threads(), other.threads())
        && are_same_rows(one.nodes(), other.nodes())
}
