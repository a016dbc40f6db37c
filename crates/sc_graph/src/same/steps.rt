//! What nodes do.

ghost use Rattle.std.specs.Prelude.{◌≡◌, ◌↔◌, IsTrue};

use crate::Step;
use sc_values::Code;

// Whether two codes have the same operations.
fn is_same_code(one: &Code, other: &Code) -> bool
    ensures { IsTrue result ↔ (one.now ≡ other.now) }
{
    one.operations() == other.operations()
}

/// Whether two steps do the same and go on at the same nodes.
pub(crate) fn is_same_step(one: &Step, other: &Step) -> bool
    ensures { IsTrue result ↔ (one.now ≡ other.now) }
{
    match one {
        Step::Assign {
            variable,
            code,
            next,
        } => matches!(other, Step::Assign { variable: x, code: c, next: n }
            if x == variable && is_same_code(c, code) && n == next),
        Step::Update {
            variable,
            combine,
            code,
            next,
        } => matches!(other, Step::Update { variable: x, combine: f, code: c, next: n }
            if x == variable && f == combine && is_same_code(c, code) && n == next),
        Step::Cond {
            code,
            then,
            other: otherwise,
        } => matches!(other, Step::Cond { code: c, then: t, other: o }
            if is_same_code(c, code) && t == then && o == otherwise),
        Step::Fork { children, join } => matches!(other, Step::Fork { children: c, join: j }
            if c.as_slice() == children.as_slice() && j == join),
        Step::Join { next } => matches!(other, Step::Join { next: n } if n == next),
        Step::Surf { depth } => matches!(other, Step::Surf { depth: d } if d == depth),
        Step::Depth { next } => matches!(other, Step::Depth { next: n } if n == next),
        Step::Exit => matches!(other, Step::Exit),
    }
}
