//! The rules of a valid image, and where one is broken.

ghost use Rattle.std.specs.Prelude.{◌≡◌};

use sc_graph::Place;
use std::alloc::AllocError;

/// A rule of a valid image, in order.
#[derive(Clone, Copy, Debug, PartialEq, Eq)]
pub enum Rule {
    /// E31: counts and the budget are within their limits, names are distinct, and each number names
    /// something.
    Size,
    /// E32: who owns what a step names; one fork for each join and for each thread but the root, one
    /// pause for each depth.
    Structure,
    /// E33: each code spells a well-kinded expression within the limits, and that of a Cond is Bool.
    Code,
    /// E34: what is written fits the variable, which is no input, and no update loads its own variable.
    Assignment,
    /// E35: a node from which a thread may end in this tick has its end bit.
    EndBit,
    /// E36: no two concurrent writes conflict.
    NoConflict,
    /// E37: priority never rises along an instantaneous edge.
    Flow,
    /// E38: priority falls strictly along each protocol edge.
    Protocol,
    /// E39: a weight covers the steps that may follow in this tick.
    Weight,
    /// E40: the bounds of threads, and the budget, cover a tick.
    Bound,
}

/// A rule that is broken, and a place where it is.
#[derive(Clone, Copy, Debug, PartialEq, Eq)]
pub struct Broken {
    pub rule: Rule,
    pub place: Place,
}

/// Why an image is not verified.
#[derive(Clone, Copy, Debug, PartialEq, Eq)]
pub enum Refusal {
    /// The lowest rule that is broken.
    Broken(Broken),
    /// E52: memory was refused.
    Memory,
}

impl From<AllocError> for Refusal {
    ghost use Rattle.verifier.specs.declared.rule.Refusal.TheVariants.{Memory};

    ghost from_gives = { λ _ e. e ≡ Memory };

    fn from(_error: AllocError) -> Refusal {
        Refusal::Memory
    }
}
