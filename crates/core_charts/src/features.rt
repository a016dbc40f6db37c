//! Which charts are meant, and their limits.

ghost use Rattle.std.specs.Prelude.{◌≡◌};
ghost use Rattle.core_charts.specs.Rules.{language, region_limit, state_limit, transition_limit, effect_limit, allows};

use crate::region::TransitionKind;
use sc_graph::CHILD_LIMIT;
use sc_text::Language;

/// How deep regions nest; a region of the chart is 1 deep.
pub const DEPTH_LIMIT: u8 = 32;

/// The regions of a superstate that texts spell.
pub const REGION_LIMIT: usize = CHILD_LIMIT - 1;

/// The states of a region that texts spell.
pub const STATE_LIMIT: usize = 256;

/// The transitions of a state that texts spell.
pub const TRANSITION_LIMIT: usize = 64;

/// The effects of a transition that texts spell.
pub const EFFECT_LIMIT: usize = 16;

/// What charts may have.
#[derive(Clone, Copy, PartialEq, Eq)]
pub enum Features {
    /// What texts spell: with strong and weak aborts.
    Extended,
    /// What the expansion of aborts leaves: no aborts, and names of its own that begin with `_`.
    Core,
}

impl Features {
    /// The language whose names they take.
    pub fn language(self) -> Language
        ensures { result ≡ language self }
    {
        match self {
            Features::Extended => Language::Chart,
            Features::Core => Language::Scl,
        }
    }

    /// The regions of a superstate. The chart counts as one.
    pub fn region_limit(self) -> usize
        ensures { result ≡ region_limit self }
    {
        match self {
            Features::Extended => REGION_LIMIT,
            Features::Core => CHILD_LIMIT,
        }
    }

    /// The states of a region, if there is a limit.
    pub fn state_limit(self) -> Option<usize>
        ensures { result ≡ state_limit self }
    {
        match self {
            Features::Extended => Some(STATE_LIMIT),
            Features::Core => None,
        }
    }

    /// The transitions of a state, if there is a limit.
    pub fn transition_limit(self) -> Option<usize>
        ensures { result ≡ transition_limit self }
    {
        match self {
            Features::Extended => Some(TRANSITION_LIMIT),
            Features::Core => None,
        }
    }

    /// The effects of a transition, if there is a limit.
    pub fn effect_limit(self) -> Option<usize>
        ensures { result ≡ effect_limit self }
    {
        match self {
            Features::Extended => Some(EFFECT_LIMIT),
            Features::Core => None,
        }
    }

    /// Whether transitions may be of this kind.
    pub fn allows(self, kind: TransitionKind) -> bool
        ensures { result ≡ allows self kind }
    {
        match (self, kind) {
            (Features::Core, TransitionKind::Strong | TransitionKind::Weak) => false,
            _ => true,
        }
    }
}
