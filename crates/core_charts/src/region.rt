//! Regions, states, transitions and effects.

ghost use Rattle.std.specs.Prelude.{◌≡◌};
ghost use Rattle.core_charts.specs.declared.region.Region.TheViews.{out-State};
ghost use Rattle.core_charts.specs.Rules.{has_regions};
ghost use Rattle.core_charts.specs.Tests.{is_strong, is_weak, is_join};

use sc_graph::VariableId;
use sc_values::{Expr, Name};
use sqlite_items::Items;

/// When a transition is tested.
#[derive(Clone, Copy, PartialEq, Eq)]
pub enum TransitionKind {
    /// Of a simple state.
    Go,
    /// Of a superstate: before anything inside it steps.
    Strong,
    /// Of a superstate: when nobody inside it can step any more in this tick.
    Weak,
    /// Of a superstate: when all its regions have ended.
    Join,
}

impl TransitionKind {
    /// Whether it is a strong abort.
    pub fn is_strong(self) -> bool
        ensures { result ≡ is_strong self }
    {
        match self {
            TransitionKind::Strong => true,
            _ => false,
        }
    }

    /// Whether it is a weak abort.
    pub fn is_weak(self) -> bool
        ensures { result ≡ is_weak self }
    {
        match self {
            TransitionKind::Weak => true,
            _ => false,
        }
    }

    /// Whether it is a termination.
    pub fn is_join(self) -> bool
        ensures { result ≡ is_join self }
    {
        match self {
            TransitionKind::Join => true,
            _ => false,
        }
    }
}

/// An assignment of a transition: the variable becomes the value of the expression.
#[derive(Drop)]
pub struct Effect {
    pub variable: VariableId,
    pub value: Expr,
}

/// A transition to a state of the same region.
#[derive(Drop)]
pub struct Transition {
    pub kind: TransitionKind,
    /// Whether it is tested in the tick of entry too.
    pub immediate: bool,
    /// The condition; none counts as true.
    pub trigger: Option<Expr>,
    /// In the order in which they are done.
    pub effects: Items<Effect>,
    /// The place of the target among the states of the region, from 0.
    pub target: u32,
}

/// A region: it is in one of its states, or has ended.
#[derive(Drop)]
#[cycle(chart)]
pub struct Region {
    pub name: Name,
    pub states: Items<State>,
}

/// A state. With regions it is a superstate, else a simple one.
#[derive(Drop)]
#[cycle(chart)]
pub struct State {
    pub name: Name,
    pub is_initial: bool,
    pub is_final: bool,
    pub regions: Items<Region>,
    /// In the order of the text.
    pub transitions: Items<Transition>,
}

impl State {
    /// Whether it is a superstate: it has regions.
    pub fn is_superstate(&self) -> bool
        ensures { result ≡ has_regions (out-State self.now).regions }
    {
        !self.regions.is_empty()
    }
}
