//! Extended charts.

use core_charts::{Effect, Transition};
use sc_graph::{Variable, VariableId};
use sc_values::{Expr, Name, Value};
use sqlite_items::Items;

/// The number by which triggers name the ticks since their state was entered. No variable has it.
pub const ELAPSED: u16 = 65535;

/// A variable, and what it holds before the first tick; none counts as `false` or 0.
#[derive(Clone, Copy)]
pub struct Declared {
    pub variable: Variable,
    pub initial: Option<Value>,
}

/// A name for a value.
#[derive(Clone, Copy)]
pub struct Constant {
    pub name: Name,
    pub value: Value,
}

/// An extended chart. Expressions name its variables by their numbers from 0; behind these what variables were at the
/// end of the tick before; and behind these its constants. In triggers the last numbers below `ELAPSED` name counts: in
/// how many ticks each condition was true, behind the one in which the state was entered and before this one.
#[derive(Drop)]
pub struct ExtendedChart {
    pub name: Name,
    pub variables: Items<Declared>,
    /// The variables that are signals: false in each tick until they are emitted.
    pub signals: Items<VariableId>,
    /// The variables of which is asked what they were.
    pub befores: Items<VariableId>,
    pub constants: Items<Constant>,
    /// The conditions of its counts.
    pub counts: Items<Expr>,
    pub regions: Items<ExtendedRegion>,
}

/// What is done in each tick in which a state goes on, and where it is immediate also in the tick of its entry: where
/// the trigger is true, if there is one.
#[derive(Drop)]
pub struct During {
    pub immediate: bool,
    pub trigger: Option<Expr>,
    pub effects: Items<Effect>,
}

/// A region: it is in one of its states, or has ended.
#[derive(Drop)]
#[cycle(extended)]
pub struct ExtendedRegion {
    pub name: Name,
    pub states: Items<ExtendedState>,
}

/// A state. With regions it is a superstate, else a simple one.
#[derive(Drop)]
#[cycle(extended)]
pub struct ExtendedState {
    pub name: Name,
    /// Whether it is the author's, with all its transitions; others are made by reductions.
    pub is_own: bool,
    pub is_initial: bool,
    pub is_final: bool,
    /// What is done each time that the state is entered, before it tests anything or enters its regions.
    pub entry: Items<Effect>,
    /// What is done each time that the state is left, behind what is active in it and before the effects of the
    /// transition.
    pub exit: Items<Effect>,
    /// What is done while the state goes on, before it is left by other than strong aborts.
    pub during: Items<During>,
    pub regions: Items<ExtendedRegion>,
    /// In the order of the text. Their targets are places among the states of the region, from 0; and behind these the
    /// same places once more, for transitions by history.
    pub transitions: Items<Transition>,
}
