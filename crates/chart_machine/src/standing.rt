//! Where a region stands.

use core_charts::{Effect, Transition};
use sc_values::Value;
use sqlite_items::Items;

/// Where a region stands. The tests that are still to be made in this tick are kept beside the state.
#[derive(Drop)]
pub enum Standing {
    /// Not entered.
    Outside,
    /// In a final state.
    Ended,
    /// In a simple state, with these tests to make; with none it waits.
    Trying {
        state: usize,
        tests: Items<Transition>,
    },
    /// Come to a superstate: strong aborts are tested before its regions are entered.
    Entering {
        state: usize,
        tests: Items<Transition>,
    },
    /// In a superstate of which strong aborts are tested before anything inside it steps.
    Guarding {
        state: usize,
        tests: Items<Transition>,
    },
    /// In a superstate whose inside has the turn; when nobody inside can step, these are tested.
    Within {
        state: usize,
        tests: Items<Transition>,
    },
    /// On a transition out of a state, with these effects to do before its target, the state of this place in
    /// the region, is entered.
    Acting {
        state: usize,
        effects: Items<Effect>,
        target: u32,
    },
}

/// A region comes to stand there.
#[derive(Drop)]
pub struct Move {
    pub region: usize,
    pub standing: Standing,
}

/// What stands between two steps: the variables, and where each region stands. The chart itself, number 0,
/// is no region, and stands outside.
#[derive(Drop)]
pub struct Configuration {
    pub variables: Items<Value>,
    pub regions: Items<Standing>,
}
