//! The nodes of states, without what is inside them.

ghost use Rattle.std.specs.Prelude.{◌≡◌, ◌++◌, IfOk};
ghost use Rattle.core_charts.specs.Tests.{terminations};
ghost use Rattle.node_states.specs.Nodes.{behind, piece_of_state, rests, simple, superstate};

use crate::transitions::{lay_effects, lay_immediate_tests, lay_tests, leave_surely};
use core_charts::{State, Transition};
use sqlite_items::Items;
use std::alloc::AllocError;

/// The nodes of a state in its region's thread.
pub(crate) fn lay_state(
    state: &State,
    number: u32,
    nodes: &mut Items<Option<u32>>,
) -> Result<(), AllocError>
    ensures { IfOk result (λ _. nodes.new ≡ nodes.old ++ (piece_of_state state.now).own number) }
{
    let transitions = state.transitions.as_slice();
    if state.is_final {
        return Ok(());
    }
    if state.is_superstate() {
        return lay_superstate(transitions, number, nodes);
    }
    lay_simple(transitions, number, nodes)
}

// Surface and depth of a pause, or fork and join.
fn lay_rests(number: u32, nodes: &mut Items<Option<u32>>) -> Result<(), AllocError>
    ensures { IfOk result (λ _. nodes.new ≡ nodes.old ++ rests number) }
{
    nodes.push(None)?;
    nodes.push(Some(number))
}

// A simple state: its immediate transitions, and its depth where its surface is not surely left.
fn lay_simple(
    transitions: &[Transition],
    number: u32,
    nodes: &mut Items<Option<u32>>,
) -> Result<(), AllocError>
    ensures { IfOk result (λ _. nodes.new ≡ nodes.old ++ simple transitions.now number) }
{
    lay_immediate_tests(transitions, nodes)?;
    if leave_surely(transitions) {
        return Ok(());
    }
    lay_rests(number, nodes)?;
    lay_tests(transitions, nodes)
}

// A superstate: its fork, and what is behind it.
fn lay_superstate(
    transitions: &[Transition],
    number: u32,
    nodes: &mut Items<Option<u32>>,
) -> Result<(), AllocError>
    ensures { IfOk result (λ _. nodes.new ≡ nodes.old ++ superstate transitions.now number) }
{
    lay_rests(number, nodes)?;
    lay_behind(transitions, number, nodes)
}

// Behind the fork: the effects of the termination; without one a pause.
fn lay_behind(
    transitions: &[Transition],
    number: u32,
    nodes: &mut Items<Option<u32>>,
) -> Result<(), AllocError>
    ensures { IfOk result (λ _. nodes.new ≡ nodes.old ++ behind (terminations transitions.now) number) }
{
    for transition in transitions {
        if transition.kind.is_join() {
            return lay_effects(transition.effects.as_slice(), nodes);
        }
    }
    lay_rests(number, nodes)
}
