//! The nodes of transitions: nobody rests there.

ghost use Rattle.std.specs.Prelude.{◌≡◌, ◌++◌, None, IfOk, map};
ghost use Rattle.core_charts.specs.Tests.{at_once};
ghost use Rattle.chart_lowering.specs.Lowering.{leaves_surely};
ghost use Rattle.node_states.specs.Nodes.{tests};

use core_charts::{Effect, Transition};
use sqlite_items::Items;
use std::alloc::AllocError;

/// The nodes of a transition's effects.
pub(crate) fn lay_effects(
    effects: &[Effect],
    nodes: &mut Items<Option<u32>>,
) -> Result<(), AllocError>
    ensures { IfOk result (λ _. nodes.new ≡ nodes.old ++ map (λ _. None) effects.now) }
{
    for _ in effects {
        nodes.push(None)?;
    }
    Ok(())
}

/// The nodes of transitions that are tested in their order.
pub(crate) fn lay_tests(
    transitions: &[Transition],
    nodes: &mut Items<Option<u32>>,
) -> Result<(), AllocError>
    ensures { IfOk result (λ _. nodes.new ≡ nodes.old ++ tests transitions.now) }
{
    for transition in transitions {
        if transition.trigger.is_none() {
            return lay_effects(transition.effects.as_slice(), nodes);
        }
        nodes.push(None)?;
        lay_effects(transition.effects.as_slice(), nodes)?;
    }
    Ok(())
}

/// The nodes of those that are immediate.
pub(crate) fn lay_immediate_tests(
    transitions: &[Transition],
    nodes: &mut Items<Option<u32>>,
) -> Result<(), AllocError>
    ensures { IfOk result (λ _. nodes.new ≡ nodes.old ++ tests (at_once transitions.now)) }
{
    for transition in transitions {
        if transition.immediate {
            if transition.trigger.is_none() {
                return lay_effects(transition.effects.as_slice(), nodes);
            }
            nodes.push(None)?;
            lay_effects(transition.effects.as_slice(), nodes)?;
        }
    }
    Ok(())
}

/// Whether one of those that are immediate has no trigger.
pub(crate) fn leave_surely(transitions: &[Transition]) -> bool
    ensures { result ≡ leaves_surely (at_once transitions.now) }
{
    for transition in transitions {
        if transition.immediate && transition.trigger.is_none() {
            return true;
        }
    }
    false
}
