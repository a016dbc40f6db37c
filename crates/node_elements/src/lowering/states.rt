//! The origins of the points of states, without what is inside them.

ghost use Rattle.std.specs.Prelude.{◌≡◌, ◌++◌, IfOk};
ghost use Rattle.node_elements.specs.LoweringOrigins.{behind_fork, depth, final, simple};

use crate::lowering::transitions::{put_taken, put_transitions};
use core_charts::{Element, ElementNumbers, Transition};
use sqlite_items::Items;
use std::alloc::AllocError;

/// Puts two points of a state behind the others.
pub(crate) fn put_final(at: ElementNumbers, origins: &mut Items<Element>) -> Result<(), AllocError>
    ensures { IfOk result (λ _. origins.new ≡ origins.old ++ final at) }
{
    origins.push(Element::State(at.state))?;
    origins.push(Element::State(at.state))
}

/// Puts those of a simple state behind the others: its label, its immediate transitions, and its depth.
pub(crate) fn put_simple(
    own: &[Transition],
    at: ElementNumbers,
    origins: &mut Items<Element>,
) -> Result<(), AllocError>
    ensures { IfOk result (λ _. origins.new ≡ origins.old ++ simple own.now at) }
{
    origins.push(Element::State(at.state))?;
    if put_transitions(true, own, at, origins)? {
        put_depth(own, at, origins)
    } else {
        Ok(())
    }
}

// The second label, the pause, all transitions, and the goto back.
fn put_depth(
    own: &[Transition],
    at: ElementNumbers,
    origins: &mut Items<Element>,
) -> Result<(), AllocError>
    ensures { IfOk result (λ _. origins.new ≡ origins.old ++ depth own.now at) }
{
    origins.push(Element::State(at.state))?;
    origins.push(Element::State(at.state))?;
    if put_transitions(false, own, at, origins)? {
        origins.push(Element::State(at.state))
    } else {
        Ok(())
    }
}

/// Puts those behind the fork of a superstate behind the others.
pub(crate) fn put_behind_fork(
    own: &[Transition],
    at: ElementNumbers,
    origins: &mut Items<Element>,
) -> Result<(), AllocError>
    ensures { IfOk result (λ _. origins.new ≡ origins.old ++ behind_fork own.now at) }
{
    let mut here = at;
    for transition in own {
        if transition.kind.is_join() {
            return put_taken(transition, here, origins);
        }
        here = here.behind_transition(transition)?;
    }
    put_depth(&[], here, origins)
}
