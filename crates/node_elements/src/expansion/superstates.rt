//! The origins of what a superstate becomes, in front of what is inside it and behind that.

ghost use Rattle.std.specs.Prelude.{◌≡◌, ◌||◌, [], IfOk, if◌then◌else◌};
ghost use Rattle.core_charts.specs.Aborts.{has_aborts};
ghost use Rattle.core_charts.specs.declared.elements.element.Element.TheVariants as element;
ghost use Rattle.abort_expansion.specs.Flags.{counts};
ghost use Rattle.node_elements.specs.ExpansionOrigins.{around_of, beside, continuation, first_abort, monitor, nothing};
ghost use Rattle.node_elements.specs.ExpansionOrigins.{preparation, state, transition, weak_around};

use crate::expansion::around::{Around, counts, weak_around};
use crate::expansion::origins::Origins;
use crate::expansion::states::{put_continuation, put_monitor, put_preparation};
use crate::expansion::transitions::Ends;
use core_charts::{Element, ElementNumbers, Transition, has_aborts};
use std::alloc::AllocError;

/// Puts those of a superstate that is split behind the others, up to its fork.
pub(crate) fn put_opening(
    own: &[Transition],
    around: &[Around],
    to: &Ends,
    at: ElementNumbers,
    origins: &mut Origins,
) -> Result<(), AllocError>
    ensures { IfOk result (λ _. origins.new ≡ beside origins.old
        (beside (if has_aborts own.now || counts (weak_around around.now) own.now
        then preparation own.now around.now to.now at else nothing)
        (beside (state (element.State at.state)) (transition (element.State at.state) [])))) }
{
    if has_aborts(own) || counts(weak_around(around), own) {
        put_preparation(own, around, to, at, origins)?;
    }
    origins.put_state(Element::State(at.state))?;
    origins.put_transition(Element::State(at.state))
}

/// Puts those of a superstate that is split behind the others, behind what is inside it.
pub(crate) fn put_ending(
    own: &[Transition],
    around: &[Around],
    to: &Ends,
    at: ElementNumbers,
    origins: &mut Origins,
) -> Result<(), AllocError>
    ensures { IfOk result (λ _. origins.new ≡ beside origins.old
        (beside (monitor (first_abort (around_of own.now at.transition)) own.now around.now at)
        (continuation own.now around.now to.now at))) }
{
    let first = Around::of(own, at.transition)?.first_abort();
    put_monitor(first, own, around, at, origins)?;
    put_continuation(own, around, to, at, origins)
}
