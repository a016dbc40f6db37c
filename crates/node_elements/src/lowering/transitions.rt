//! The origins of the points of transitions.

ghost use Rattle.std.specs.Prelude.{◌≡◌, ◌++◌, [], IfOk, if◌then◌else◌};
ghost use Rattle.node_elements.specs.LoweringOrigins.{Origins, is_tested, taken, tested, transitions};

use core_charts::{Element, ElementNumbers, Transition, put_effects};
use sqlite_items::Items;
use std::alloc::AllocError;

/// Puts those of what a transition does where it is taken behind the others: its effects, and the goto to its target.
pub(crate) fn put_taken(
    transition: &Transition,
    at: ElementNumbers,
    origins: &mut Items<Element>,
) -> Result<(), AllocError>
    ensures { IfOk result (λ _. origins.new ≡ origins.old ++ taken transition.now at) }
{
    put_effects(transition.effects.as_slice(), at.effect, origins)?;
    origins.push(Element::Transition(at.transition))
}

// Puts those of a transition behind the others: the answer is whether anything follows it.
fn put_tested(
    transition: &Transition,
    at: ElementNumbers,
    origins: &mut Items<Element>,
) -> Result<bool, AllocError>
    ensures { IfOk result (λ goes_on. (rest : Origins) → origins.old
        ++ tested transition.now.trigger at.transition (taken transition.now at) rest
        ≡ origins.new ++ (if goes_on then rest else [])) }
{
    let is_tested = transition.trigger.is_some();
    if is_tested {
        origins.push(Element::Transition(at.transition))?;
    }
    put_taken(transition, at, origins)?;
    Ok(is_tested)
}

// Whether a transition is tested: on the surface of a state those that are immediate are.
fn is_tested(surface: bool, transition: &Transition) -> bool
    ensures { result ≡ is_tested surface transition.now }
{
    !surface || transition.immediate
}

/// Puts those of the transitions of a state behind the others, on its surface or behind its pause: the answer is
/// whether anything follows them.
pub(crate) fn put_transitions(
    surface: bool,
    own: &[Transition],
    at: ElementNumbers,
    origins: &mut Items<Element>,
) -> Result<bool, AllocError>
    ensures { IfOk result (λ goes_on. (rest : Origins) → origins.old ++ transitions surface own.now at rest
        ≡ origins.new ++ (if goes_on then rest else [])) }
{
    let mut here = at;
    for transition in own {
        if is_tested(surface, transition) && !put_tested(transition, here, origins)? {
            return Ok(false);
        }
        here = here.behind_transition(transition)?;
    }
    Ok(true)
}
