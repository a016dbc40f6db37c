//! Copies of the parts of a chart.

ghost use Rattle.std.specs.Prelude.{◌≡◌, IfOk};

use crate::region::{Effect, Transition};
use sc_values::Expr;
use sqlite_items::Items;
use std::alloc::{AllocError, Global};

impl Effect {
    /// A copy of it. Err: memory was refused.
    pub fn copied(&self, alloc: Global) -> Result<Effect, AllocError>
        ensures { IfOk result (λ copy. copy ≡ self.now) }
    {
        Ok(Effect {
            variable: self.variable,
            value: self.value.copied(alloc)?,
        })
    }
}

impl Transition {
    /// A copy of it. Err: memory was refused.
    pub fn copied(&self, alloc: Global) -> Result<Transition, AllocError>
        ensures { IfOk result (λ copy. copy ≡ self.now) }
    {
        Ok(Transition {
            kind: self.kind,
            immediate: self.immediate,
            trigger: copied_trigger(alloc, &self.trigger)?,
            effects: copied_effects(alloc, self.effects.as_slice())?,
            target: self.target,
        })
    }
}

/// A copy of a trigger. Err: memory was refused.
pub fn copied_trigger(alloc: Global, trigger: &Option<Expr>) -> Result<Option<Expr>, AllocError>
    ensures { IfOk result (λ copy. copy ≡ trigger.now) }
{
    match trigger {
        Some(condition) => Ok(Some(condition.copied(alloc)?)),
        None => Ok(None),
    }
}

/// A copy of a list of effects. Err: memory was refused.
pub fn copied_effects(alloc: Global, effects: &[Effect]) -> Result<Items<Effect>, AllocError>
    ensures { IfOk result (λ copy. copy ≡ effects.now) }
{
    let mut copy = Vec::with_capacity(alloc, effects.len())?;
    for effect in effects {
        copy.push(effect.copied(alloc)?)?;
    }
    Ok(Items::from_vec(copy))
}

/// A copy of a list of transitions. Err: memory was refused.
pub fn copied_transitions(
    alloc: Global,
    transitions: &[Transition],
) -> Result<Items<Transition>, AllocError>
    ensures { IfOk result (λ copy. copy ≡ transitions.now) }
{
    let mut copy = Vec::with_capacity(alloc, transitions.len())?;
    for transition in transitions {
        copy.push(transition.copied(alloc)?)?;
    }
    Ok(Items::from_vec(copy))
}
