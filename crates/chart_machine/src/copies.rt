//! Copies of what stands between two steps.

ghost use Rattle.std.specs.Prelude.{◌≡◌, ◌++◌, IfOk, OnOk};

use crate::standing::{Configuration, Move, Standing};
use core_charts::{copied_effects, copied_transitions};
use sqlite_items::Items;
use std::alloc::{AllocError, Global};

impl Standing {
    /// A copy of it. Err: memory was refused.
    pub fn copied(&self, alloc: Global) -> Result<Standing, AllocError>
        ensures { IfOk result (λ copy. copy ≡ self.now) }
    {
        match self {
            Standing::Outside => Ok(Standing::Outside),
            Standing::Ended => Ok(Standing::Ended),
            Standing::Trying { state, tests } => Ok(Standing::Trying {
                state: *state,
                tests: copied_transitions(alloc, tests.as_slice())?,
            }),
            Standing::Entering { state, tests } => Ok(Standing::Entering {
                state: *state,
                tests: copied_transitions(alloc, tests.as_slice())?,
            }),
            Standing::Guarding { state, tests } => Ok(Standing::Guarding {
                state: *state,
                tests: copied_transitions(alloc, tests.as_slice())?,
            }),
            Standing::Within { state, tests } => Ok(Standing::Within {
                state: *state,
                tests: copied_transitions(alloc, tests.as_slice())?,
            }),
            Standing::Acting {
                state,
                effects,
                target,
            } => Ok(Standing::Acting {
                state: *state,
                effects: copied_effects(alloc, effects.as_slice())?,
                target: *target,
            }),
        }
    }
}

impl Move {
    /// A copy of it. Err: memory was refused.
    pub fn copied(&self, alloc: Global) -> Result<Move, AllocError>
        ensures { IfOk result (λ copy. copy ≡ self.now) }
    {
        Ok(Move {
            region: self.region,
            standing: self.standing.copied(alloc)?,
        })
    }
}

// Puts copies of moves behind others.
pub(crate) fn put_moves(
    alloc: Global,
    moves: &[Move],
    made: &mut Items<Move>,
) -> Result<(), AllocError>
    ensures { OnOk result (made.new ≡ made.old ++ moves.now) }
{
    for one in moves {
        made.push(one.copied(alloc)?)?;
    }
    Ok(())
}

pub(crate) fn copied_standings(
    alloc: Global,
    standings: &[Standing],
) -> Result<Items<Standing>, AllocError>
    ensures { IfOk result (λ copy. copy ≡ standings.now) }
{
    let mut copy = Items::new(alloc);
    for standing in standings {
        copy.push(standing.copied(alloc)?)?;
    }
    Ok(copy)
}

impl Configuration {
    /// A copy of it. Err: memory was refused.
    pub fn copied(&self, alloc: Global) -> Result<Configuration, AllocError>
        ensures { IfOk result (λ copy. copy ≡ self.now) }
    {
        Ok(Configuration {
            variables: Items::from_slice(alloc, self.variables.as_slice())?,
            regions: copied_standings(alloc, self.regions.as_slice())?,
        })
    }
}
