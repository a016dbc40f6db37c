//! Whose turn it is.

ghost use Rattle.std.specs.Prelude.{◌≡◌, IfOk, nat_eq, not};
ghost use Rattle.std.specs.List.{list_all, list_any};
ghost use Rattle.chart_machine.specs.Table.{state_at, region_at};
ghost use Rattle.chart_machine.specs.Turns.{standing_of, has_ended, may_close, has_work, guards, is_guarded, inside};
ghost use Rattle.chart_machine.specs.Turns.{inside_is_done, is_enabled};

use crate::standing::{Configuration, Standing};
use crate::table::Table;
use core_charts::Transition;
use sqlite_items::Items;
use std::alloc::{AllocError, Global};

impl Configuration {
    fn has_ended(&self, region: usize) -> bool
        ensures { result ≡ has_ended (standing_of self.now region) }
    {
        match self.regions.get(region) {
            Some(Standing::Ended) => true,
            _ => false,
        }
    }

    fn have_ended(&self, regions: &[usize]) -> bool
        ensures { result ≡ list_all (λ r. has_ended (standing_of self.now r)) regions.now }
    {
        for region in regions {
            if !self.has_ended(*region) {
                return false;
            }
        }
        true
    }

    // Whether a region stands in a superstate of which strong aborts still have to be tested.
    fn guards(&self, region: usize) -> bool
        ensures { result ≡ guards (standing_of self.now region) }
    {
        match self.regions.get(region) {
            Some(Standing::Entering { state: _, tests: _ }) => true,
            Some(Standing::Guarding { state: _, tests: _ }) => true,
            _ => false,
        }
    }
}

impl Table {
    // The region that holds a state; 0 for a number without a state.
    pub(crate) fn holder(&self, state: usize) -> usize
        ensures { result ≡ (state_at self.now state).holder }
    {
        match self.states.get(state) {
            Some(row) => row.holder,
            None => 0,
        }
    }

    // Whether weak aborts or a termination are to be tested, once nobody inside can step.
    fn may_close(&self, c: &Configuration, state: usize, tests: &[Transition]) -> bool
        ensures { result ≡ may_close self.now c.now state tests.now }
    {
        match tests.first() {
            Some(test) if test.kind.is_join() => match self.states.get(state) {
                Some(row) => c.have_ended(row.regions.as_slice()),
                None => true,
            },
            Some(_) => true,
            None => false,
        }
    }

    // Whether there is a test or an effect left for this tick.
    fn has_work(&self, c: &Configuration, standing: &Standing) -> bool
        ensures { result ≡ has_work self.now c.now standing.now }
    {
        match standing {
            Standing::Outside | Standing::Ended => false,
            Standing::Trying { state: _, tests } => !tests.is_empty(),
            Standing::Within { state, tests } => self.may_close(c, *state, tests.as_slice()),
            Standing::Entering { state: _, tests: _ } | Standing::Guarding { state: _, tests: _ } =>
                true,
            Standing::Acting {
                state: _,
                effects: _,
                target: _,
            } => true,
        }
    }

    fn region_has_work(&self, c: &Configuration, region: usize) -> bool
        ensures { result ≡ has_work self.now c.now (standing_of c.now region) }
    {
        match c.regions.get(region) {
            Some(standing) => self.has_work(c, standing),
            None => false,
        }
    }

    // Whether one of these superstates has strong aborts to test.
    fn is_guarded(&self, c: &Configuration, around: &[usize]) -> bool
        ensures { result ≡ is_guarded self.now c.now around.now }
    {
        for state in around {
            if c.guards(self.holder(*state)) {
                return true;
            }
        }
        false
    }

    fn region_is_guarded(&self, c: &Configuration, region: usize) -> bool
        ensures { result ≡ is_guarded self.now c.now (region_at self.now region).around }
    {
        if region == 0 {
            return false;
        }
        match self.regions.get(region - 1) {
            Some(row) => self.is_guarded(c, row.around.as_slice()),
            None => false,
        }
    }

    // Whether a region is inside a superstate, however deep.
    fn is_inside(&self, region: usize, state: usize) -> bool
        ensures { result ≡ list_any (nat_eq state) (region_at self.now region).around }
    {
        if region == 0 {
            return false;
        }
        match self.regions.get(region - 1) {
            Some(row) => is_among(row.around.as_slice(), state),
            None => false,
        }
    }

    // The regions inside a superstate, however deep.
    pub(crate) fn inside(&self, alloc: Global, state: usize) -> Result<Items<usize>, AllocError>
        ensures { IfOk result (λ regions. regions ≡ inside self.now state) }
    {
        let mut found = Items::new(alloc);
        let rows = self.regions.as_slice();
        for (at, _row) in rows.iter().enumerate() {
            if self.is_inside(at + 1, state) {
                found.push(at + 1)?;
            }
        }
        Ok(found)
    }

    fn inside_is_done(
        &self,
        alloc: Global,
        c: &Configuration,
        standing: &Standing,
    ) -> Result<bool, AllocError>
        ensures { IfOk result (λ done. done ≡ inside_is_done self.now c.now standing.now) }
    {
        match standing {
            Standing::Within { state, tests: _ } => {
                let regions = self.inside(alloc, *state)?;
                Ok(self.are_done(c, regions.as_slice()))
            }
            _ => Ok(true),
        }
    }

    fn are_done(&self, c: &Configuration, regions: &[usize]) -> bool
        ensures { result ≡ list_all (λ r. not (has_work self.now c.now (standing_of c.now r))) regions.now }
    {
        for region in regions {
            if self.region_has_work(c, *region) {
                return false;
            }
        }
        true
    }

    /// Whether it is a region's turn. Err: memory was refused.
    pub fn is_enabled(
        &self,
        alloc: Global,
        c: &Configuration,
        region: usize,
    ) -> Result<bool, AllocError>
        ensures { IfOk result (λ yes. yes ≡ is_enabled self.now c.now region) }
    {
        let Some(standing) = c.regions.get(region) else {
            return Ok(false);
        };
        let done = self.inside_is_done(alloc, c, standing)?;
        Ok(self.has_work(c, standing) && !self.region_is_guarded(c, region) && done)
    }
}

fn is_among(states: &[usize], state: usize) -> bool
    ensures { result ≡ list_any (nat_eq state) states.now }
{
    states.iter().any(|other| state == *other)
}
