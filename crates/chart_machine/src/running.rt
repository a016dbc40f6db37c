//! Runs of a chart, by its meaning. It is slow and obvious: other ways to run a chart are held against it.

ghost use Rattle.std.specs.Prelude.{◌≡◌, ◌↔◌, ◌≤◌, IsTrue, IfOk, Some, length};
ghost use Rattle.sc_values.specs.Runs.{replay, IsOver};
ghost use Rattle.chart_machine.specs.Turns.{first_enabled};
ghost use Rattle.chart_machine.specs.Machine.{machine};
ghost use Rattle.chart_machine.specs.InOrder.{StepsInOrder, Stops};

use crate::standing::Configuration;
use crate::table::Table;
use std::alloc::{AllocError, Global};

/// A run: the regions that stepped, in their order, where they led, and whether nobody is enabled there.
#[derive(Drop)]
pub struct Ran {
    pub run: Vec<usize>,
    pub end: Configuration,
    pub is_over: bool,
}

impl Table {
    /// Where steps of these regions lead, one after the other. None: at some step it isn't that region's turn, or
    /// the step is undefined. Err: memory was refused.
    pub fn replay(
        &self,
        alloc: Global,
        run: &[usize],
        start: &Configuration,
    ) -> Result<Option<Configuration>, AllocError>
        ensures { IfOk result (λ end. end ≡ replay (machine self.now) run.now start.now) }
    {
        let mut c = start.copied(alloc)?;
        for region in run {
            let Some(after) = self.step(alloc, &c, *region)? else {
                return Ok(None);
            };
            c = after;
        }
        Ok(Some(c))
    }

    /// The run in which always the first of these regions steps that can, until none of them can or the budget of
    /// steps is spent. Err: memory was refused.
    pub fn run(
        &self,
        alloc: Global,
        order: &[usize],
        budget: u32,
        start: &Configuration,
    ) -> Result<Ran, AllocError>
        ensures run { IfOk result (λ ran. replay (machine self.now) ran.run.items start.now ≡ Some ran.end) }
        ensures order { IfOk result (λ ran. StepsInOrder self.now order.now ran.run.items start.now ran.end) }
        ensures budget { IfOk result (λ ran. length ran.run.items ≤ budget) }
        ensures stops { IfOk result (λ ran. Stops self.now order.now budget ran.run.items ran.end) }
        ensures over { IfOk result (λ ran. IsTrue ran.is_over ↔ IsOver (machine self.now) ran.end) }
    {
        let mut c = start.copied(alloc)?;
        let mut run = Vec::new(alloc);
        for _ in 0..budget {
            let Some(region) = self.first_enabled(alloc, order, &c)? else {
                return self.ran(alloc, run, c);
            };
            let Some(after) = self.step(alloc, &c, region)? else {
                return self.ran(alloc, run, c);
            };
            run.push(region)?;
            c = after;
        }
        self.ran(alloc, run, c)
    }

    // A run that has come to its end.
    fn ran(&self, alloc: Global, run: Vec<usize>, end: Configuration) -> Result<Ran, AllocError>
        ensures run { IfOk result (λ ran. ran.run.items ≡ run.items) }
        ensures end { IfOk result (λ ran. ran.end ≡ end) }
        ensures over { IfOk result (λ ran. IsTrue ran.is_over ↔ IsOver (machine self.now) ran.end) }
    {
        let is_over = self.is_over(alloc, &end)?;
        Ok(Ran { run, end, is_over })
    }

    // The first of these regions whose turn it is.
    fn first_enabled(
        &self,
        alloc: Global,
        order: &[usize],
        c: &Configuration,
    ) -> Result<Option<usize>, AllocError>
        ensures { IfOk result (λ first. first ≡ first_enabled self.now c.now order.now) }
    {
        for region in order {
            if self.is_enabled(alloc, c, *region)? {
                return Ok(Some(*region));
            }
        }
        Ok(None)
    }

    // Whether nobody is enabled.
    fn is_over(&self, alloc: Global, c: &Configuration) -> Result<bool, AllocError>
        ensures { IfOk result (λ over. IsTrue over ↔ IsOver (machine self.now) c.now) }
    {
        for region in 0..c.regions.len() {
            if self.is_enabled(alloc, c, region)? {
                return Ok(false);
            }
        }
        Ok(true)
    }
}
