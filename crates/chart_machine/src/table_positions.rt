//! Where a state or a region stands in the table of a chart.

ghost use Rattle.std.specs.Prelude.{◌≡◌, IfOk, OnOk};
ghost use Rattle.chart_machine.specs.Table.{with_region, past_states, behind, within, inside_region, subtree_of_region};
ghost use Rattle.chart_machine.specs.Table.{subtree_of_state};

use crate::numbering::{past_region, past_states, past_states_of_region};
use crate::table::TablePosition;
use core_charts::{Region, State};
use sqlite_items::Items;
use std::alloc::{AllocError, Global};

impl TablePosition {
    // What is inside a superstate of this position.
    pub(crate) fn within(&self, alloc: Global) -> Result<TablePosition, AllocError>
        ensures { IfOk result (λ at. at ≡ within self.now) }
    {
        let Some(state) = self.state.checked_add(1) else {
            return Err(AllocError);
        };
        let mut around = Items::new(alloc);
        around.push(self.state)?;
        around.append(Items::from_slice(alloc, self.around.as_slice())?)?;
        Ok(TablePosition {
            state,
            region: self.region,
            holder: self.holder,
            around,
        })
    }

    // Inside the region that comes next.
    pub(crate) fn inside_region(&self, alloc: Global) -> Result<TablePosition, AllocError>
        ensures { IfOk result (λ at. at ≡ inside_region self.now) }
    {
        let Some(region) = self.region.checked_add(1) else {
            return Err(AllocError);
        };
        Ok(TablePosition {
            state: self.state,
            region,
            holder: self.region,
            around: Items::from_slice(alloc, self.around.as_slice())?,
        })
    }

    // The same with this number for the next region.
    pub(crate) fn with_region(
        &self,
        alloc: Global,
        region: usize,
    ) -> Result<TablePosition, AllocError>
        ensures { IfOk result (λ at. at ≡ with_region region self.now) }
    {
        Ok(TablePosition {
            state: self.state,
            region,
            holder: self.holder,
            around: Items::from_slice(alloc, self.around.as_slice())?,
        })
    }

    // Goes on to where the next state of the region stands.
    pub(crate) fn pass(&mut self, state: &State) -> Result<(), AllocError>
        ensures { OnOk result (self.new ≡ past_states (subtree_of_state state.now).states self.old) }
    {
        self.state = past_states(state, self.state)?;
        Ok(())
    }

    // Goes on to where the next region of the superstate stands.
    pub(crate) fn pass_region(&mut self, region: &Region) -> Result<(), AllocError>
        ensures { OnOk result (self.new ≡ behind (subtree_of_region region.now) self.old) }
    {
        self.state = past_states_of_region(region, self.state)?;
        self.region = past_region(region, self.region)?;
        Ok(())
    }
}
