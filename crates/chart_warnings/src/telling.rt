//! The warnings of a chart.

ghost use Rattle.std.specs.Prelude.{◌≡◌, ◌<◌, IfOk, OnOk, length};
ghost use Rattle.chart_warnings.specs.Warnings.{count, led_to, told_regions, told_state, told_states, warnings_of};
ghost use Rattle.chart_warnings.specs.Inside.Marks.{Tells};

use crate::states::{led_to, warn_of_state};
use crate::transitions::StateContext;
use crate::variables::warn_of_variables;
use crate::warning::Warning;
use core_charts::{Chart, DEPTH_LIMIT, Region, State};
use sc_graph::Variable;
use sqlite_items::Items;
use std::alloc::{AllocError, Global};

/// What was met so far: how many states, and what is warned of.
#[derive(Drop)]
pub struct Told {
    states: usize,
    warnings: Items<Warning>,
}

/// The warnings of a chart, in the order of the text. Err: memory was refused.
pub fn warnings_of(alloc: Global, chart: &Chart) -> Result<Items<Warning>, AllocError>
    ensures { IfOk result (λ warnings. warnings ≡ warnings_of chart.now) }
{
    let mut warnings = Items::new(alloc);
    warn_of_variables(alloc, chart.variables(), chart.regions(), &mut warnings)?;
    let mut told = Told {
        states: 0,
        warnings,
    };
    told.tell_regions(alloc, DEPTH_LIMIT, chart.variables(), chart.regions())?;
    Ok(told.warnings)
}

impl Told {
    // Tells of regions that nest this many levels deep at most.
    #[cycle(told)]
    fn tell_regions(
        &mut self,
        alloc: Global,
        levels: u8,
        variables: &[Variable],
        regions: &[Region],
    ) -> Result<(), AllocError>
        ensures { OnOk result (self.new ≡ told_regions variables.now levels regions.now self.old) }
    {
        if levels == 0 {
            return Ok(());
        }
        for region in regions {
            self.tell_states(alloc, levels - 1, variables, region.states.as_slice())?;
        }
        Ok(())
    }

    // Tells of the states of a region with this many levels inside at most.
    #[cycle(told)]
    fn tell_states(
        &mut self,
        alloc: Global,
        levels: u8,
        variables: &[Variable],
        states: &[State],
    ) -> Result<(), AllocError>
        ensures { OnOk result (self.new
            ≡ told_states (told_regions variables.now levels) variables.now states.now 0 states.now self.old) }
    {
        let led = led_to(alloc, states)?;
        for (place, state) in states.iter().enumerate() {
            self.tell_state(alloc, levels, variables, states, &led, place, state)?;
        }
        Ok(())
    }

    // Tells of the state at this place among these.
    #[cycle(told)]
    fn tell_state(
        &mut self,
        alloc: Global,
        levels: u8,
        variables: &[Variable],
        states: &[State],
        led: &[bool],
        place: usize,
        state: &State,
    ) -> Result<(), AllocError>
        requires led { Tells (led_to 0 states.now) (length states.now) led.now }
        requires place { place < length states.now }
        ensures { OnOk result (self.new
            ≡ told_state (told_regions variables.now levels) variables.now states.now place state.now self.old) }
    {
        let number = self.states;
        warn_of_state(states, led, place, number, state, &mut self.warnings)?;
        self.count()?;
        self.tell_regions(alloc, levels, variables, state.regions.as_slice())?;
        let context = StateContext {
            variables,
            states,
            state,
            number,
        };
        context.warn_of_transitions(alloc, &mut self.warnings)
    }

    // The next state has been met. Err: no memory holds a chart with so many.
    fn count(&mut self) -> Result<(), AllocError>
        ensures { OnOk result (self.new ≡ count self.old) }
    {
        match self.states.checked_add(1) {
            Some(states) => {
                self.states = states;
                Ok(())
            }
            None => Err(AllocError),
        }
    }
}
