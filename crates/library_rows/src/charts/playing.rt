//! Ticks of the machine of a table.

use crate::answers::Answers;
use crate::charts::judging::{Judged, is_admissible, step_there};
use crate::charts::reading::{inputs, numbers};
use crate::words::{Unanswered, halves, known};
use abort_expansion::{StateMap, expand};
use chart_machine::{Configuration, Ran, Table};
use core_charts::Chart;
use std::alloc::{AllocError, Global};

// The steps of a tick, at most.
const BUDGET: u32 = 20_000;

/// A chart as it is played: its table, and, where that is of its core chart, the states for which those of that
/// stand; how many variables the chart declares; and the regions in the order in which they come to step.
#[derive(Drop)]
pub(crate) struct Played {
    table: Table,
    stands_for: Option<StateMap>,
    declared: usize,
    order: Vec<usize>,
}

impl Played {
    /// The chart itself.
    pub(crate) fn of_chart(alloc: Global, chart: &Chart) -> Result<Played, Unanswered> {
        let table = known(Table::of_chart(alloc, chart).ok())?;
        Ok(Played {
            table,
            stands_for: None,
            declared: chart.variables().len(),
            order: Vec::new(alloc),
        })
    }

    /// Its core chart.
    pub(crate) fn of_core_chart(alloc: Global, chart: &Chart) -> Result<Played, Unanswered> {
        let (core, map) = known(expand(alloc, chart).ok())?;
        let table = known(Table::of_core_chart(alloc, &core).ok())?;
        Ok(Played {
            table,
            stands_for: Some(map),
            declared: chart.variables().len(),
            order: Vec::new(alloc),
        })
    }

    /// Its table.
    pub(crate) fn table(&self) -> &Table {
        &self.table
    }

    /// What stands before the first tick.
    pub(crate) fn initial(&self, alloc: Global) -> Result<Configuration, AllocError> {
        self.table.initial(alloc)
    }

    /// From here on these regions come first, in this order.
    pub(crate) fn first(&mut self, alloc: Global, row: &str) -> Result<(), Unanswered> {
        self.order = numbers(alloc, row)?;
        Ok(())
    }

    // The regions in the order in which they come to step: those that were asked for, then all.
    fn ordered(&self, alloc: Global) -> Result<Vec<usize>, AllocError> {
        let mut order = Vec::new(alloc);
        for region in &self.order {
            order.push(*region)?;
        }
        for region in 0..self.table.regions.len() {
            order.push(region + 1)?;
        }
        Ok(order)
    }

    // The state for which an active one stands, if there is one.
    fn chart_state(&self, state: usize) -> Option<usize> {
        match &self.stands_for {
            None => Some(state),
            Some(map) => match u32::try_from(state) {
                Ok(core) => map.chart_state(core).map(|own| own as usize),
                Err(_) => None,
            },
        }
    }

    // The states of the chart that are active. Of a core chart they come in the order of its states.
    fn active(&self, alloc: Global, c: &Configuration) -> Result<Vec<usize>, AllocError> {
        let mut active = Vec::new(alloc);
        for state in 0..self.table.states.len() {
            if self.table.is_active(c, state) {
                if let Some(own) = self.chart_state(state) {
                    active.push(own)?;
                }
            }
        }
        Ok(active)
    }

    fn tell(
        &self,
        alloc: Global,
        c: &Configuration,
        answers: &mut Answers,
    ) -> Result<(), AllocError> {
        answers.tell("; values");
        answers.first_values(c.variables.as_slice(), self.declared);
        answers.tell("; active");
        let active = self.active(alloc, c)?;
        answers.numbers(&active);
        Ok(())
    }

    // What stands at the start of a tick with these inputs.
    fn started(
        &self,
        alloc: Global,
        c: &Configuration,
        row: &str,
    ) -> Result<Configuration, Unanswered> {
        let given = inputs(alloc, row)?;
        Ok(self.table.start(alloc, &given, c)?)
    }

    // A run from here, by the order in which regions come to step.
    fn ran_from(&self, alloc: Global, start: &Configuration) -> Result<Ran, AllocError> {
        let order = self.ordered(alloc)?;
        self.table.run(alloc, &order, BUDGET, start)
    }

    // A run from the start of a tick with these inputs.
    fn ran(&self, alloc: Global, c: &Configuration, row: &str) -> Result<Ran, Unanswered> {
        let start = self.started(alloc, c, row)?;
        Ok(self.ran_from(alloc, &start)?)
    }

    fn tell_ran(&self, alloc: Global, ran: &Ran, answers: &mut Answers) -> Result<(), AllocError> {
        answers.tell(if ran.is_over {
            "steps"
        } else {
            "stopped, steps"
        });
        answers.numbers(&ran.run);
        self.tell(alloc, &ran.end, answers)
    }

    /// A tick with these inputs: the steps of regions, and what stands behind them.
    pub(crate) fn tick(
        &self,
        alloc: Global,
        c: &mut Configuration,
        row: &str,
        answers: &mut Answers,
    ) -> Result<(), Unanswered> {
        let ran = self.ran(alloc, c, row)?;
        let told = self.tell_ran(alloc, &ran, answers);
        *c = ran.end;
        Ok(told?)
    }

    // Whether nobody is enabled.
    fn is_over(&self, alloc: Global, c: &Configuration) -> Result<bool, AllocError> {
        let ran = self.table.run(alloc, &[], 0, c)?;
        Ok(ran.is_over)
    }

    // Where these regions lead one after the other. None: at some step it is not that region's turn.
    fn led_from(
        &self,
        alloc: Global,
        start: &Configuration,
        regions: &str,
    ) -> Result<Option<Configuration>, Unanswered> {
        let run = numbers(alloc, regions)?;
        Ok(self.table.replay(alloc, &run, start)?)
    }

    // Where these regions, given as `INPUTS: REGIONS`, lead one after the other from the start of a tick. None: at
    // some step it is not that region's turn.
    fn led(
        &self,
        alloc: Global,
        c: &Configuration,
        row: &str,
    ) -> Result<Option<Configuration>, Unanswered> {
        let (given, regions) = halves(row, ':');
        let start = self.started(alloc, c, given)?;
        self.led_from(alloc, &start, regions)
    }

    fn tell_led(
        &self,
        alloc: Global,
        end: &Configuration,
        answers: &mut Answers,
    ) -> Result<(), AllocError> {
        answers.tell(if self.is_over(alloc, end)? {
            "whole run"
        } else {
            "run"
        });
        self.tell(alloc, end, answers)
    }

    /// Where these regions, given as `INPUTS: REGIONS`, lead one after the other from the start of a tick, if at each
    /// step it is that region's turn.
    pub(crate) fn run(
        &self,
        alloc: Global,
        c: &Configuration,
        row: &str,
        answers: &mut Answers,
    ) -> Result<(), Unanswered> {
        match self.led(alloc, c, row)? {
            Some(end) => Ok(self.tell_led(alloc, &end, answers)?),
            None => {
                answers.tell("no run");
                Ok(())
            }
        }
    }

    /// The same, and it goes on from there.
    pub(crate) fn play(
        &self,
        alloc: Global,
        c: &mut Configuration,
        row: &str,
        answers: &mut Answers,
    ) -> Result<(), Unanswered> {
        match self.led(alloc, c, row)? {
            Some(end) => {
                *c = end;
                Ok(self.tell_led(alloc, c, answers)?)
            }
            None => {
                answers.tell("no run");
                Ok(())
            }
        }
    }

    // Takes a step of a region, behind these. False: it is not that region's turn.
    fn step(
        &self,
        alloc: Global,
        c: &mut Configuration,
        region: usize,
        steps: &mut Vec<Judged>,
    ) -> Result<bool, Unanswered> {
        match self.table.step(alloc, c, region)? {
            Some(after) => {
                let step = step_there(c, region);
                *c = after;
                steps.push(known(step)?)?;
                Ok(true)
            }
            None => Ok(false),
        }
    }

    // Takes steps of these regions one after the other. False: at some step it is not that region's turn.
    fn take_all(
        &self,
        alloc: Global,
        c: &mut Configuration,
        regions: &[usize],
        steps: &mut Vec<Judged>,
    ) -> Result<bool, Unanswered> {
        for region in regions {
            if !self.step(alloc, c, *region, steps)? {
                return Ok(false);
            }
        }
        Ok(true)
    }

    // Whether these regions take admissible steps one after the other from here.
    fn judged_from(
        &self,
        alloc: Global,
        c: &mut Configuration,
        regions: &[usize],
    ) -> Result<&'static str, Unanswered> {
        let mut steps = Vec::new(alloc);
        if !self.take_all(alloc, c, regions, &mut steps)? {
            return Ok("no run");
        }
        Ok(if is_admissible(alloc, &self.table, &steps)? {
            "admissible"
        } else {
            "not admissible"
        })
    }

    /// Whether these regions, given as `INPUTS: REGIONS`, take admissible steps one after the other from the start of a
    /// tick.
    pub(crate) fn judged(
        &self,
        alloc: Global,
        c: &Configuration,
        row: &str,
        answers: &mut Answers,
    ) -> Result<(), Unanswered> {
        let (given, regions) = halves(row, ':');
        let regions = numbers(alloc, regions)?;
        let mut start = self.started(alloc, c, given)?;
        answers.tell(self.judged_from(alloc, &mut start, &regions)?);
        Ok(())
    }
}
