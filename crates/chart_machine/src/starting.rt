//! The start of a tick, and what is active at its end.

ghost use Rattle.std.specs.Prelude.{◌≡◌, ◌∷◌, IfOk, map};
ghost use Rattle.std.specs.List.{list_all};
ghost use Rattle.sc_values.specs.Operator.{initial_value};
ghost use Rattle.sc_graph.specs.Tick.{given, value_at_start, values_at_start};
ghost use Rattle.chart_machine.specs.declared.standing.Standing.TheVariants as at;
ghost use Rattle.core_charts.specs.Tests.{strong_aborts, closing_tests};
ghost use Rattle.chart_machine.specs.Turns.{standing_of};
ghost use Rattle.chart_machine.specs.Machine.{initial, guarded_first, woken, is_outside, regions_at_start, start};
ghost use Rattle.chart_machine.specs.Machine.{stands_in, is_active};

use crate::chosen::{closing_tests, strong_aborts};
use crate::copies::copied_standings;
use crate::standing::{Configuration, Standing};
use crate::stepping::move_all;
use crate::table::{RegionRow, Table};
use core_charts::{Transition, copied_transitions};
use sc_graph::{Role, Variable};
use sc_values::{Name, Value};
use sqlite_items::Items;
use std::alloc::{AllocError, Global};

impl Table {
    /// What stands before the first tick: all variables `false` or 0, no region entered. Err: memory was
    /// refused.
    pub fn initial(&self, alloc: Global) -> Result<Configuration, AllocError>
        ensures { IfOk result (λ c. c ≡ initial self.now) }
    {
        let variables = initial_values(alloc, self.variables.as_slice())?;
        let regions = all_outside(alloc, self.regions.as_slice())?;
        Ok(Configuration { variables, regions })
    }

    /// The start of a tick: inputs get the given values, or `false` or 0, and each region the tests of this
    /// tick; in the first tick, when no region is entered yet, those of the chart are. Err: memory was refused.
    pub fn start(
        &self,
        alloc: Global,
        inputs: &[(Name, Value)],
        c: &Configuration,
    ) -> Result<Configuration, AllocError>
        ensures { IfOk result (λ started. started ≡ start self.now inputs.now c.now) }
    {
        let variables = started_values(
            alloc,
            self.variables.as_slice(),
            inputs,
            c.variables.as_slice(),
        )?;
        let regions = self.started_regions(alloc, c.regions.as_slice())?;
        Ok(Configuration { variables, regions })
    }

    fn started_regions(
        &self,
        alloc: Global,
        regions: &[Standing],
    ) -> Result<Items<Standing>, AllocError>
        ensures { IfOk result (λ started. started ≡ regions_at_start self.now
            (list_all is_outside regions.now) regions.now) }
    {
        if are_outside(regions) {
            let mut started = copied_standings(alloc, regions)?;
            move_all(alloc, self.opened.as_slice(), &mut started)?;
            return Ok(started);
        }
        self.all_woken(alloc, regions)
    }

    fn all_woken(&self, alloc: Global, regions: &[Standing]) -> Result<Items<Standing>, AllocError>
        ensures { IfOk result (λ started. started ≡ map (woken self.now) regions.now) }
    {
        let mut started = Items::new(alloc);
        for standing in regions {
            started.push(self.woken(alloc, standing)?)?;
        }
        Ok(started)
    }

    // A simple state tests all its transitions, a superstate all its aborts.
    fn woken(&self, alloc: Global, standing: &Standing) -> Result<Standing, AllocError>
        ensures { IfOk result (λ started. started ≡ woken self.now standing.now) }
    {
        match standing {
            Standing::Trying { state, tests: _ } => Ok(Standing::Trying {
                state: *state,
                tests: copied_transitions(alloc, self.transitions(*state))?,
            }),
            Standing::Within { state, tests: _ } => {
                guarded_first(alloc, *state, self.transitions(*state))
            }
            other => other.copied(alloc),
        }
    }

    /// Whether some region stands in this state.
    pub fn is_active(&self, c: &Configuration, state: usize) -> bool
        ensures { result ≡ is_active self.now c.now state }
    {
        match c.regions.get(self.holder(state)) {
            Some(standing) => stands_in(standing, state),
            None => false,
        }
    }
}

fn initial_values(alloc: Global, variables: &[Variable]) -> Result<Items<Value>, AllocError>
    ensures { IfOk result (λ values. values ≡ map (λ x. initial_value x.kind) variables.now) }
{
    let mut values = Items::new(alloc);
    for variable in variables {
        values.push(variable.kind.initial())?;
    }
    Ok(values)
}

// The chart and all regions outside.
fn all_outside(alloc: Global, rows: &[RegionRow]) -> Result<Items<Standing>, AllocError>
    ensures { IfOk result (λ regions. regions ≡ at.Outside ∷ map (λ r. at.Outside) rows.now) }
{
    let mut regions = Items::new(alloc);
    regions.push(Standing::Outside)?;
    for _row in rows {
        regions.push(Standing::Outside)?;
    }
    Ok(regions)
}

// Strong aborts come first, where there are some.
fn guarded_first(
    alloc: Global,
    state: usize,
    transitions: &[Transition],
) -> Result<Standing, AllocError>
    ensures { IfOk result (λ started. started ≡
        guarded_first state (strong_aborts transitions.now) (closing_tests transitions.now)) }
{
    let tests = strong_aborts(alloc, transitions)?;
    if !tests.is_empty() {
        return Ok(Standing::Guarding { state, tests });
    }
    let tests = closing_tests(alloc, transitions)?;
    Ok(Standing::Within { state, tests })
}

fn stands_in(standing: &Standing, at: usize) -> bool
    ensures { result ≡ stands_in standing.now at }
{
    match standing {
        Standing::Outside | Standing::Ended => false,
        Standing::Trying { state, tests: _ }
        | Standing::Entering { state, tests: _ }
        | Standing::Guarding { state, tests: _ }
        | Standing::Within { state, tests: _ } => *state == at,
        Standing::Acting {
            state,
            effects: _,
            target: _,
        } => *state == at,
    }
}

fn are_outside(regions: &[Standing]) -> bool
    ensures { result ≡ list_all is_outside regions.now }
{
    for standing in regions {
        if !is_outside(standing) {
            return false;
        }
    }
    true
}

fn is_outside(standing: &Standing) -> bool
    ensures { result ≡ is_outside standing.now }
{
    match standing {
        Standing::Outside => true,
        _ => false,
    }
}

fn started_values(
    alloc: Global,
    variables: &[Variable],
    inputs: &[(Name, Value)],
    values: &[Value],
) -> Result<Items<Value>, AllocError>
    ensures { IfOk result (λ started. started ≡ values_at_start inputs.now variables.now values.now) }
{
    let mut started = Items::new(alloc);
    for (x, variable) in variables.iter().enumerate() {
        if x >= values.len() {
            return Ok(started);
        }
        started.push(started_value(inputs, variable, values[x]))?;
    }
    Ok(started)
}

fn started_value(inputs: &[(Name, Value)], variable: &Variable, present: Value) -> Value
    ensures { result ≡ value_at_start inputs.now variable.now variable.now.role present }
{
    match variable.role {
        Role::Input => match given(inputs, &variable.name) {
            Some(value) => value,
            None => variable.kind.initial(),
        },
        Role::Output | Role::Local => present,
    }
}

// The value that is given for a name.
fn given(inputs: &[(Name, Value)], name: &Name) -> Option<Value>
    ensures { result ≡ given inputs.now name.now }
{
    for input in inputs {
        if input.0 == *name {
            return Some(input.1);
        }
    }
    None
}
