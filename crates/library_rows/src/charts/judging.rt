//! Whether a run is admissible: of two concurrent steps inits come before updates, and these before reads.

use chart_machine::{Configuration, Standing, Table};
use core_charts::{Effect, Transition};
use sc_graph::Step;
use sc_values::{Code, CodedAssignment};
use std::alloc::{AllocError, Global};

/// A step of a run: its region, and a step of a program that does the same to the variables.
#[derive(Drop)]
pub(crate) struct Judged {
    region: usize,
    step: Step,
}

// The first test, as a step of a program. One without a trigger does nothing to the variables, as a join.
fn test_of(tests: &[Transition]) -> Option<Step> {
    match &tests.first()?.trigger {
        None => Some(Step::Join { next: 0 }),
        Some(trigger) => Some(Step::Cond {
            code: Code::postorder(trigger)?,
            then: 0,
            other: 0,
        }),
    }
}

// The first effect, as a step of a program.
fn effect_of(effects: &[Effect]) -> Option<Step> {
    let effect = effects.first()?;
    let variable = effect.variable;
    match CodedAssignment::of(variable, &effect.value)? {
        CodedAssignment::Init(code) => Some(Step::Assign {
            variable,
            code,
            next: 0,
        }),
        CodedAssignment::Update(combine, code) => Some(Step::Update {
            variable,
            combine,
            code,
            next: 0,
        }),
    }
}

/// What a region does that stands there. None: nothing.
pub(crate) fn step_there(c: &Configuration, region: usize) -> Option<Judged> {
    let step = match c.regions.get(region)? {
        Standing::Outside | Standing::Ended => None,
        Standing::Trying { state: _, tests }
        | Standing::Entering { state: _, tests }
        | Standing::Guarding { state: _, tests }
        | Standing::Within { state: _, tests } => test_of(tests.as_slice()),
        Standing::Acting {
            state: _,
            effects,
            target: _,
        } => effect_of(effects.as_slice()),
    };
    Some(Judged {
        region,
        step: step?,
    })
}

// The superstates around a region, the innermost first.
fn around(table: &Table, region: usize) -> &[usize] {
    if region == 0 {
        return &[];
    }
    match table.regions.get(region - 1) {
        Some(row) => row.around.as_slice(),
        None => &[],
    }
}

// The region that holds a state.
fn holder(table: &Table, state: usize) -> usize {
    match table.states.get(state) {
        Some(row) => row.holder,
        None => 0,
    }
}

// The regions in which a region lies: itself, and those that hold a superstate around it.
fn outer(alloc: Global, table: &Table, region: usize) -> Result<Vec<usize>, AllocError> {
    let mut regions = Vec::new(alloc);
    regions.push(region)?;
    for state in around(table, region) {
        regions.push(holder(table, *state))?;
    }
    Ok(regions)
}

// The one of these regions that stands side by side with another one.
fn beside(table: &Table, regions: &[usize], other: usize) -> Option<usize> {
    for region in regions {
        if *region != other
            && *region > 0
            && other > 0
            && around(table, *region) == around(table, other)
        {
            return Some(*region);
        }
    }
    None
}

// The region that forks two regions apart, 0 for the chart. None: they are not concurrent.
fn forking(
    alloc: Global,
    table: &Table,
    first: usize,
    second: usize,
) -> Result<Option<usize>, AllocError> {
    let of_first = outer(alloc, table, first)?;
    for other in &outer(alloc, table, second)? {
        if let Some(side) = beside(table, &of_first, *other) {
            return Ok(Some(match around(table, side).first() {
                Some(state) => holder(table, *state),
                None => 0,
            }));
        }
    }
    Ok(None)
}

// Whether a region takes none of these steps.
fn takes_none(steps: &[Judged], region: usize) -> bool {
    for step in steps {
        if step.region == region {
            return false;
        }
    }
    true
}

// Whether a step may stand behind these.
fn may_follow(
    alloc: Global,
    table: &Table,
    steps: &[Judged],
    later: &Judged,
) -> Result<bool, AllocError> {
    for (at, earlier) in steps.iter().enumerate() {
        if let Some(forking) = forking(alloc, table, earlier.region, later.region)? {
            if takes_none(&steps[at + 1..], forking) && !earlier.step.may_precede(&later.step) {
                return Ok(false);
            }
        }
    }
    Ok(true)
}

/// Whether each two concurrent steps stand in an order that the protocol allows.
pub(crate) fn is_admissible(
    alloc: Global,
    table: &Table,
    steps: &[Judged],
) -> Result<bool, AllocError> {
    for (at, later) in steps.iter().enumerate() {
        if !may_follow(alloc, table, &steps[..at], later)? {
            return Ok(false);
        }
    }
    Ok(true)
}
