//! The regions of a superstate whose during actions end: one that has its own regions, and one that makes the actions.

ghost use Rattle.std.specs.Prelude.{◌≡◌, ◌+◌, [], ◌∷◌, ◌++◌, IfOk, OnOk, false, length};
ghost use Rattle.chart_reduction.specs.Endings.{telling, body, body_region, tested, first_states};
ghost use Rattle.chart_reduction.specs.Endings.{ending_states, ending_region};
ghost use Rattle.extended_charts.specs.Durings.{immediate_ones};
ghost use Rattle.extended_charts.specs.Holds.{ended};
ghost use Rattle.extended_charts.specs.Making.{always, one};
ghost use Rattle.core_charts.specs.declared.region.TransitionKind.TheVariants as kind;

use crate::values::passing::put_passing;
use core_charts::{Effect, Transition, TransitionKind, next};
use extended_charts::{
    During, ExtendedRegion, ExtendedState, alone, always, count, ended, made_state, one,
    put_immediate_ones, put_steps, sum,
};
use sc_graph::VariableId;
use sc_text::{numbered, plain};
use sc_values::{Expr, Value};
use sqlite_items::Items;
use std::alloc::{AllocError, Global};

// What is inside has ended.
fn telling(done: VariableId) -> Effect
    ensures { result ≡ telling done }
{
    Effect {
        variable: done,
        value: Expr::Literal(Value::Bool(true)),
    }
}

// The way out of the state that has the regions: when these have ended and the trigger is true.
fn join(
    alloc: Global,
    done: VariableId,
    trigger: Option<Expr>,
) -> Result<Items<Transition>, AllocError>
    ensures { IfOk result (λ made. made
        ≡ record (always false (telling done ∷ []) 1) { kind = kind.Join; trigger = trigger } ∷ []) }
{
    match alone(alloc, telling(done)) {
        Ok(effects) => {
            let out = Transition {
                kind: TransitionKind::Join,
                immediate: false,
                trigger,
                effects,
                target: 1,
            };
            alone(alloc, out)
        }
        Err(error) => {
            drop(trigger);
            Err(error)
        }
    }
}

// The state that has the regions.
fn body(
    alloc: Global,
    done: VariableId,
    trigger: Option<Expr>,
    regions: Items<ExtendedRegion>,
) -> Result<ExtendedState, AllocError>
    ensures { IfOk result (λ made. made ≡ body done trigger regions) }
{
    match join(alloc, done, trigger) {
        Ok(ways) => Ok(made_state(alloc, plain("body__1"), true, regions, ways)),
        Err(error) => {
            drop(regions);
            Err(error)
        }
    }
}

/// Puts the region whose initial state has these regions, and is left by the termination. Err: memory was refused.
pub(crate) fn put_body_region(
    alloc: Global,
    done: VariableId,
    trigger: Option<Expr>,
    regions: Items<ExtendedRegion>,
    made: &mut Items<ExtendedRegion>,
) -> Result<(), AllocError>
    ensures { OnOk result (made.new ≡ made.old ++ body_region done trigger regions ∷ []) }
{
    let body = body(alloc, done, trigger, regions)?;
    let mut states = alone(alloc, body)?;
    match states.push(ended(alloc)) {
        Ok(()) => made.push(ExtendedRegion {
            name: plain("body__1"),
            states,
        }),
        Err(error) => {
            drop(states);
            Err(error)
        }
    }
}

// Puts the state of this place: on to the end where what is inside has ended, and else elsewhere.
fn put_tested(
    alloc: Global,
    done: VariableId,
    place: u32,
    end: u32,
    other: u32,
    made: &mut Items<ExtendedState>,
) -> Result<(), AllocError>
    ensures { OnOk result (made.new ≡ made.old ++ tested done place end other ∷ []) }
{
    let name = numbered("step__", place as u64);
    let ends = Transition {
        kind: TransitionKind::Go,
        immediate: true,
        trigger: Some(Expr::Load(done)),
        effects: Items::new(alloc),
        target: end,
    };
    let mut ways = alone(alloc, ends)?;
    match ways.push(always(true, Items::new(alloc), other)) {
        Ok(()) => made.push(made_state(alloc, name, place == 0, Items::new(alloc), ways)),
        Err(error) => {
            drop(ways);
            Err(error)
        }
    }
}

// Puts what is done in the tick of the entry.
fn put_first_states(
    alloc: Global,
    done: VariableId,
    end: u32,
    first: &[During],
    at_once: bool,
    made: &mut Items<ExtendedState>,
) -> Result<(), AllocError>
    ensures { OnOk result (made.new ≡ made.old ++ first_states done end first.now at_once) }
{
    put_steps(alloc, 0, first, made)?;
    if at_once {
        let place = count(first)?;
        put_tested(alloc, done, place, end, next(place)?, made)
    } else {
        Ok(())
    }
}

fn put_ending_states(
    alloc: Global,
    done: VariableId,
    wait: u32,
    first: &[During],
    all: &[During],
    at_once: bool,
    made: &mut Items<ExtendedState>,
) -> Result<(), AllocError>
    ensures { OnOk result (made.new ≡ made.old ++ ending_states done wait first.now all.now at_once) }
{
    let again = next(wait)?;
    let last = sum(again, count(all)?)?;
    let end = next(last)?;
    put_first_states(alloc, done, end, first, at_once, made)?;
    put_passing(alloc, false, wait, again, made)?;
    put_steps(alloc, again, all, made)?;
    put_tested(alloc, done, last, end, wait, made)?;
    made.push(ended(alloc))
}

// Puts the states that make these actions, in the tick of the entry those that are immediate.
fn put_acting(
    alloc: Global,
    done: VariableId,
    durings: &[During],
    at_once: bool,
    made: &mut Items<ExtendedState>,
) -> Result<(), AllocError>
    ensures { OnOk result (made.new ≡ made.old ++ ending_states done (length (immediate_ones durings.now) + one at_once)
        (immediate_ones durings.now) durings.now at_once) }
{
    let mut immediate = Items::new(alloc);
    put_immediate_ones(alloc, durings, &mut immediate)?;
    let first = immediate.as_slice();
    let wait = sum(count(first)?, one(at_once))?;
    put_ending_states(alloc, done, wait, first, durings, at_once, made)
}

/// Puts the region that makes these actions, and ends when what is inside has ended. Err: memory was refused, or no
/// memory holds so many states.
pub(crate) fn put_ending_region(
    alloc: Global,
    done: VariableId,
    durings: &[During],
    at_once: bool,
    made: &mut Items<ExtendedRegion>,
) -> Result<(), AllocError>
    ensures { OnOk result (made.new ≡ made.old ++ ending_region done durings.now at_once ∷ []) }
{
    let mut states = Items::new(alloc);
    match put_acting(alloc, done, durings, at_once, &mut states) {
        Ok(()) => made.push(ExtendedRegion {
            name: plain("during__1"),
            states,
        }),
        Err(error) => {
            drop(states);
            Err(error)
        }
    }
}
