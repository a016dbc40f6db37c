//! The transitions inside regions, and those of what is entered.

ghost use Rattle.std.specs.Prelude.{◌≡◌, ◌&&◌, IfOk, MatchOption, None, Some, length, map, nat_eq};
ghost use Rattle.core_charts.specs.Tests.{at_once};
ghost use Rattle.chart_warnings.specs.Names.{entered, entry_of_region, entry_of_state, joined};
ghost use Rattle.chart_warnings.specs.Names.{within, within_region, within_state};
ghost use Rattle.chart_warnings.specs.Warnings.{agrees, at_place, entry_at, led_at_once, left_at_once, on_the_way};
ghost use Rattle.chart_warnings.specs.Warnings.{tested_at_once, turn};
ghost use Rattle.chart_warnings.specs.Inside.Marks.{Tells, all_by, marked};

use crate::forestalling::turn;
use crate::marks::unmarked;
use crate::names::{Mention, mark_transition, mark_transitions};
use core_charts::{Region, State, Transition};
use std::alloc::{AllocError, Global};

/// Of so many variables those that transitions inside these regions name in this way.
pub(crate) fn named_within(
    alloc: Global,
    count: usize,
    way: Mention,
    regions: &[Region],
) -> Result<Vec<bool>, AllocError>
    ensures { IfOk result (λ marks. Tells (all_by way (within regions.now)) count marks.items) }
{
    let mut marks = unmarked(alloc, count)?;
    mark_regions(way, regions, &mut marks);
    Ok(marks)
}

#[cycle(within)]
#[tactic(auto, using(crate::proofs::Marking::marked_within))]
fn mark_regions(way: Mention, regions: &[Region], marks: &mut Vec<bool>)
    ensures { marks.new.items ≡ marked (all_by way (joined (map within_region regions.now))) marks.old.items }
{
    for region in regions {
        mark_states(way, region.states.as_slice(), marks);
    }
}

#[cycle(within)]
#[tactic(auto, using(crate::proofs::Marking::marked_within))]
fn mark_states(way: Mention, states: &[State], marks: &mut Vec<bool>)
    ensures { marks.new.items ≡ marked (all_by way (joined (map within_state states.now))) marks.old.items }
{
    for state in states {
        mark_state(way, state, marks);
    }
}

#[cycle(within)]
#[tactic(auto, using(crate::proofs::Marking::marked_within))]
fn mark_state(way: Mention, state: &State, marks: &mut Vec<bool>)
    ensures { marks.new.items ≡ marked (all_by way (within_state state.now)) marks.old.items }
{
    mark_regions(way, state.regions.as_slice(), marks);
    mark_transitions(way, state.transitions.as_slice(), marks);
}

/// Marks the variables that immediate transitions name in this way, of the state at this place and of those to which
/// it leads at once, and of all that is entered with them.
pub(crate) fn mark_target(way: Mention, states: &[State], target: u32, marks: &mut Vec<bool>)
    ensures { marks.new.items
        ≡ marked (all_by way (on_the_way (length states.now) states.now (Some target))) marks.old.items }
{
    let mut place = Some(target);
    for _step in 0..states.len() {
        place = mark_step(way, states, place, marks);
    }
}

// Those of the state at this place, if there is one, and of all that is entered with it. Gives the place to which it
// leads at once.
fn mark_step(
    way: Mention,
    states: &[State],
    place: Option<u32>,
    marks: &mut Vec<bool>,
) -> Option<u32>
    ensures marks { marks.new.items ≡ marked (all_by way (entry_at (at_place states.now place))) marks.old.items }
    ensures leads { result ≡ left_at_once (at_place states.now place) }
{
    match state_at(states, place) {
        Some(state) => {
            mark_entry(way, state, marks);
            led_at_once(state.transitions.as_slice())
        }
        None => None,
    }
}

fn state_at(states: &[State], place: Option<u32>) -> Option<&State>
    ensures { MatchOption result (at_place states.now place ≡ None) (λ s. at_place states.now place ≡ Some s.now) }
{
    match place {
        Some(place) => states.get(place as usize),
        None => None,
    }
}

// The place to which these transitions lead in the tick in which their state is entered, whatever holds then.
fn led_at_once(transitions: &[Transition]) -> Option<u32>
    ensures { result ≡ led_at_once None (tested_at_once transitions.now) }
{
    let mut before = None;
    for round in 0..2 {
        for transition in transitions {
            if is_of_turn(round, transition) {
                if !agrees(before, transition.target) {
                    return None;
                }
                if transition.trigger.is_none() {
                    return Some(transition.target);
                }
                before = Some(transition.target);
            }
        }
    }
    None
}

// Whether it is tested in this turn of the tick in which its state is entered.
fn is_of_turn(round: u8, transition: &Transition) -> bool
    ensures { result ≡ (transition.now.immediate && nat_eq (turn transition.now.kind) round) }
{
    transition.immediate && turn(transition.kind) == round
}

fn agrees(before: Option<u32>, target: u32) -> bool
    ensures { result ≡ agrees before target }
{
    match before {
        Some(other) => other == target,
        None => true,
    }
}

// Marks the variables that immediate transitions name in this way, of a state and of all that is entered with it.
#[cycle(entry)]
#[tactic(auto, using(crate::proofs::Marking::marked_within))]
fn mark_entry(way: Mention, state: &State, marks: &mut Vec<bool>)
    ensures { marks.new.items ≡ marked (all_by way (entry_of_state state.now).transitions) marks.old.items }
{
    mark_immediate(way, state.transitions.as_slice(), marks);
    mark_entered(way, state.regions.as_slice(), marks);
}

#[cycle(entry)]
#[tactic(auto, using(crate::proofs::Marking::marked_within))]
fn mark_entered(way: Mention, regions: &[Region], marks: &mut Vec<bool>)
    ensures { marks.new.items ≡ marked (all_by way (joined (map entry_of_region regions.now))) marks.old.items }
{
    for region in regions {
        mark_initial(way, region.states.as_slice(), marks);
    }
}

#[cycle(entry)]
#[tactic(auto, using(crate::proofs::Marking::marked_within))]
fn mark_initial(way: Mention, states: &[State], marks: &mut Vec<bool>)
    ensures { marks.new.items ≡ marked (all_by way (entered (map entry_of_state states.now))) marks.old.items }
{
    for state in states {
        if state.is_initial {
            mark_entry(way, state, marks);
        }
    }
}

#[tactic(auto, using(crate::proofs::Marking::marked_within))]
fn mark_immediate(way: Mention, transitions: &[Transition], marks: &mut Vec<bool>)
    ensures { marks.new.items ≡ marked (all_by way (at_once transitions.now)) marks.old.items }
{
    for transition in transitions {
        if transition.immediate {
            mark_transition(way, transition, marks);
        }
    }
}
