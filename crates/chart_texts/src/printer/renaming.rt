//! Core charts in names of texts.

ghost use Rattle.std.specs.Prelude.{◌≡◌, IfOk, SomeIff, map};
ghost use Rattle.core_charts.specs.declared.features.Features.TheVariants as features;
ghost use Rattle.core_charts.specs.Rules.{IsChart};
ghost use Rattle.chart_texts.specs.Renaming.{shown, shown_region, shown_state, shown_variable};

use crate::printer::names::{shown_name, word_for};
use core_charts::{Chart, CoreChart, Region, State, copied_transitions};
use sc_graph::Variable;
use sqlite_items::Items;
use std::alloc::{AllocError, Global};

fn shown_variables(
    alloc: Global,
    word: &str,
    variables: &[Variable],
) -> Result<Items<Variable>, AllocError>
    ensures { IfOk result (λ all. all ≡ map (shown_variable word.now) variables.now) }
{
    let mut all = Items::new(alloc);
    for variable in variables {
        all.push(Variable {
            name: shown_name(alloc, word, &variable.name)?,
            kind: variable.kind,
            role: variable.role,
        })?;
    }
    Ok(all)
}

#[cycle(renaming)]
fn shown_regions(alloc: Global, word: &str, regions: &[Region]) -> Result<Items<Region>, AllocError>
    ensures { IfOk result (λ all. all ≡ map (shown_region word.now) regions.now) }
{
    let mut all = Items::new(alloc);
    for region in regions {
        all.push(shown_region(alloc, word, region)?)?;
    }
    Ok(all)
}

#[cycle(renaming)]
fn shown_region(alloc: Global, word: &str, region: &Region) -> Result<Region, AllocError>
    ensures { IfOk result (λ one. one ≡ shown_region word.now region.now) }
{
    Ok(Region {
        name: shown_name(alloc, word, &region.name)?,
        states: shown_states(alloc, word, region.states.as_slice())?,
    })
}

#[cycle(renaming)]
fn shown_states(alloc: Global, word: &str, states: &[State]) -> Result<Items<State>, AllocError>
    ensures { IfOk result (λ all. all ≡ map (shown_state word.now) states.now) }
{
    let mut all = Items::new(alloc);
    for state in states {
        all.push(shown_state(alloc, word, state)?)?;
    }
    Ok(all)
}

#[cycle(renaming)]
fn shown_state(alloc: Global, word: &str, state: &State) -> Result<State, AllocError>
    ensures { IfOk result (λ one. one ≡ shown_state word.now state.now) }
{
    Ok(State {
        name: shown_name(alloc, word, &state.name)?,
        is_initial: state.is_initial,
        is_final: state.is_final,
        regions: shown_regions(alloc, word, state.regions.as_slice())?,
        transitions: copied_transitions(alloc, state.transitions.as_slice())?,
    })
}

/// A core chart as texts have it: its names that begin with `_` get a word in front. None: so it breaks a rule or a
/// limit of chart text, which has fewer regions in a superstate, and limits of states, transitions and effects. Err:
/// memory was refused.
pub fn chart_of_core(alloc: Global, core: &CoreChart) -> Result<Option<Chart>, AllocError>
    ensures { IfOk result (λ chart. SomeIff chart (IsChart features.Extended (shown core.now)) (shown core.now)) }
{
    let word = word_for(alloc, core)?;
    let variables = shown_variables(alloc, word.as_str(), core.variables())?;
    let regions = shown_regions(alloc, word.as_str(), core.regions())?;
    Chart::of(alloc, core.name(), variables, regions)
}
