//! The texts of regions, and of states with what is in them.

ghost use Rattle.std.specs.Prelude.{◌≡◌, ◌++◌, [], IfOk, IsTrue, map, string_bytes};
ghost use Rattle.core_charts.specs.declared.region.Region.TheViews.{out-Region, out-State};
ghost use Rattle.chart_texts.specs.Layout.{among_all, in_row, is_bare, names_of, piece_of_state};
ghost use Rattle.chart_texts.specs.Layout.{region_head, region_text};
ghost use Rattle.chart_texts.specs.Layout.{state_head};

use crate::printer::lines::{deeper, put_bare, put_head, put_line};
use crate::printer::transitions::put_transitions;
use crate::printer::words::{final_text, initial_text};
use core_charts::{Region, State, Transition};
use sc_graph::Variable;
use sc_values::Name;
use std::alloc::{AllocError, Global};

// The names of states.
fn state_names(
    alloc: Global,
    variables: &[Variable],
    states: &[State],
) -> Result<Vec<Name>, AllocError>
    ensures { IfOk result (λ names. names.items ≡ names_of (map (piece_of_state variables.now) states.now)) }
{
    let mut names = Vec::with_capacity(alloc, states.len())?;
    for state in states {
        names.push(state.name)?;
    }
    Ok(names)
}

// With what a state's line begins.
fn state_head(alloc: Global, state: &State) -> Result<String, AllocError>
    ensures { IfOk result (λ text. string_bytes text ≡ state_head (out-State state.now).is_initial
        (out-State state.now).is_final (out-State state.now).name) }
{
    let initial = initial_text(state.is_initial);
    let end = final_text(state.is_final);
    let name = state.name;
    format!(in alloc; "{initial}{end}state {name}")
}

fn region_head(alloc: Global, region: &Region) -> Result<String, AllocError>
    ensures { IfOk result (λ text. string_bytes text ≡ region_head (out-Region region.now).name) }
{
    let name = region.name;
    format!(in alloc; "region {name}")
}

// Whether nothing stands in a state.
fn is_bare(regions: &[Region], own: &[Transition]) -> bool
    ensures value { result ≡ is_bare regions.now own.now }
    ensures parts { IsTrue result → (regions.now ≡ []) × (own.now ≡ []) }
{
    match regions {
        [] => match own {
            [] => true,
            [_, ..] => false,
        },
        [_, ..] => false,
    }
}

/// Puts the lines of regions behind a text. Err: memory was refused.
#[cycle(printing)]
pub(crate) fn put_regions(
    alloc: Global,
    text: &mut String,
    variables: &[Variable],
    regions: &[Region],
    margin: &str,
) -> Result<(), AllocError>
    ensures { IfOk result (λ _. string_bytes text.new
        ≡ string_bytes text.old ++ in_row (map (region_text variables.now) regions.now) margin.now) }
{
    for region in regions {
        put_region(alloc, text, variables, region, margin)?;
    }
    Ok(())
}

#[cycle(printing)]
fn put_region(
    alloc: Global,
    text: &mut String,
    variables: &[Variable],
    region: &Region,
    margin: &str,
) -> Result<(), AllocError>
    ensures { IfOk result (λ _. string_bytes text.new
        ≡ string_bytes text.old ++ region_text variables.now region.now margin.now) }
{
    let head = region_head(alloc, region)?;
    let words = head.as_str();
    put_head(text, words, margin)?;
    let inner = deeper(alloc, margin)?;
    let space = inner.as_str();
    let states = region.states.as_slice();
    put_states(alloc, text, variables, states, space)?;
    put_line(text, "}", margin)?;
    Ok(())
}

// Puts the lines of the states of a region behind a text.
#[cycle(printing)]
fn put_states(
    alloc: Global,
    text: &mut String,
    variables: &[Variable],
    states: &[State],
    margin: &str,
) -> Result<(), AllocError>
    ensures { IfOk result (λ _. string_bytes text.new ≡ string_bytes text.old
        ++ among_all (names_of (map (piece_of_state variables.now) states.now))
        (map (piece_of_state variables.now) states.now) margin.now) }
{
    let names = state_names(alloc, variables, states)?;
    for state in states {
        put_state(alloc, text, variables, &names, state, margin)?;
    }
    Ok(())
}

// Puts the lines of a state of a region, whose states have these names, behind a text.
#[cycle(printing)]
fn put_state(
    alloc: Global,
    text: &mut String,
    variables: &[Variable],
    states: &[Name],
    state: &State,
    margin: &str,
) -> Result<(), AllocError>
    ensures { IfOk result (λ _. string_bytes text.new
        ≡ string_bytes text.old ++ (piece_of_state variables.now state.now).among states.now margin.now) }
{
    let head = state_head(alloc, state)?;
    let words = head.as_str();
    let regions = state.regions.as_slice();
    let own = state.transitions.as_slice();
    if is_bare(regions, own) {
        put_bare(text, words, margin)?;
        return Ok(());
    }
    put_head(text, words, margin)?;
    let inner = deeper(alloc, margin)?;
    let space = inner.as_str();
    put_regions(alloc, text, variables, regions, space)?;
    put_transitions(alloc, text, variables, states, own, space)?;
    put_line(text, "}", margin)?;
    Ok(())
}
