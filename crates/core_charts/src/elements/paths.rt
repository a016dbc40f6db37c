//! The paths of a chart's states.

ghost use Rattle.std.specs.Prelude.{◌≡◌, ◌++◌, IfOk, codes, map, string_bytes};
ghost use Rattle.core_charts.specs.Paths.{beside, paths_of, paths_of_region, paths_of_state};

use crate::{Chart, Region, State};
use std::alloc::{AllocError, Global};

/// The path of each state of a chart, in the order of the states' numbers: the name of its region and its own, with
/// a full stop between; inside a superstate behind that one's path and a slash. Err: memory was refused.
pub fn paths_of(alloc: Global, chart: &Chart) -> Result<Vec<String>, AllocError>
    ensures { IfOk result (λ paths. map string_bytes paths.items ≡ paths_of chart.now) }
{
    let mut paths = Vec::new(alloc);
    add_regions(alloc, "", chart.regions(), &mut paths)?;
    Ok(paths)
}

// Adds the paths of the states of regions, where this text stands before them.
#[cycle(paths)]
fn add_regions(
    alloc: Global,
    before: &str,
    regions: &[Region],
    paths: &mut Vec<String>,
) -> Result<(), AllocError>
    ensures { IfOk result (λ _. map string_bytes paths.new.items
        ≡ map string_bytes paths.old.items ++ beside (map paths_of_region regions.now) before.now) }
{
    for region in regions {
        add_region(alloc, before, region, paths)?;
    }
    Ok(())
}

// Adds the paths of the states of a region.
#[cycle(paths)]
fn add_region(
    alloc: Global,
    before: &str,
    region: &Region,
    paths: &mut Vec<String>,
) -> Result<(), AllocError>
    ensures { IfOk result (λ _. map string_bytes paths.new.items
        ≡ map string_bytes paths.old.items ++ paths_of_region region.now before.now) }
{
    let path = joined(alloc, before, region.name.as_str())?;
    let before = joined(alloc, path.as_str(), ".")?;
    add_states(alloc, before.as_str(), region.states.as_slice(), paths)
}

// Adds the paths of states and of those inside them, where this text stands before them.
#[cycle(paths)]
fn add_states(
    alloc: Global,
    before: &str,
    states: &[State],
    paths: &mut Vec<String>,
) -> Result<(), AllocError>
    ensures { IfOk result (λ _. map string_bytes paths.new.items
        ≡ map string_bytes paths.old.items ++ beside (map paths_of_state states.now) before.now) }
{
    for state in states {
        add_state(alloc, before, state, paths)?;
    }
    Ok(())
}

// Adds the path of a state, and those of the states inside it.
#[cycle(paths)]
fn add_state(
    alloc: Global,
    before: &str,
    state: &State,
    paths: &mut Vec<String>,
) -> Result<(), AllocError>
    ensures { IfOk result (λ _. map string_bytes paths.new.items
        ≡ map string_bytes paths.old.items ++ paths_of_state state.now before.now) }
{
    let path = joined(alloc, before, state.name.as_str())?;
    let before = joined(alloc, path.as_str(), "/")?;
    paths.push(path)?;
    add_regions(alloc, before.as_str(), state.regions.as_slice(), paths)
}

/// A text, and another one behind it. Err: memory was refused.
pub fn joined(alloc: Global, first: &str, second: &str) -> Result<String, AllocError>
    ensures { IfOk result (λ text. string_bytes text ≡ first.now ++ second.now) }
{
    let mut text = String::from_str(alloc, first)?;
    text.push_str(second)?;
    Ok(text)
}
