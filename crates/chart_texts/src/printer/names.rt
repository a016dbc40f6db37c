//! The names of a core chart, and how a text has them.

ghost use Rattle.std.specs.Prelude.{◌≡◌, ◌++◌, IfOk, map, string_bytes};
ghost use Rattle.std.specs.List.{list_any};
ghost use Rattle.chart_texts.specs.Renaming.{begins_with, free_from, is_added, is_taken, rival, rivals};
ghost use Rattle.chart_texts.specs.Renaming.{rivals_in, rivals_of_region, rivals_of_state, shown_name, word};
ghost use Rattle.chart_texts.specs.Renaming.{word_for};

use core_charts::{CoreChart, Region, State};
use sc_graph::Variable;
use sc_values::Name;
use std::alloc::{AllocError, Global};

// Whether a name begins with `_`.
fn is_added(name: &Name) -> bool
    ensures { result ≡ is_added name.now }
{
    match name.as_bytes() {
        [] => false,
        [first, ..] => *first == b'_',
    }
}

/// A name as texts have it: one that begins with `_` with this word in front, where both together are a name. Err:
/// memory was refused.
pub(crate) fn shown_name(alloc: Global, word: &str, name: &Name) -> Result<Name, AllocError>
    ensures { IfOk result (λ shown. shown ≡ shown_name word.now name.now) }
{
    if !is_added(name) {
        return Ok(*name);
    }
    let text = format!(in alloc; "{word}{name}")?;
    match Name::of(text.as_str()) {
        Some(shown) => Ok(shown),
        None => Ok(*name),
    }
}

fn begins_with(word: &[u8], name: &Name) -> bool
    ensures { result ≡ begins_with word.now name.now }
{
    name.as_bytes().starts_with(word)
}

// Puts a name behind others where one with a word in front may be confused with it.
fn put_rival(name: Name, names: &mut Vec<Name>) -> Result<(), AllocError>
    ensures { IfOk result (λ _. names.new.items ≡ names.old.items ++ rival name) }
{
    if begins_with(b"core", &name) {
        names.push(name)?;
    }
    Ok(())
}

#[cycle(naming)]
fn put_rivals(regions: &[Region], names: &mut Vec<Name>) -> Result<(), AllocError>
    ensures { IfOk result (λ _. names.new.items ≡ names.old.items ++ rivals_in (map rivals_of_region regions.now)) }
{
    for region in regions {
        put_rivals_of_region(region, names)?;
    }
    Ok(())
}

#[cycle(naming)]
fn put_rivals_of_region(region: &Region, names: &mut Vec<Name>) -> Result<(), AllocError>
    ensures { IfOk result (λ _. names.new.items ≡ names.old.items ++ rivals_of_region region.now) }
{
    put_rival(region.name, names)?;
    for state in region.states.as_slice() {
        put_rivals_of_state(state, names)?;
    }
    Ok(())
}

#[cycle(naming)]
fn put_rivals_of_state(state: &State, names: &mut Vec<Name>) -> Result<(), AllocError>
    ensures { IfOk result (λ _. names.new.items ≡ names.old.items ++ rivals_of_state state.now) }
{
    put_rival(state.name, names)?;
    put_rivals(state.regions.as_slice(), names)
}

fn put_variables(variables: &[Variable], names: &mut Vec<Name>) -> Result<(), AllocError>
    ensures { IfOk result (λ _. names.new.items
        ≡ names.old.items ++ rivals_in (map (λ v. rival v.name) variables.now)) }
{
    for variable in variables {
        put_rival(variable.name, names)?;
    }
    Ok(())
}

// The names of a chart with which one with a word in front may be confused.
fn rivals(alloc: Global, core: &CoreChart) -> Result<Vec<Name>, AllocError>
    ensures { IfOk result (λ names. names.items ≡ rivals core.now) }
{
    let mut names = Vec::new(alloc);
    put_variables(core.variables(), &mut names)?;
    put_rivals(core.regions(), &mut names)?;
    Ok(names)
}

// The word of this number.
fn word(alloc: Global, number: usize) -> Result<String, AllocError>
    ensures { IfOk result (λ text. string_bytes text ≡ word number) }
{
    if number == 0 {
        return String::from_str(alloc, "core");
    }
    format!(in alloc; "core{number}")
}

fn is_any_so(start: &[u8], names: &[Name]) -> bool
    ensures { result ≡ list_any (begins_with start.now) names.now }
{
    for name in names {
        if begins_with(start, name) {
            return true;
        }
    }
    false
}

// Whether a name begins with the word of this number and `_`.
fn is_taken(alloc: Global, names: &[Name], number: usize) -> Result<bool, AllocError>
    ensures { IfOk result (λ taken. taken ≡ is_taken names.now number) }
{
    let mut start = word(alloc, number)?;
    start.push_str("_")?;
    Ok(is_any_so(start.as_bytes(), names))
}

// The first number whose word is not taken.
fn first_free(alloc: Global, names: &[Name]) -> Result<usize, AllocError>
    ensures { IfOk result (λ number. number ≡ free_from names.now names.now 0) }
{
    for (number, _) in names.iter().enumerate() {
        if !is_taken(alloc, names, number)? {
            return Ok(number);
        }
    }
    Ok(names.len())
}

/// The word for the names of a core chart that begin with `_`. Err: memory was refused.
pub(crate) fn word_for(alloc: Global, core: &CoreChart) -> Result<String, AllocError>
    ensures { IfOk result (λ text. string_bytes text ≡ word_for core.now) }
{
    let names = rivals(alloc, core)?;
    word(alloc, first_free(alloc, &names)?)
}
