//! Warnings in words.

use crate::Warning;
use crate::texts::warned_text::WarnedText;
use std::alloc::{AllocError, Global};

/// What is warned of. Err: memory was refused.
pub(crate) fn cause_of(
    alloc: Global,
    warned: WarnedText<'_>,
    warning: Warning,
) -> Result<String, AllocError> {
    match warning {
        Warning::StaysOn { state, output, .. } => stays_on(alloc, warned, state, output),
        Warning::Forestalled { state, .. } => forestalled(alloc, warned, state),
        Warning::Unreached { state } => unreached(alloc, warned, state),
        Warning::NeverRead { variable } => never_read(alloc, warned, variable),
        Warning::NeverSet { variable } => never_set(alloc, warned, variable),
        Warning::NeverAsked { input } => never_asked(alloc, warned, input),
        Warning::NeverEnded { state, region, .. } => never_ended(alloc, warned, state, region),
        Warning::NeverLeft { state } => never_left(alloc, warned, state),
    }
}

fn stays_on(
    alloc: Global,
    warned: WarnedText<'_>,
    state: usize,
    output: usize,
) -> Result<String, AllocError> {
    let output = warned.variable(alloc, output)?;
    let state = warned.state(alloc, state)?;
    format!(in alloc; "this abort leaves `{output}` as `{state}` has set it")
}

fn forestalled(alloc: Global, warned: WarnedText<'_>, state: usize) -> Result<String, AllocError> {
    let state = warned.state(alloc, state)?;
    format!(in alloc;
        "this transition of `{state}` is never taken: one without a trigger is taken in its place"
    )
}

fn unreached(alloc: Global, warned: WarnedText<'_>, state: usize) -> Result<String, AllocError> {
    let state = warned.state(alloc, state)?;
    format!(in alloc;
        "nothing leads to `{state}`: it is not initial, and no transition of another state goes there"
    )
}

fn never_read(
    alloc: Global,
    warned: WarnedText<'_>,
    variable: usize,
) -> Result<String, AllocError> {
    let variable = warned.variable(alloc, variable)?;
    format!(in alloc;
        "the local variable `{variable}` is never read: no trigger and no other variable needs it"
    )
}

fn never_set(alloc: Global, warned: WarnedText<'_>, variable: usize) -> Result<String, AllocError> {
    let variable = warned.variable(alloc, variable)?;
    format!(in alloc; "`{variable}` is never set: no effect writes it")
}

fn never_asked(alloc: Global, warned: WarnedText<'_>, input: usize) -> Result<String, AllocError> {
    let input = warned.variable(alloc, input)?;
    format!(in alloc; "the input `{input}` is never read: no trigger and no effect needs it")
}

fn never_ended(
    alloc: Global,
    warned: WarnedText<'_>,
    state: usize,
    region: usize,
) -> Result<String, AllocError> {
    let region = warned.region(alloc, state, region)?;
    let state = warned.state(alloc, state)?;
    format!(in alloc;
        "the `join` of `{state}` is never taken: its region `{region}` has no final state"
    )
}

fn never_left(alloc: Global, warned: WarnedText<'_>, state: usize) -> Result<String, AllocError> {
    let state = warned.state(alloc, state)?;
    format!(in alloc;
        "`{state}`, in which its region begins, is never left for another state of the region"
    )
}
