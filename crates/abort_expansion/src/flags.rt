//! The variables that a superstate is given, and what of its transitions decides of them.

ghost use Rattle.std.specs.Prelude.{◌≡◌, ◌+◌, ◌≤◌, ◌||◌, ◌&&◌, IfOk};
ghost use Rattle.abort_expansion.specs.Flags.{has_join, counts, one, given};
ghost use Rattle.abort_expansion.specs.Flags.{flag_count, flags_of, aborts_around, weak_around};

use core_charts::{Transition, has_aborts, has_strong, has_weak};
use sc_graph::VariableId;
use std::alloc::AllocError;

/// The variables of a superstate: the flags of its strong and of its weak aborts, and its termination counter.
#[derive(Clone, Copy)]
pub struct Flags {
    pub strong: Option<VariableId>,
    pub weak: Option<VariableId>,
    pub counter: Option<VariableId>,
}

fn has_join(all: &[Transition]) -> bool
    ensures { result ≡ has_join all.now }
{
    for transition in all {
        if transition.kind.is_join() {
            return true;
        }
    }
    false
}

/// Whether a superstate with these transitions counts, by whether weak aborts enclose it.
pub(crate) fn counts(weak_around: bool, all: &[Transition]) -> bool
    ensures { result ≡ counts weak_around all.now }
{
    has_join(all) && (has_aborts(all) || weak_around)
}

fn one(is_there: bool) -> u32
    ensures value { result ≡ one is_there }
    ensures within { result ≤ 1 }
{
    if is_there { 1 } else { 0 }
}

/// How many variables a superstate is given.
pub(crate) fn flag_count(weak_around: bool, all: &[Transition]) -> u32
    ensures { result ≡ flag_count weak_around all.now }
{
    one(has_strong(all)) + one(has_weak(all)) + one(counts(weak_around, all))
}

// The number of the variable behind this one, where it is given. Err: no program has so many.
fn past(variable: u32, is_there: bool) -> Result<u32, AllocError>
    ensures { IfOk result (λ next. next ≡ variable + one is_there) }
{
    match variable.checked_add(one(is_there)) {
        Some(next) => Ok(next),
        None => Err(AllocError),
    }
}

fn given(is_there: bool, variable: u32) -> Result<Option<VariableId>, AllocError>
    ensures { IfOk result (λ made. made ≡ given is_there variable) }
{
    if !is_there {
        return Ok(None);
    }
    match VariableId::try_from(variable) {
        Ok(known) => Ok(Some(known)),
        Err(_) => Err(AllocError),
    }
}

/// The variables of a superstate from this number on. Err: no program has so many.
pub(crate) fn flags_of(
    weak_around: bool,
    all: &[Transition],
    first: u32,
) -> Result<Flags, AllocError>
    ensures { IfOk result (λ flags. flags ≡ flags_of weak_around all.now first) }
{
    let weak = past(first, has_strong(all))?;
    let counter = past(weak, has_weak(all))?;
    Ok(Flags {
        strong: given(has_strong(all), first)?,
        weak: given(has_weak(all), weak)?,
        counter: given(counts(weak_around, all), counter)?,
    })
}

/// Whether a superstate of these has aborts.
pub(crate) fn aborts_around(around: &[Flags]) -> bool
    ensures { result ≡ aborts_around around.now }
{
    for flags in around {
        if flags.strong.is_some() || flags.weak.is_some() {
            return true;
        }
    }
    false
}

/// Whether a superstate of these has weak aborts.
pub(crate) fn weak_around(around: &[Flags]) -> bool
    ensures { result ≡ weak_around around.now }
{
    for flags in around {
        if flags.weak.is_some() {
            return true;
        }
    }
    false
}
