//! The states that expansion makes of a superstate, over what is inside it.

ghost use Rattle.std.specs.Prelude.{◌≡◌, ◌+◌, ◌∷◌, ◌++◌, [], Some, IfOk, OnOk};
ghost use Rattle.core_charts.specs.Aborts.{has_aborts};
ghost use Rattle.abort_expansion.specs.Flags.{declarations, declared, local};
ghost use Rattle.abort_expansion.specs.Pieces.{beside};
ghost use Rattle.abort_expansion.specs.Inside.Parts.{fork_stands_for, forked_states, kept, monitor_stands_for};
ghost use Rattle.abort_expansion.specs.Superstates.{stays, is_prepared, as_it_is, prepared, forked, split};
ghost use Rattle.abort_expansion.specs.Superstates.{superstate_over, watched, monitor};

use crate::flags::{Flags, aborts_around, counts, weak_around};
use crate::names::{counter_name, strong_flag_name, weak_flag_name};
use crate::pieces::{NextNumbers, Regions, StatePieces};
use crate::places::RegionPlaces;
use crate::states::{put_continuation, put_fork, put_monitor, put_preparation};
use core_charts::{Region, State, Transition, has_aborts};
use sc_graph::{Role, Variable, VariableId};
use sc_values::{Kind, Name};
use sqlite_items::Items;
use std::alloc::{AllocError, Global};

/// A superstate: its name, how many regions it has, its transitions, the flags of those around it and its own, the
/// place of its first state in its region, whether that begins in it, and the numbers that come next.
#[derive(Clone, Copy)]
pub(crate) struct Superstate<'a> {
    pub(crate) name: Name,
    pub(crate) regions: u16,
    pub(crate) own: &'a [Transition],
    pub(crate) around: &'a [Flags],
    pub(crate) flags: Flags,
    pub(crate) place: u32,
    pub(crate) begins: bool,
    pub(crate) at: NextNumbers,
}

/// Whether a superstate stays as it is: it has no aborts, and none enclose it.
pub(crate) fn stays(around: &[Flags], own: &[Transition]) -> bool
    ensures { result ≡ stays around.now own.now }
{
    !(has_aborts(own) || aborts_around(around))
}

/// Whether a superstate is prepared: it has aborts, or counts.
pub(crate) fn is_prepared(around: &[Flags], own: &[Transition]) -> bool
    ensures { result ≡ is_prepared around.now own.now }
{
    has_aborts(own) || counts(weak_around(around), own)
}

fn local(name: Name) -> Variable
    ensures { result ≡ local name }
{
    Variable {
        name,
        kind: Kind::Int,
        role: Role::Local,
    }
}

// Puts the declaration of a variable behind others, where it is there.
fn put_declared(
    variable: Option<VariableId>,
    name: Name,
    made: &mut Items<Variable>,
) -> Result<(), AllocError>
    ensures { OnOk result (made.new ≡ made.old ++ declared variable name) }
{
    match variable {
        Some(_) => made.push(local(name)),
        None => Ok(()),
    }
}

fn put_declarations(
    superstate: u32,
    flags: Flags,
    made: &mut Items<Variable>,
) -> Result<(), AllocError>
    ensures { OnOk result (made.new ≡ made.old ++ declarations superstate flags) }
{
    put_declared(flags.strong, strong_flag_name(superstate), made)?;
    put_declared(flags.weak, weak_flag_name(superstate), made)?;
    put_declared(flags.counter, counter_name(superstate), made)
}

// Puts the state of the chart for which this state stands behind others, and those for which what is inside stands.
fn put_standing(
    state: u32,
    inside: Items<Option<u32>>,
    made: &mut Items<Option<u32>>,
) -> Result<(), AllocError>
    ensures { OnOk result (made.new ≡ made.old ++ Some state ∷ inside) }
{
    made.push(Some(state))?;
    made.append(inside)
}

// Puts the state as it is, over these regions, behind others.
fn put_kept(
    alloc: Global,
    it: &Superstate<'_>,
    regions: Items<Region>,
    to: &RegionPlaces,
    made: &mut Items<State>,
) -> Result<(), AllocError>
    ensures { OnOk result (made.new
        ≡ made.old ++ kept it.now.name it.now.own.now regions to.now it.now.begins ∷ []) }
{
    let mut transitions = Items::new(alloc);
    to.put_all_led(alloc, it.own, &mut transitions)?;
    made.push(State {
        name: it.name,
        is_initial: it.begins,
        is_final: false,
        regions,
        transitions,
    })
}

// It stays as it is.
fn put_as_it_is(
    alloc: Global,
    it: &Superstate<'_>,
    inside: Regions,
    to: &RegionPlaces,
    made: &mut StatePieces,
) -> Result<(), AllocError>
    ensures { OnOk result (made.new ≡ beside made.old
        (as_it_is it.now.name it.now.own.now inside to.now it.now.begins it.now.at)) }
{
    made.variables.append(inside.variables)?;
    put_standing(it.at.state, inside.stands_for, &mut made.stands_for)?;
    put_kept(alloc, it, inside.regions, to, &mut made.states)
}

// Puts the state that prepares it behind others.
fn put_prepared(
    alloc: Global,
    it: &Superstate<'_>,
    to: &RegionPlaces,
    made: &mut StatePieces,
) -> Result<(), AllocError>
    ensures { OnOk result (made.new ≡ beside made.old
        (prepared it.now.regions it.now.own.now it.now.flags to.now it.now.place it.now.begins it.now.at)) }
{
    let fork = next(it.place)?;
    put_preparation(
        alloc,
        it.at.superstate,
        it.flags,
        it.regions,
        it.own,
        to,
        fork,
        it.begins,
        &mut made.states,
    )?;
    made.stands_for.push(Some(it.at.state))
}

// The place behind this one. Err: no memory holds so many states.
fn next(place: u32) -> Result<u32, AllocError>
    ensures { IfOk result (λ next. next ≡ place + 1) }
{
    match place.checked_add(1) {
        Some(next) => Ok(next),
        None => Err(AllocError),
    }
}

// Puts the abort monitor behind other regions, where the superstate has aborts.
fn put_watched(
    alloc: Global,
    superstate: u32,
    around: &[Flags],
    flags: Flags,
    own: &[Transition],
    made: &mut Items<Region>,
) -> Result<(), AllocError>
    ensures { OnOk result (made.new
        ≡ made.old ++ watched (has_aborts own.now) (monitor superstate around.now flags own.now)) }
{
    if has_aborts(own) {
        put_monitor(alloc, superstate, around, flags, own, made)
    } else {
        Ok(())
    }
}

// The two states of the abort monitor stand for none.
fn put_monitor_stands_for(
    own: &[Transition],
    made: &mut Items<Option<u32>>,
) -> Result<(), AllocError>
    ensures { OnOk result (made.new ≡ made.old ++ monitor_stands_for (has_aborts own.now)) }
{
    if !has_aborts(own) {
        return Ok(());
    }
    made.push(None)?;
    made.push(None)
}

// Puts for which states the fork stands behind others, what is inside it, and the continuation state.
fn put_fork_stands_for(
    it: &Superstate<'_>,
    inside: Items<Option<u32>>,
    made: &mut Items<Option<u32>>,
) -> Result<(), AllocError>
    ensures { OnOk result (made.new
        ≡ made.old ++ fork_stands_for (has_aborts it.now.own.now) it.now.at.state inside) }
{
    put_standing(it.at.state, inside, made)?;
    put_monitor_stands_for(it.own, made)?;
    made.push(Some(it.at.state))
}

// Puts the fork over these regions and the monitor, and the continuation state, behind others.
fn put_forked_states(
    alloc: Global,
    it: &Superstate<'_>,
    inside: Items<Region>,
    to: &RegionPlaces,
    made: &mut Items<State>,
) -> Result<(), AllocError>
    ensures { OnOk result (made.new ≡ made.old ++ forked_states
        it.now.name it.now.own.now it.now.around.now it.now.flags inside to.now
        it.now.place it.now.begins it.now.at) }
{
    let number = it.at.superstate;
    let behind = next(it.place)?;
    let mut regions = inside;
    put_watched(alloc, number, it.around, it.flags, it.own, &mut regions)?;
    put_fork(alloc, it.name, it.begins, regions, behind, made)?;
    put_continuation(alloc, number, it.around, it.flags, to, it.own, made)
}

// Puts the fork with what is inside it, and the continuation state, behind others.
fn put_forked(
    alloc: Global,
    it: &Superstate<'_>,
    inside: Regions,
    to: &RegionPlaces,
    made: &mut StatePieces,
) -> Result<(), AllocError>
    ensures { OnOk result (made.new ≡ beside made.old (forked
        it.now.name it.now.own.now it.now.around.now it.now.flags inside to.now
        it.now.place it.now.begins it.now.at)) }
{
    put_declarations(it.at.superstate, it.flags, &mut made.variables)?;
    made.variables.append(inside.variables)?;
    put_fork_stands_for(it, inside.stands_for, &mut made.stands_for)?;
    put_forked_states(alloc, it, inside.regions, to, &mut made.states)
}

// Puts the fork and the continuation state behind others, and before them the state that prepares it where it is
// prepared.
fn put_split(
    alloc: Global,
    it: &Superstate<'_>,
    inside: Regions,
    to: &RegionPlaces,
    made: &mut StatePieces,
) -> Result<(), AllocError>
    ensures { OnOk result (made.new ≡ beside made.old (split
        it.now.name it.now.regions it.now.own.now it.now.around.now it.now.flags inside to.now
        it.now.place it.now.begins it.now.at)) }
{
    if !is_prepared(it.around, it.own) {
        return put_forked(alloc, it, inside, to, made);
    }
    put_prepared(alloc, it, to, made)?;
    let behind = Superstate {
        name: it.name,
        regions: it.regions,
        own: it.own,
        around: it.around,
        flags: it.flags,
        place: next(it.place)?,
        begins: false,
        at: it.at,
    };
    put_forked(alloc, &behind, inside, to, made)
}

/// Puts the states of a superstate behind others, over what is inside it.
pub(crate) fn put_superstate(
    alloc: Global,
    it: &Superstate<'_>,
    inside: Regions,
    to: &RegionPlaces,
    made: &mut StatePieces,
) -> Result<(), AllocError>
    ensures { OnOk result (made.new ≡ beside made.old (superstate_over
        it.now.name it.now.regions it.now.own.now it.now.around.now it.now.flags inside to.now
        it.now.place it.now.begins it.now.at)) }
{
    if stays(it.around, it.own) {
        put_as_it_is(alloc, it, inside, to, made)
    } else {
        put_split(alloc, it, inside, to, made)
    }
}
