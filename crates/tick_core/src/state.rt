//! Ticks under way, and the space that they keep.

ghost use Rattle.std.specs.Prelude.{◌≡◌, ◌≢◌, ◌≤◌, ◌↔◌, ℕ, IfOk, OnErr, IsSome, length, map, slice_get, Some, None};
ghost use Rattle.std.specs.Result.{IsErrOf};
ghost use Rattle.sc_values.specs.Runs.{IsAdmissible};
ghost use Rattle.sc_graph.specs.Machine.{machine};
ghost use Rattle.sc_graph.specs.Program.{kinds};
ghost use Rattle.sc_graph.specs.Priority.{PriorityRun};
ghost use Rattle.sc_graph.specs.Control.{IsEnabled};
ghost use Rattle.sc_graph.specs.Steps.{step};
ghost use Rattle.sc_graph.specs.Tick.{IsConfiguration, Rests, AreAccepted};
ghost use Rattle.tick_core.specs.Claims.{Claim as OpenClaim};
ghost use Rattle.tick_core.specs.Events.{begun};
ghost use Rattle.tick_core.specs.State.{IsFresh, BeginsTick, threads_of};
ghost use Rattle.tick_core.specs.Turns.{AreReady};

mod claiming;
mod ending;
mod first_rows;
mod going_on;
mod listing;
mod parking;
mod running;
mod taking;

use crate::buckets::Rows;
use crate::claim::Claim;
use crate::copying::copied;
use crate::given::Given;
use crate::history::Entry;
use crate::inputs::{Inputs, are_accepted};
use crate::joins::Joins;
use crate::kept_claim::KeptClaim;
use crate::listed::Listed;
use crate::sorting::rows_of;
use crate::started_twice::start_twice;
use crate::starting::start;
use bytecode::Image;
pub(crate) use ending::present_value;
pub(crate) use first_rows::kinds_of;
use listing::begin_listed;
pub use parking::ParkedSpace;
use sc_graph::{Control, Program, ThreadId};
use sc_values::{Kind, Name, Value};
use sqlite_items::Items;
use std::alloc::{AllocError, AllocFailed, Global};
use std::marker::Model;
pub use taking::NextStep;
use verifier::Verified;

/// Why a tick was not begun. It prints as the number of the fault.
#[derive(Clone, Copy, Debug, PartialEq, Eq)]
pub enum BeginFault {
    /// E51: an input names no input variable, has another kind, or comes twice.
    Input,
    /// E52: memory was refused.
    Memory,
}

impl From<AllocError> for BeginFault {
    ghost use Rattle.tick_core.specs.declared.state.BeginFault.TheVariants.{Memory};

    ghost from_gives = { λ _ e. e ≡ Memory };

    fn from(_error: AllocError) -> BeginFault {
        BeginFault::Memory
    }
}

impl<T: Drop> From<AllocFailed<T>> for BeginFault {
    ghost use Rattle.tick_core.specs.declared.state.BeginFault.TheVariants.{Memory};

    ghost from_gives = { λ _ e. e ≡ Memory };

    fn from(_error: AllocFailed<T>) -> BeginFault {
        BeginFault::Memory
    }
}

/// A tick under way. Its history is a priority run from its start to the present configuration, and
/// each open claim could be committed now.
#[derive(Drop)]
pub struct TickState<'a> {
    verified: &'a Verified,
    joins: Joins,
    // the threads that can be claimed, by priority
    rows: Rows,
    variable_kinds: Vec<Kind>,
    begun: Control,
    present: Control,
    // with room for the budget
    history: Vec<Entry>,
    // the open ones, by thread; how many they are, and the priority of their threads
    claims: Vec<Option<KeptClaim>>,
    claimed: usize,
    level: u16,
    // by thread that waits: how many of the children for whom it waits have not ended
    living: Vec<usize>,
    // what was given to the variables
    given: Given,
    // the threads that the next tick has to look at
    listed: Listed,
}

impl<'a> Model for TickState<'a> {
    ghost use Rattle.std.specs.Prelude.{◌≡◌, ◌≤◌, length, vec_capacity};
    ghost use Rattle.sc_graph.specs.Program.{kinds};
    ghost use Rattle.tick_core.specs.State.{InTick, Holds};
    ghost use Rattle.tick_core.specs.Space.Joins.{FindsForks};
    ghost use Rattle.tick_core.specs.Space.Living.{CountsLiving};
    ghost use Rattle.tick_core.specs.Space.Sorting.{AreSorted};
    ghost use Rattle.tick_core.specs.Inside.Astir.{FitsTick};
    ghost use Rattle.tick_core.specs.Inside.Turns.{OpenAt};

    ghost Value = { InTick };

    ghost view = { λ s. record {
      image = s.verified.now;
      begun = s.begun;
      present = s.present;
      history = s.history.items;
      claims = s.claims.items;
    } };

    ghost invariant = { λ s. Holds (record {
      image = s.verified.now;
      begun = s.begun;
      present = s.present;
      history = s.history.items;
      claims = s.claims.items;
    }) × (s.variable_kinds.items ≡ kinds s.verified.now.program)
        × (s.verified.now.tables.budget ≤ vec_capacity s.history) × FindsForks s.verified.now.program s.joins
        × AreSorted s.verified.now.program s.verified.now.tables s.present s.claims.items s.rows
        × OpenAt (record {
          image = s.verified.now;
          begun = s.begun;
          present = s.present;
          history = s.history.items;
          claims = s.claims.items;
        }) s.claimed s.level × CountsLiving s.verified.now.program s.present s.living.items
        × (length s.given ≡ length s.verified.now.program.variables)
        × FitsTick s.verified.now.program s.begun s.present s.listed };
}

/// What the ticks of one verified image take over from one another: the image, and the room that they
/// have. Contracts see the image.
#[derive(Drop)]
pub struct TickSpace<'a> {
    verified: &'a Verified,
    room: ParkedSpace,
}

impl<'a> Model for TickSpace<'a> {
    ghost use Rattle.bytecode.specs.Image.{Image};
    ghost use Rattle.tick_core.specs.Parked.{IsSpaceOf};

    ghost Value = { Image };

    ghost view = { λ r. r.verified.now };

    ghost invariant = { λ r. IsSpaceOf r.verified.now r.room };
}

/// What `claim` answers.
#[derive(Drop)]
pub enum Turn<'a> {
    /// A step to evaluate.
    Claim(Claim<'a>),
    /// Somebody is enabled, and every enabled thread of the greatest priority has an open claim.
    NoneNow,
    /// The tick is over: nobody is enabled.
    Over,
}

/// E53: no open claim equals it: it was committed, given back or dropped, or is none of this tick.
#[derive(Clone, Copy, Debug, PartialEq, Eq)]
pub struct StaleClaim;

/// The place of a committed step in the history, from 0.
#[derive(Clone, Copy, PartialEq, Eq)]
pub struct Receipt {
    pub at: u32,
}

/// Begins a tick of a verified image from a configuration that rests. TickSpace for all that later calls
/// fill is made here. `Input` where the inputs are not accepted, else `Memory` where memory was
/// refused. The configuration is untouched.
pub fn begin<'a>(
    alloc: Global,
    verified: &'a Verified,
    control: &Control,
    inputs: &Inputs,
) -> Result<TickState<'a>, BeginFault>
    requires { Rests verified.now.program control.now }
    ensures accepted { IfOk result (λ _. AreAccepted verified.now.program inputs.now) }
    ensures start { IfOk result (λ s. s ≡ begun verified.now inputs.now control.now) }
    ensures refused { IsErrOf result BeginFault.Input ↔ ¬ (AreAccepted verified.now.program inputs.now) }
{
    match TickSpace::of(alloc, verified) {
        Ok(room) => room.begin(alloc, control, inputs),
        Err(_) => Err(refused(verified.image().program(), inputs.as_slice())),
    }
}

// Why a tick is not begun for which there is no memory.
fn refused(program: &Program, inputs: &[(Name, Value)]) -> BeginFault
    ensures { result ≡ BeginFault.Input ↔ ¬ (AreAccepted program.now inputs.now) }
{
    if are_accepted(program, inputs) {
        BeginFault::Memory
    } else {
        BeginFault::Input
    }
}

impl<'a> TickSpace<'a> {
    /// TickSpace for the ticks of a verified image.
    pub fn of(alloc: Global, verified: &'a Verified) -> Result<TickSpace<'a>, AllocError>
        ensures { IfOk result (λ r. r ≡ verified.now) }
    {
        let joins = Joins::of(alloc, verified)?;
        let given = Given::of(alloc, verified.image().program())?;
        let rows = rows_of(alloc, verified)?;
        let mut room = ParkedSpace::bare(alloc, joins, rows, given);
        match room.fill(alloc, verified) {
            Ok(()) => Ok(TickSpace { verified, room }),
            Err(refused) => {
                drop(room);
                Err(refused)
            }
        }
    }

    /// Begins a tick of the image as the function `begin` does, in the room that an earlier one left.
    pub fn begin(
        self,
        alloc: Global,
        control: &Control,
        inputs: &Inputs,
    ) -> Result<TickState<'a>, BeginFault>
        requires { Rests self.program control.now }
        ensures accepted { IfOk result (λ _. AreAccepted self.entry.program inputs.now) }
        ensures start { IfOk result (λ s. s ≡ begun self.entry inputs.now control.now) }
        ensures refused { IsErrOf result BeginFault.Input ↔ ¬ (AreAccepted self.entry.program inputs.now) }
    {
        match copied(alloc, control) {
            Ok(control) => self.go_on(control, inputs),
            Err(_) => {
                let fault = refused(self.verified.image().program(), inputs.as_slice());
                drop(self);
                Err(fault)
            }
        }
    }

    /// Begins a tick of the image as `begin` does, from a configuration that is given up: the tick takes
    /// its place, and no memory.
    pub fn go_on(self, control: Control, inputs: &Inputs) -> Result<TickState<'a>, BeginFault>
        requires { Rests self.program control }
        ensures accepted { IfOk result (λ _. AreAccepted self.entry.program inputs.now) }
        ensures start { IfOk result (λ s. s ≡ begun self.entry inputs.now control) }
        ensures refused { OnErr result (¬ (AreAccepted self.entry.program inputs.now)) }
        ensures why { result ≢ Err BeginFault.Memory }
    {
        let TickSpace { verified, mut room } = self;
        let program = verified.image().program();
        if !room.given.take(program, inputs.as_slice()) {
            drop(room);
            drop(control);
            return Err(BeginFault::Input);
        }
        let mut begun = control;
        if room.list_present(verified, &begun) {
            start_twice(
                program,
                room.given.values(),
                room.listed.as_slice(),
                &mut begun,
                &mut room.spare,
            );
            return Ok(begin_listed(verified, room, begun));
        }
        start(program, room.given.values(), &mut begun);
        Ok(TickSpace { verified, room }.begin_again(begun))
    }
}

impl<'a> TickState<'a> {
    /// The image.
    pub fn image(&self) -> &Image
        ensures { result.now ≡ self.now.image }
    {
        self.verified.image()
    }

    /// The configuration in which the tick began.
    pub fn begun(&self) -> &Control
        ensures value { result.now ≡ self.now.begun }
        ensures begins { BeginsTick self.now.image.program result.now }
    {
        &self.begun
    }

    /// The present configuration, which is one of the program. Each enabled thread has a step
    /// there.
    pub fn present(&self) -> &Control
        ensures value { result.now ≡ self.now.present }
        ensures configuration { IsConfiguration self.now.image.program result.now }
        ensures defined { (t : ℕ) → IsEnabled self.now.image.program result.now t
            → IsSome (step self.now.image.program t result.now) }
    {
        &self.present
    }

    /// The steps since, in their order: an admissible priority run, within the budget.
    pub fn history(&self) -> &[Entry]
        ensures value { result.now ≡ self.now.history }
        ensures by_priority { PriorityRun self.now.image.program self.now.image.tables
            (threads_of result.now) self.now.begun self.now.present }
        ensures admissible { IsAdmissible (machine self.now.image.program) (threads_of result.now) self.now.begun }
        ensures within { length result.now ≤ self.now.image.tables.budget }
    {
        self.history.as_slice()
    }

    /// The open claims, by thread. Each could be committed now: its thread is enabled and of the greatest
    /// priority, and its node, code and operands are the present ones.
    pub fn open_claims(&self) -> &[Option<KeptClaim>]
        ensures value { result.now ≡ self.now.claims }
        ensures places { length result.now ≡ length self.now.image.program.threads }
        ensures fresh { (t : ℕ) (a : OpenClaim) → slice_get result.now t ≡ Some (Some a)
            → IsFresh self.now.image.program self.now.image.tables self.now.present (length self.now.history) t a }
    {
        self.claims.as_slice()
    }

    /// The enabled threads without an open claim whose node or join has this priority, each once, in
    /// any order.
    pub fn ready(&self, priority: u16) -> &[ThreadId]
        ensures { AreReady self.now priority result.now }
    {
        self.rows.row(priority)
    }
}
