//! The end of a tick.

ghost use Rattle.std.specs.Prelude.{◌≡◌, ◌↔◌, ◌<◌, ◌≤◌, ◌==◌, ◌≢◌, Some, ℕ, IfSome, IsTrue, count_by, length};
ghost use Rattle.std.specs.Prelude.{slice_get, slice_index};
ghost use Rattle.sc_values.specs.Runs.{IsOver};
ghost use Rattle.sc_graph.specs.Machine.{machine};
ghost use Rattle.sc_graph.specs.Priority.{Leads, PriorityRun};
ghost use Rattle.sc_graph.specs.Tick.{IsConfiguration, Rests};
ghost use Rattle.sc_graph.specs.Program.{kinds as variable_kinds};
ghost use Rattle.sc_graph.specs.Control.{status_of};
ghost use Rattle.sc_graph.specs.Valid.{IsValid};
ghost use Rattle.tick_core.specs.Claims.{Claim as OpenClaim};
ghost use Rattle.tick_core.specs.Inside.Work.{value_at, value_of};
ghost use Rattle.tick_core.specs.Inside.Onward.{IsOwnStep, step_here};
ghost use Rattle.tick_core.specs.State.{Advances, threads_of};
ghost use Rattle.tick_core.specs.Whole.{WholeTick};
ghost use Rattle.tick_core.specs.Inside.Turns.{DropsClaims, IsNext};

use crate::history::{Entry, Report};
use crate::kept_claim::KeptClaim;
use crate::listed::Listed;
use crate::onward::{move_on, step_on};
use crate::short_codes::short_value;
use crate::sorting::sort_every;
use crate::state::claiming::close_one;
use crate::state::{ParkedSpace, TickSpace, TickState};
use crate::stepping::{code_at, take_own_step};
use crate::there::clear_unlisted;
use sc_graph::{Control, Status, Step, ThreadId};
use sc_values::{CheckedCode, Kind, Operands, Value, eval};
use sqlite_items::Items;
use verifier::Verified;

impl<'a> TickState<'a> {
    /// Whether nobody is enabled.
    pub fn is_over(&self) -> bool
        ensures { IsTrue result ↔ (IsOver (machine self.now.image.program) self.now.present) }
    {
        self.claimed == 0 && self.rows.is_empty()
    }

    // Closes all claims.
    pub(super) fn drop_claims(&mut self)
        ensures { DropsClaims self.old self.new }
    {
        if self.claimed > 0 {
            close_all(&mut self.claims);
            self.claimed = 0;
            let image = self.verified.image();
            sort_every(
                image.program(),
                image.tables(),
                &self.present,
                &self.living,
                &self.claims,
                0,
                &mut self.rows,
            );
        }
    }

    // The step of a leading thread that stands so, whose code has this value: it is done, written into the history,
    // and the thread's claim is closed. Gives how the thread stands where it surely leads on.
    #[inline(always)]
    pub(super) fn advance(
        &mut self,
        thread: ThreadId,
        status: Status,
        worker: u8,
        value: Option<Value>,
    ) -> Option<Status>
        requires leads { Leads self.old.image.program self.old.image.tables self.old.present thread }
        requires standing { status ≡ status_of self.old.present thread }
        requires value { value ≡ value_at self.old.image.program self.old.present (status_of self.old.present thread) }
        ensures step { Advances self.old self.new thread worker }
        ensures next { IfSome result (IsNext self.new thread) }
    {
        close_one(&mut self.claims, &mut self.claimed, thread);
        let image = self.verified.image();
        let next = step_on(
            &self.joins,
            image.program(),
            image.tables(),
            &self.claims,
            self.claimed,
            &mut self.present,
            &mut self.living,
            &mut self.rows,
            &mut self.listed,
            thread,
            status,
            value,
        );
        self.history.push_reserved(Entry { thread, worker });
        next
    }

    // As `advance`, of a leading thread that stands at a node, whose step concerns nobody else.
    #[inline(always)]
    pub(super) fn advance_alone(
        &mut self,
        thread: ThreadId,
        step: &Step,
        worker: u8,
        value: Option<Value>,
    ) -> Option<Status>
        requires leads { Leads self.old.image.program self.old.image.tables self.old.present thread }
        requires at { step_here self.old.image.program (status_of self.old.present thread) ≡ Some step.now }
        requires own { IsOwnStep step.now }
        requires value { value ≡ value_of self.old.present step.now }
        ensures step { Advances self.old self.new thread worker }
        ensures within { length self.new.history ≤ self.new.image.tables.budget }
        ensures next { IfSome result (IsNext self.new thread) }
    {
        let image = self.verified.image();
        let claims = &mut self.claims;
        close_one(claims, &mut self.claimed, thread);
        let next = take_own_step(image.program(), &mut self.present, thread, step, value);
        let stays = move_on(image.tables(), &mut self.rows, thread, next);
        let entry = Entry { thread, worker };
        self.history.push_reserved(entry);
        if stays { Some(next) } else { None }
    }

    /// Of a tick that is over: the configuration in which it ended, which rests and is its only
    /// end, and the report of its steps.
    pub fn finish(self) -> (Control, Report)
        requires { IsOver (machine self.image.program) self.present }
        ensures present { result.0 ≡ self.entry.present }
        ensures rests { Rests self.entry.image.program result.0 }
        ensures history { result.1.history ≡ self.entry.history }
        ensures tick { WholeTick self.entry.image self.entry.begun (threads_of result.1.history) result.0 }
        ensures by_priority { PriorityRun self.entry.image.program self.entry.image.tables
            (threads_of result.1.history) self.entry.begun result.0 }
        ensures by { (w : ℕ) → w < 9 → slice_index result.1.by w ≡ count_by (λ e. e.worker == w) self.entry.history }
    {
        let TickState {
            present,
            history,
            ..
        } = self;
        (present, Report::of(Items::from_vec(history)))
    }

    /// Of a tick that is over: the configuration in which it ended, as of `finish`, from which `go_on` begins the next.
    pub fn end(&self) -> &Control
        requires { IsOver (machine self.now.image.program) self.now.present }
        ensures present { result.now ≡ self.now.present }
        ensures rests { Rests self.now.image.program result.now }
        ensures tick { WholeTick self.now.image self.now.begun (threads_of self.now.history) result.now }
        ensures by_priority { PriorityRun self.now.image.program self.now.image.tables
            (threads_of self.now.history) self.now.begun result.now }
    {
        &self.present
    }

    /// Of a tick that is over: the configuration in which it ended, as of `finish`, and the room for the
    /// next tick of the image. The room keeps that of the history, which is to be read before.
    pub fn hand_over(self) -> (Control, TickSpace<'a>)
        requires { IsOver (machine self.image.program) self.present }
        ensures present { result.0 ≡ self.entry.present }
        ensures rests { Rests self.entry.image.program result.0 }
        ensures tick { WholeTick self.entry.image self.entry.begun (threads_of self.entry.history) result.0 }
        ensures by_priority { PriorityRun self.entry.image.program self.entry.image.tables
            (threads_of self.entry.history) self.entry.begun result.0 }
        ensures room { result.1 ≡ self.entry.image }
    {
        let TickState {
            verified,
            joins,
            rows,
            variable_kinds,
            mut begun,
            present,
            history,
            claims,
            claimed: _,
            level: _,
            living,
            given,
            listed,
        } = self;
        let Listed {
            threads,
            places,
            is_all,
            is_whole: _,
            may_be_gone: _,
        } = listed;
        clear_unlisted(is_all, &mut begun.statuses);
        let space = TickSpace {
            verified,
            room: ParkedSpace {
                joins,
                rows,
                variable_kinds,
                history,
                claims,
                living,
                given,
                spare: begun,
                listed: threads,
                places,
            },
        };
        (present, space)
    }
}

fn close_all(claims: &mut Vec<Option<KeptClaim>>)
    ensures length { length claims.new.items ≡ length claims.old.items }
    ensures none { (t : ℕ) (a : OpenClaim) → slice_get claims.new.items t ≢ Some (Some a) }
{
    for claim in claims.iter_mut() {
        *claim = None;
    }
}

/// The value of the code at which a thread stands that has this status, over the present variables.
#[inline(always)]
pub(crate) fn present_value(
    verified: &Verified,
    kinds: &[Kind],
    control: &Control,
    status: Status,
) -> Option<Value>
    requires kinds { kinds.now ≡ variable_kinds verified.now.program }
    requires configuration { IsConfiguration verified.now.program control.now }
    requires valid { IsValid verified.now.program verified.now.tables }
    requires standing { (t : ℕ) × (status ≡ status_of control.now t) }
    ensures { result ≡ value_at verified.now.program control.now status }
{
    let code = code_at(verified.image().program(), status)?;
    let variables = control.variables.as_slice();
    match short_value(code, variables) {
        Some(value) => Some(value),
        None => {
            let operands = Operands::present(code, variables);
            Some(eval(&CheckedCode::known(code, kinds), &operands))
        }
    }
}
