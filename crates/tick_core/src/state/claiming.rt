//! Claims on a tick, and what is committed and given back.

ghost use Rattle.std.specs.Prelude.{ℕ, ◌≡◌, ◌↔◌, ◌<◌, ◌≤◌, IsTrue, IsSome, IfOk, OnOk, OnErr, MatchOption, Some, None};
ghost use Rattle.std.specs.Prelude.{length, slice_get, slice_set, count_by, is_some};
ghost use Rattle.sc_graph.specs.Control.{status_of};
ghost use Rattle.sc_graph.specs.Priority.{Leads};
ghost use Rattle.sc_graph.specs.Tables.{priority_of};
ghost use Rattle.sc_graph.specs.Program.{kinds as variable_kinds};
ghost use Rattle.sc_graph.specs.Tick.{IsConfiguration};
ghost use Rattle.tick_core.specs.Stepping.{node_of, code_at};
ghost use Rattle.tick_core.specs.Inside.Work.{HasFormedCode, IsWork};
ghost use Rattle.tick_core.specs.State.{IsFresh};
ghost use Rattle.tick_core.specs.Turns.{claim_of, Answers, Commits, GivesBack, IsRefused, IsOpen};
ghost use Rattle.tick_core.specs.Events.{Happens, Asks, Brings, Returns};
ghost use Rattle.tick_core.specs.Inside.Turns.{NothingToClaim, IsUnclaimed, IsNew, MayCommit};

use crate::claim::{Claim, Done};
use crate::kept_claim::KeptClaim;
use crate::leading::priority;
use crate::sorting::sort;
use crate::state::{Receipt, StaleClaim, TickState, Turn};
use crate::stepping::code_at;
use sc_graph::{Control, NodeId, Program, Status, ThreadId};
use sc_values::{CheckedCode, Kind, Operands};

impl<'a> TickState<'a> {
    /// A step for a worker, numbered 0 to 8: of an enabled thread of the greatest priority that has
    /// no open claim. `NoneNow` where each of them has one; `Over` where nobody is enabled. The
    /// claim is open from then on.
    pub fn claim(&mut self, worker: u8) -> Turn<'a>
        requires { worker ≤ 8 }
        ensures answers { Answers self.old self.new worker result }
        ensures happens { Happens (Asks worker) self.old self.new }
    {
        let Some(thread) = self.unclaimed() else {
            return self.unanswered();
        };
        let claim = self.new_claim(worker, thread);
        self.open(&claim);
        Turn::Claim(claim)
    }

    /// Takes the step of an open claim that was evaluated, writes its thread and worker into the
    /// history, and closes it. `StaleClaim` where no open claim equals it in every field: nothing
    /// changes.
    pub fn commit(&mut self, done: &Done<'_>) -> Result<Receipt, StaleClaim>
        ensures committed { IfOk result (λ receipt. Commits self.old self.new done.now receipt.at) }
        ensures refused { OnErr result (IsRefused self.old self.new done.now.claim) }
        ensures happens { Happens (Brings done.now) self.old self.new }
    {
        self.check_open(done.claim())?;
        let claim = done.claim();
        let at = self.commits();
        let status = self.present.status(claim.thread());
        let _next = self.advance(claim.thread(), status, claim.worker(), done.value());
        Ok(Receipt { at })
    }

    /// Closes an open claim. `StaleClaim` where no open claim equals it in every field: nothing
    /// changes.
    pub fn give_back(&mut self, claim: &Claim<'_>) -> Result<(), StaleClaim>
        ensures given_back { OnOk result (GivesBack self.old self.new claim.now) }
        ensures refused { OnErr result (IsRefused self.old self.new claim.now) }
        ensures happens { Happens (Returns claim.now) self.old self.new }
    {
        self.check_open(claim)?;
        self.close(claim.thread());
        Ok(())
    }

    // A leading thread that has no open claim.
    pub(super) fn unclaimed(&self) -> Option<ThreadId>
        ensures { MatchOption result (NothingToClaim self.now) (IsUnclaimed self.now) }
    {
        let Some(thread) = self.rows.first() else {
            return None;
        };
        if self.claimed == 0 {
            return Some(thread);
        }
        if self.priority(thread) == self.level {
            Some(thread)
        } else {
            None
        }
    }

    // The answer where there is nothing to claim.
    fn unanswered(&self) -> Turn<'a>
        requires { NothingToClaim self.now }
        ensures { (worker : ℕ) → Answers self.now self.now worker result }
    {
        if self.is_over() {
            Turn::Over
        } else {
            Turn::NoneNow
        }
    }

    // The priority of a thread as it stands.
    fn priority(&self, thread: ThreadId) -> u16
        ensures { result ≡ priority_of self.now.image.tables (status_of self.now.present thread) }
    {
        priority(self.verified.image().tables(), self.present.status(thread))
    }

    // A claim of a leading thread, as things stand.
    fn new_claim(&self, worker: u8, thread: ThreadId) -> Claim<'a>
        requires leads { Leads self.now.image.program self.now.image.tables self.now.present thread }
        requires worker { worker ≤ 8 }
        ensures { IsNew self.now worker thread result }
    {
        let program = self.verified.image().program();
        let status = self.present.status(thread);
        let (code, operands) = work_at(program, &self.variable_kinds, &self.present, status);
        Claim::of(
            worker,
            thread,
            node_at(status),
            code,
            operands,
            self.commits(),
        )
    }

    // Puts a claim at the place of its thread, which had none.
    fn open(&mut self, claim: &Claim<'a>)
        requires fresh { IsFresh self.old.image.program self.old.image.tables self.old.present
            (length self.old.history) claim.now.thread claim.now }
        requires unclaimed { claim_of self.old claim.now.thread ≡ Some None }
        ensures { self.new ≡ record self.old { claims = slice_set self.old.claims claim.now.thread (Some claim.now) } }
    {
        let thread = claim.thread();
        self.level = self.priority(thread);
        self.claims[thread as usize] = Some(claim.kept());
        self.claimed += 1;
        self.rows.set(thread, None);
    }

    // Closes the claim of a thread.
    fn close(&mut self, thread: ThreadId)
        requires { thread < length self.old.claims }
        ensures { self.new ≡ record self.old { claims = slice_set self.old.claims thread None } }
    {
        close_one(&mut self.claims, &mut self.claimed, thread);
        let image = self.verified.image();
        sort(
            image.program(),
            image.tables(),
            &self.present,
            &self.living,
            &self.claims,
            self.claimed,
            &mut self.rows,
            thread,
        );
    }

    // Whether this very claim is open. `StaleClaim`: it isn't.
    fn check_open(&self, claim: &Claim<'_>) -> Result<(), StaleClaim>
        ensures is_open { OnOk result (MayCommit self.now claim.now) }
        ensures stale { OnErr result (¬ IsOpen self.now claim.now) }
    {
        if is_open(&self.claims, claim) {
            Ok(())
        } else {
            Err(StaleClaim)
        }
    }

    // How many steps were taken.
    fn commits(&self) -> u32
        ensures { result ≡ length self.now.history }
    {
        self.history.len() as u32
    }
}

/// Closes the claim of a thread, where it has one. So many are open.
#[tactic(auto, using(crate::proofs::Opened::none_there, crate::proofs::Opened::none_counted_there))]
pub(super) fn close_one(claims: &mut Vec<Option<KeptClaim>>, claimed: &mut usize, thread: ThreadId)
    requires place { thread < length claims.old.items }
    requires counted { claimed.old ≡ count_by is_some claims.old.items }
    ensures closed { claims.new.items ≡ slice_set claims.old.items thread None }
    ensures counted { claimed.new ≡ count_by is_some claims.new.items }
{
    if *claimed == 0 {
        return;
    }
    if claims[thread as usize].is_some() {
        *claimed -= 1;
        claims[thread as usize] = None;
    }
}

// Whether this very claim stands among the open ones.
fn is_open(claims: &[Option<KeptClaim>], claim: &Claim<'_>) -> bool
    ensures { IsTrue result ↔ (slice_get claims.now claim.now.thread ≡ Some (Some claim.now)) }
{
    match claims.get(claim.thread() as usize) {
        Some(Some(found)) => found.is_same(claim),
        _ => false,
    }
}

// The node at which an enabled thread that stands so takes its step.
fn node_at(status: Status) -> NodeId
    requires { IsSome (node_of status) }
    ensures { node_of status ≡ Some result }
{
    match status {
        Status::At(node) | Status::Waiting(node) => node,
        Status::Absent | Status::Paused(_) | Status::Ended => unreachable!(),
    }
}

// The code of the step from a status, where it has one, and the present values of what it loads.
fn work_at<'a>(
    program: &'a Program,
    kinds: &[Kind],
    control: &Control,
    status: Status,
) -> (Option<CheckedCode<'a>>, Operands)
    requires kinds { kinds.now ≡ variable_kinds program.now }
    requires configuration { IsConfiguration program.now control.now }
    requires formed { HasFormedCode program.now (code_at program.now status) }
    ensures { IsWork program.now control.now status result.0 result.1 }
{
    match code_at(program, status) {
        Some(code) => (
            Some(CheckedCode::known(code, kinds)),
            Operands::present(code, control.variables.as_slice()),
        ),
        None => (None, Operands::new()),
    }
}
