//! The steps that are taken one after another, until a tick is over.

ghost use Rattle.std.specs.Prelude.{◌≡◌, ◌≤◌, MatchOption, Some, length};
ghost use Rattle.sc_values.specs.Runs.{IsOver};
ghost use Rattle.sc_graph.specs.Machine.{machine};
ghost use Rattle.sc_graph.specs.Control.{status_of};
ghost use Rattle.tick_core.specs.State.{Advances, GoesAlone, GoesBy};
ghost use Rattle.tick_core.specs.Inside.Work.{value_of};
ghost use Rattle.tick_core.specs.Inside.Onward.{IsOwnStep, step_here};
ghost use Rattle.tick_core.specs.Inside.Turns.{IsNext, IsUnclaimed, NothingToClaim};

use crate::short_codes::short_value;
use crate::state::TickState;
use crate::state::ending::present_value;
use crate::step_hook::{NoHook, StepHook};
use crate::stepping::step_at;
use sc_graph::{Status, Step, ThreadId};
use sc_values::Value;

impl<'a> TickState<'a> {
    /// Drops all open claims, and then steps as worker 0 until nobody is enabled.
    pub fn run_alone(&mut self)
        ensures over { IsOver (machine self.new.image.program) self.new.present }
        ensures alone { GoesAlone self.old self.new }
    {
        self.run_past(0, &NoHook);
    }

    /// Drops all open claims, and then steps as a worker, numbered 0 to 8, until nobody is enabled. Each step passes
    /// the hook when it is evaluated, before it is taken.
    #[tactic(auto, using(crate::proofs::LeadingThreads::run_steps, crate::proofs::LeadingThreads::run_is_over))]
    pub fn run_past<H: StepHook>(&mut self, worker: u8, hook: &H)
        requires { worker ≤ 8 }
        ensures over { IsOver (machine self.new.image.program) self.new.present }
        ensures by { GoesBy worker self.old self.new }
    {
        self.drop_claims();
        let mut next = self.leader();
        while let Some((thread, status)) = next {
            next = self.step_past(thread, status, worker, hook);
        }
    }

    // One step, of a thread that leads and stands so. Gives who steps next. A step that concerns others, or whose code
    // is not short, is taken by a call.
    #[inline(always)]
    fn step_past<H: StepHook>(
        &mut self,
        thread: ThreadId,
        status: Status,
        worker: u8,
        hook: &H,
    ) -> Option<(ThreadId, Status)>
        requires leads { IsNext self.old thread status }
        ensures step { Advances self.old self.new thread worker }
        ensures within { length self.new.history ≤ self.new.image.tables.budget }
        ensures next { MatchOption result (NothingToClaim self.new) (λ n. IsNext self.new n.0 n.1) }
    {
        let verified = self.verified;
        match step_at(verified.image().program(), status) {
            Some(step @ (Step::Surf { .. } | Step::Depth { .. })) => {
                return self.step_alone(thread, step, worker, None, hook);
            }
            Some(
                step @ (Step::Assign { code, .. }
                | Step::Update { code, .. }
                | Step::Cond { code, .. }),
            ) => {
                if let Some(value) = short_value(code, self.present.variables.as_slice()) {
                    return self.step_alone(thread, step, worker, Some(value), hook);
                }
            }
            _ => {}
        }
        self.step_by_call(thread, status, worker, hook);
        self.leader()
    }

    // The step of a thread that leads and stands at a node, where it concerns nobody else and has this value. Gives
    // who steps next: the same thread, where it surely leads on, else whom the rows tell.
    #[inline(always)]
    fn step_alone<H: StepHook>(
        &mut self,
        thread: ThreadId,
        step: &Step,
        worker: u8,
        value: Option<Value>,
        hook: &H,
    ) -> Option<(ThreadId, Status)>
        requires leads { IsUnclaimed self.old thread }
        requires at { step_here self.old.image.program (status_of self.old.present thread) ≡ Some step.now }
        requires own { IsOwnStep step.now }
        requires value { value ≡ value_of self.old.present step.now }
        ensures step { Advances self.old self.new thread worker }
        ensures within { length self.new.history ≤ self.new.image.tables.budget }
        ensures next { MatchOption result (NothingToClaim self.new) (λ n. IsNext self.new n.0 n.1) }
    {
        hook.passing(worker, thread);
        match self.advance_alone(thread, step, worker, value) {
            Some(status) => Some((thread, status)),
            None => self.leader(),
        }
    }

    // Any step of a thread that leads and stands so.
    #[inline(never)]
    fn step_by_call<H: StepHook>(&mut self, thread: ThreadId, status: Status, worker: u8, hook: &H)
        requires leads { IsNext self.old thread status }
        ensures step { Advances self.old self.new thread worker }
        ensures within { length self.new.history ≤ self.new.image.tables.budget }
    {
        let value = present_value(self.verified, &self.variable_kinds, &self.present, status);
        hook.passing(worker, thread);
        let _next = self.advance(thread, status, worker, value);
    }

    // A leading thread that has no open claim, and how it stands.
    #[inline(always)]
    fn leader(&self) -> Option<(ThreadId, Status)>
        ensures { MatchOption result (NothingToClaim self.now) (λ n. IsNext self.now n.0 n.1) }
    {
        match self.unclaimed() {
            Some(thread) => Some((thread, self.present.status(thread))),
            None => None,
        }
    }
}
