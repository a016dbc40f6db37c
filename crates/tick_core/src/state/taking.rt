//! Steps that are taken at once, without a claim.

ghost use Rattle.std.specs.Prelude.{◌≤◌, MatchOption};
ghost use Rattle.tick_core.specs.State.{Advances};
ghost use Rattle.tick_core.specs.Inside.Turns.{IsUnclaimed};
ghost use Rattle.tick_core.specs.Taking.{IsNextStep, NoNextStep};

use crate::state::TickState;
use crate::state::ending::present_value;
use sc_graph::ThreadId;
use sc_values::Value;

/// A step that is evaluated: of this thread, with the value of its code, where it has one.
#[derive(Clone, Copy)]
pub struct NextStep {
    pub thread: ThreadId,
    pub value: Option<Value>,
}

impl<'a> TickState<'a> {
    /// The step of an enabled thread of the greatest priority that has no open claim. None: nobody is enabled, or each
    /// of them has one.
    pub fn next_step(&self) -> Option<NextStep>
        ensures { MatchOption result (NoNextStep self.now) (IsNextStep self.now) }
    {
        match self.unclaimed() {
            Some(thread) => Some(self.evaluated(thread)),
            None => None,
        }
    }

    // The step of a thread, evaluated.
    fn evaluated(&self, thread: ThreadId) -> NextStep
        requires { IsUnclaimed self.now thread }
        ensures { IsNextStep self.now result }
    {
        let status = self.present.status(thread);
        let value = present_value(self.verified, &self.variable_kinds, &self.present, status);
        NextStep { thread, value }
    }

    /// Takes the next step at once for a worker, numbered 0 to 8, as the commit of its evaluated claim would.
    pub fn take(&mut self, worker: u8, step: NextStep)
        requires worker { worker ≤ 8 }
        requires next { IsNextStep self.old step }
        ensures { Advances self.old self.new step.thread worker }
    {
        let status = self.present.status(step.thread);
        let _next = self.advance(step.thread, status, worker, step.value);
    }
}
