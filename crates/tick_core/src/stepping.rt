//! One step of a thread.

ghost use Rattle.std.specs.Prelude.{◌≡◌, [], ◌∷◌, map, IsSome, IfSome, Some, option_map, slice_set};
ghost use Rattle.std.specs.Option.{option_copied};
ghost use Rattle.sc_graph.specs.Program.{entry_of};
ghost use Rattle.sc_graph.specs.Control.{status_of};
ghost use Rattle.sc_graph.specs.Steps.{Keep, Put, Combine, enters, moved, after, node_effect, step};
ghost use Rattle.tick_core.specs.Stepping.{code_at};
ghost use Rattle.tick_core.specs.Inside.Work.{value_of, value_at};
ghost use Rattle.tick_core.specs.Space.Joins.{FindsForks};
ghost use Rattle.tick_core.specs.Inside.Onward.{MovesAloneAt, MovesAlone, IsOwnStep, step_here};

use crate::joins::Joins;
use sc_graph::{Control, NodeId, Program, Status, Step, ThreadId, VariableId};
use sc_values::{Code, Combination, Value};
use sqlite_items::Items;

/// Takes the defined step of a thread that stands so, whose code has this value over the present variables. Gives where
/// the thread comes to stand where nobody else is concerned. None: it forks or leaves others, or ends.
#[inline(always)]
pub(crate) fn take_step(
    joins: &Joins,
    program: &Program,
    control: &mut Control,
    thread: ThreadId,
    status: Status,
    value: Option<Value>,
) -> Option<Status>
    requires forks { FindsForks program.now joins.now }
    requires standing { status ≡ status_of control.old thread }
    requires defined { IsSome (step program.now thread control.old) }
    requires value { value ≡ value_at program.now control.old (status_of control.old thread) }
    ensures stepped { step program.now thread control.old ≡ Some control.new }
    ensures alone { IfSome result (MovesAlone program.now control.old control.new thread) }
{
    match status {
        Status::At(node) => match program.step(node) {
            Some(step) => take_step_at(program, control, thread, step, value),
            None => unreachable!(),
        },
        Status::Waiting(join) => match (joins.joined(program, join), program.step(join)) {
            (Some(children), Some(Step::Join { next })) => {
                leave(control, thread, children, *next);
                None
            }
            _ => unreachable!(),
        },
        Status::Absent | Status::Paused(_) | Status::Ended => unreachable!(),
    }
}

/// The step of a thread that stands so, where it stands at a node.
#[inline(always)]
pub(crate) fn step_at(program: &Program, status: Status) -> Option<&Step>
    ensures { option_copied result ≡ step_here program.now status }
{
    match status {
        Status::At(node) => program.step(node),
        Status::Absent | Status::Waiting(_) | Status::Paused(_) | Status::Ended => None,
    }
}

/// The code of the step from a status, where it has one.
#[inline(always)]
pub(crate) fn code_at(program: &Program, status: Status) -> Option<&Code>
    ensures { option_copied result ≡ code_at program.now status }
{
    let node = match status {
        Status::At(node) | Status::Waiting(node) => node,
        Status::Absent | Status::Paused(_) | Status::Ended => return None,
    };
    match program.step(node)? {
        Step::Assign { code, .. } | Step::Update { code, .. } | Step::Cond { code, .. } => {
            Some(code)
        }
        _ => None,
    }
}

// The step of a thread from a node, as of `take_step`.
#[inline(always)]
fn take_step_at(
    program: &Program,
    control: &mut Control,
    thread: ThreadId,
    step: &Step,
    value: Option<Value>,
) -> Option<Status>
    requires defined { IsSome (node_effect program.now control.old thread step.now) }
    requires value { value ≡ value_of control.old step.now }
    ensures stepped { option_map (λ e. after e control.old) (node_effect program.now control.old thread step.now)
        ≡ Some control.new }
    ensures alone { IfSome result (MovesAloneAt control.old control.new thread step.now) }
{
    match step {
        Step::Fork { children, join } => {
            fork(program, control, thread, children.as_slice(), *join);
            None
        }
        Step::Exit => {
            go(control, thread, Status::Ended);
            None
        }
        Step::Assign { .. }
        | Step::Update { .. }
        | Step::Cond { .. }
        | Step::Surf { .. }
        | Step::Depth { .. } => Some(take_own_step(program, control, thread, step, value)),
        Step::Join { .. } => unreachable!(),
    }
}

/// The step of a thread from a node, as of `take_step`, where it concerns nobody else. Gives where the thread comes to
/// stand.
#[inline(always)]
pub(crate) fn take_own_step(
    program: &Program,
    control: &mut Control,
    thread: ThreadId,
    step: &Step,
    value: Option<Value>,
) -> Status
    requires own { IsOwnStep step.now }
    requires defined { IsSome (node_effect program.now control.old thread step.now) }
    requires value { value ≡ value_of control.old step.now }
    ensures stepped { option_map (λ e. after e control.old) (node_effect program.now control.old thread step.now)
        ≡ Some control.new }
    ensures alone { MovesAloneAt control.old control.new thread step.now result }
{
    match (step, value) {
        (Step::Assign { variable, next, .. }, Some(value)) => {
            assign(control, thread, *variable, value, *next);
            Status::At(*next)
        }
        (
            Step::Update {
                variable,
                combine,
                next,
                ..
            },
            Some(value),
        ) => {
            update(control, thread, *variable, *combine, value, *next);
            Status::At(*next)
        }
        (Step::Cond { then, other, .. }, Some(Value::Bool(holds))) => {
            let next = if holds { *then } else { *other };
            go(control, thread, Status::At(next));
            Status::At(next)
        }
        (Step::Surf { depth }, _) => {
            go(control, thread, Status::Paused(*depth));
            Status::Paused(*depth)
        }
        (Step::Depth { next }, _) => {
            go(control, thread, Status::At(*next));
            Status::At(*next)
        }
        _ => unreachable!(),
    }
}

#[inline(always)]
fn assign(control: &mut Control, thread: ThreadId, variable: VariableId, value: Value, next: NodeId)
    ensures { control.new ≡ after (record {
      change = Put variable value;
      moves = (thread, Status.At next) ∷ [];
    }) control.old }
{
    put_value(&mut control.variables, variable, value);
    put_status(&mut control.statuses, thread, Status::At(next));
}

#[inline(always)]
fn update(
    control: &mut Control,
    thread: ThreadId,
    variable: VariableId,
    combine: Combination,
    value: Value,
    next: NodeId,
)
    ensures { control.new ≡ after (record {
      change = Combine variable combine value;
      moves = (thread, Status.At next) ∷ [];
    }) control.old }
{
    let present = control.variables.as_slice().get(variable as usize).copied();
    if let Some(present) = present {
        put_value(
            &mut control.variables,
            variable,
            combine.combine(present, value),
        );
    }
    put_status(&mut control.statuses, thread, Status::At(next));
}

// The thread alone moves, and no variable changes.
#[inline(always)]
fn go(control: &mut Control, thread: ThreadId, status: Status)
    ensures { control.new ≡ after (record { change = Keep; moves = (thread, status) ∷ [] }) control.old }
{
    put_status(&mut control.statuses, thread, status);
}

#[inline(never)]
fn fork(
    program: &Program,
    control: &mut Control,
    thread: ThreadId,
    children: &[ThreadId],
    join: NodeId,
)
    ensures { control.new ≡ after (record {
      change = Keep;
      moves = (thread, Status.Waiting join) ∷ map
          (λ k. enters k (entry_of program.now k)) children.now;
    }) control.old }
{
    put_status(&mut control.statuses, thread, Status::Waiting(join));
    enter_all(program, &mut control.statuses, children);
}

fn enter_all(program: &Program, statuses: &mut Items<Status>, children: &[ThreadId])
    ensures { statuses.new ≡ moved (map (λ k. enters k (entry_of program.now k)) children.now) statuses.old }
{
    for child in children {
        let status = match program.entry(*child) {
            Some(entry) => Status::At(entry),
            None => Status::Absent,
        };
        put_status(statuses, *child, status);
    }
}

// The children of a finished fork become absent, and the thread goes on.
#[inline(never)]
fn leave(control: &mut Control, thread: ThreadId, children: &[ThreadId], next: NodeId)
    ensures { control.new ≡ after (record {
      change = Keep;
      moves = (thread, Status.At next) ∷ map
          (λ k. (k, Status.Absent)) children.now;
    }) control.old }
{
    put_status(&mut control.statuses, thread, Status::At(next));
    dismiss_all(&mut control.statuses, children);
}

fn dismiss_all(statuses: &mut Items<Status>, children: &[ThreadId])
    ensures { statuses.new ≡ moved (map (λ k. (k, Status.Absent)) children.now) statuses.old }
{
    for child in children {
        put_status(statuses, *child, Status::Absent);
    }
}

#[inline(always)]
fn put_value(values: &mut Items<Value>, variable: VariableId, value: Value)
    ensures { values.new ≡ slice_set values.old variable value }
{
    let at = variable as usize;
    if at < values.len() {
        values.set(at, value);
    }
}

/// Makes a thread stand so, where there is such a one.
#[inline(always)]
pub(crate) fn put_status(statuses: &mut Items<Status>, thread: ThreadId, status: Status)
    ensures { statuses.new ≡ slice_set statuses.old thread status }
{
    let at = thread as usize;
    if at < statuses.len() {
        statuses.set(at, status);
    }
}
