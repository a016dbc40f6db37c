//! Resting configurations, and the one before the first tick.

ghost use Rattle.std.specs.Prelude.{◌≡◌, ◌↔◌, ℕ, map, length, IsTrue, IfOk, Contains};
ghost use Rattle.sc_values.specs.Operator.{initial_value};
ghost use Rattle.sc_graph.specs.Tick.{initial, Rests, IsPresent};
ghost use Rattle.sc_graph.specs.Inside.Fits.{HaveKinds, RestsAt, RestInPlace, ChildrenStand, AllChildrenStand};
ghost use Rattle.sc_graph.specs.Control.{status_of};

use crate::control::{Control, Status};
use crate::program::{Node, Program, Step, Thread, ThreadId, Variable};
use sc_values::Value;
use sqlite_items::Items;
use std::alloc::{AllocError, Global};

impl Control {
    /// The configuration before the first tick: every variable `false` or 0, every thread absent.
    /// Err: memory was refused.
    pub fn initial(alloc: Global, program: &Program) -> Result<Control, AllocError>
        ensures value { IfOk result (λ c. c ≡ initial program.now) }
        ensures rests { IfOk result (Rests program.now) }
    {
        let variables = initial_values(alloc, program.variables())?;
        let statuses = absent_statuses(alloc, program.threads())?;
        Ok(Control {
            variables,
            statuses,
        })
    }

    /// Whether this is a configuration of the program between two ticks: one value a variable, of
    /// its kind, and one status a thread; nobody at a node, who waits at a join of its own, who is
    /// paused at a depth of its own; and each child present exactly where its parent waits at the
    /// join of its fork.
    pub fn fits(&self, program: &Program) -> bool
        ensures { IsTrue result ↔ (Rests program.now self.now) }
    {
        if !have_kinds(program, self.variables.as_slice()) {
            return false;
        }
        if !rest_in_place(program, self) {
            return false;
        }
        all_children_stand(program, self)
    }
}

fn initial_values(alloc: Global, variables: &[Variable]) -> Result<Items<Value>, AllocError>
    ensures { IfOk result (λ values. values ≡ map (λ x. initial_value x.kind) variables.now) }
{
    let mut values = Items::new(alloc);
    for variable in variables {
        values.push(variable.kind.initial())?;
    }
    Ok(values)
}

fn absent_statuses(alloc: Global, threads: &[Thread]) -> Result<Items<Status>, AllocError>
    ensures { IfOk result (λ statuses. statuses ≡ map (λ _. Status.Absent) threads.now) }
{
    let mut statuses = Items::new(alloc);
    for _thread in threads {
        statuses.push(Status::Absent)?;
    }
    Ok(statuses)
}

fn have_kinds(program: &Program, values: &[Value]) -> bool
    ensures { IsTrue result ↔ (HaveKinds program.now values.now) }
{
    if values.len() != program.variables().len() {
        return false;
    }
    for (x, value) in values.iter().enumerate() {
        if program.variables()[x].kind != value.kind() {
            return false;
        }
    }
    true
}

fn rest_in_place(program: &Program, control: &Control) -> bool
    ensures { IsTrue result ↔ (RestInPlace program.now control.now) }
{
    if control.statuses.len() != program.threads().len() {
        return false;
    }
    for thread in 0..program.thread_count() {
        if !rests_at(program, thread, control.status(thread)) {
            return false;
        }
    }
    true
}

fn rests_at(program: &Program, thread: ThreadId, status: Status) -> bool
    ensures { IsTrue result ↔ RestsAt program.now thread status }
{
    match status {
        Status::At(_) => false,
        Status::Waiting(join) => program.is_join(thread, join),
        Status::Paused(depth) => program.is_depth(thread, depth),
        Status::Absent | Status::Ended => true,
    }
}

fn all_children_stand(program: &Program, control: &Control) -> bool
    ensures { IsTrue result ↔ (AllChildrenStand program.now control.now) }
{
    for node in program.nodes() {
        if !children_stand(control, node) {
            return false;
        }
    }
    true
}

fn children_stand(control: &Control, node: &Node) -> bool
    ensures { IsTrue result ↔ (ChildrenStand control.now node.now) }
{
    match &node.step {
        Step::Fork { children, join } => {
            let waits = control.status(node.owner) == Status::Waiting(*join);
            are_present(control, children.as_slice(), waits)
        }
        _ => true,
    }
}

fn are_present(control: &Control, children: &[ThreadId], wanted: bool) -> bool
    ensures { IsTrue result ↔ ((k : ℕ) → Contains children.now k → (IsPresent (status_of control.now k))
        ↔ IsTrue wanted) }
{
    for child in children {
        if control.status(*child).is_present() != wanted {
            return false;
        }
    }
    true
}
