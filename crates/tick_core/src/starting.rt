//! The start of a tick.

ghost use Rattle.std.specs.Prelude.{◌≡◌, IfOk, length, map};
ghost use Rattle.sc_graph.specs.Program.{entry_of};
ghost use Rattle.sc_graph.specs.Tick.{Inputs, AreAccepted, given, value_at_start, values_at_start, woken};
ghost use Rattle.sc_graph.specs.Tick.{statuses_at_start, start};
ghost use Rattle.tick_core.specs.Space.Given.{HasOwnNames, Gives};
ghost use Rattle.tick_core.specs.Space.There.{root_at_entry};

use crate::copying::copied;
use crate::given::Given;
use sc_graph::{Control, Program, Role, Status, Variable};
use sc_values::{Name, Value};
use sqlite_items::Items;
use std::alloc::{AllocError, Global};

/// The start of a tick from this configuration, under inputs that are accepted.
pub(crate) fn started(
    alloc: Global,
    program: &Program,
    inputs: &[(Name, Value)],
    control: &Control,
) -> Result<Control, AllocError>
    requires names { HasOwnNames program.now.variables }
    requires accepted { AreAccepted program.now inputs.now }
    requires values { length control.now.variables ≡ length program.now.variables }
    ensures { IfOk result (λ c. c ≡ start program.now inputs.now control.now) }
{
    let mut given = Given::of(alloc, program)?;
    let mut control = copied(alloc, control)?;
    if given.take(program, inputs) {
        start(program, given.values(), &mut control);
    }
    Ok(control)
}

/// Makes of a configuration the start of a tick from it, under what is given: inputs are written, paused
/// threads come to stand at their depths, and an absent root at its entry.
pub(crate) fn start(program: &Program, given: &[Option<Value>], control: &mut Control)
    requires values { length control.old.variables ≡ length program.now.variables }
    requires given { length given.now ≡ length program.now.variables }
    ensures { (inputs : Inputs) → Gives program.now.variables inputs given.now
        → control.new ≡ start program.now inputs control.old }
{
    start_values(program.variables(), given, &mut control.variables);
    start_statuses(program, &mut control.statuses);
}

fn start_values(variables: &[Variable], given: &[Option<Value>], values: &mut Items<Value>)
    requires values { length values.old ≡ length variables.now }
    requires given { length given.now ≡ length variables.now }
    ensures start { (inputs : Inputs) → Gives variables.now inputs given.now
        → values.new ≡ values_at_start inputs variables.now values.old }
    ensures places { length values.new ≡ length values.old }
{
    for x in 0..variables.len() {
        let present = values.as_slice()[x];
        let given = given[x];
        values.set(x, started_value(&variables[x], given, present));
    }
}

/// The value of a variable as a tick starts, where this is given to it, and where it has that one.
pub(crate) fn started_value(variable: &Variable, value: Option<Value>, present: Value) -> Value
    ensures { (inputs : Inputs) → value ≡ given inputs variable.now.name
        → result ≡ value_at_start inputs variable.now variable.now.role present }
{
    match variable.role {
        Role::Input => match value {
            Some(value) => value,
            None => variable.kind.initial(),
        },
        Role::Output | Role::Local => present,
    }
}

fn start_statuses(program: &Program, statuses: &mut Items<Status>)
    ensures { statuses.new ≡ statuses_at_start program.now statuses.old }
{
    wake_all(statuses);
    enter_root(program, statuses);
}

fn wake_all(statuses: &mut Items<Status>)
    ensures { statuses.new ≡ map woken statuses.old }
{
    for t in 0..statuses.len() {
        let status = statuses.as_slice()[t];
        statuses.set(t, woken(status));
    }
}

/// Makes an absent root stand at its entry, where it has one.
#[tactic(auto, using(crate::proofs::ListedWoken::root_set, crate::proofs::ListedWoken::root_stays))]
pub(crate) fn enter_root(program: &Program, statuses: &mut Items<Status>)
    ensures { statuses.new ≡ root_at_entry (entry_of program.now 0) statuses.old }
{
    if let Some(Status::Absent) = statuses.get(0).copied() {
        if let Some(entry) = program.entry(0) {
            statuses.set(0, Status::At(entry));
        }
    }
}

/// A paused thread comes to stand at its depth.
pub(crate) fn woken(status: Status) -> Status
    ensures { result ≡ woken status }
{
    match status {
        Status::Paused(depth) => Status::At(depth),
        _ => status,
    }
}
