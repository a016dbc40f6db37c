//! The start of a tick in two configurations at once: the present one, and the one that tells how the tick began.

ghost use Rattle.std.specs.Prelude.{◌≡◌, length, map};
ghost use Rattle.sc_graph.specs.Tick.{Inputs, statuses_at_start, start, values_at_start, woken};
ghost use Rattle.tick_core.specs.Inside.Astir.{AstirListed, ChangedListed};
ghost use Rattle.tick_core.specs.Space.Given.{Gives};
ghost use Rattle.tick_core.specs.Space.There.{copied_at, woken_at};

use crate::starting::{enter_root, started_value, woken};
use crate::stepping::put_status;
use sc_graph::{Control, Program, Status, ThreadId, Variable};
use sc_values::Value;
use sqlite_items::Items;

/// The same as `start` where all threads that are astir are listed: it looks at no other. Makes another configuration
/// the same, in which whoever stands otherwise is listed.
pub(crate) fn start_twice(
    program: &Program,
    given: &[Option<Value>],
    listed: &[ThreadId],
    control: &mut Control,
    other: &mut Control,
)
    requires values { length control.old.variables ≡ length program.now.variables }
    requires given { length given.now ≡ length program.now.variables }
    requires listed { AstirListed control.old.statuses listed.now }
    requires changed { ChangedListed control.old.statuses other.old.statuses listed.now }
    requires places { length other.old.statuses ≡ length control.old.statuses }
    requires others { length other.old.variables ≡ length control.old.variables }
    ensures start { (inputs : Inputs) → Gives program.now.variables inputs given.now
        → control.new ≡ start program.now inputs control.old }
    ensures statuses { control.new.statuses ≡ statuses_at_start program.now control.old.statuses }
    ensures values { length control.new.variables ≡ length control.old.variables }
    ensures same { other.new ≡ control.new }
{
    start_values_twice(
        program.variables(),
        given,
        &mut control.variables,
        &mut other.variables,
    );
    start_statuses_twice(program, listed, &mut control.statuses, &mut other.statuses);
}

fn start_values_twice(
    variables: &[Variable],
    given: &[Option<Value>],
    values: &mut Items<Value>,
    others: &mut Items<Value>,
)
    requires values { length values.old ≡ length variables.now }
    requires given { length given.now ≡ length variables.now }
    requires others { length others.old ≡ length values.old }
    ensures start { (inputs : Inputs) → Gives variables.now inputs given.now
        → values.new ≡ values_at_start inputs variables.now values.old }
    ensures places { length values.new ≡ length values.old }
    ensures same { others.new ≡ values.new }
{
    for x in 0..variables.len() {
        let present = values.as_slice()[x];
        let given = given[x];
        let value = started_value(&variables[x], given, present);
        values.set(x, value);
        others.set(x, value);
    }
}

fn start_statuses_twice(
    program: &Program,
    listed: &[ThreadId],
    statuses: &mut Items<Status>,
    others: &mut Items<Status>,
)
    requires listed { AstirListed statuses.old listed.now }
    requires changed { ChangedListed statuses.old others.old listed.now }
    requires places { length others.old ≡ length statuses.old }
    ensures start { statuses.new ≡ statuses_at_start program.now statuses.old }
    ensures same { others.new ≡ statuses.new }
{
    wake_twice(listed, statuses, others);
    enter_root(program, statuses);
    enter_root(program, others);
}

fn wake_twice(listed: &[ThreadId], statuses: &mut Items<Status>, others: &mut Items<Status>)
    requires listed { AstirListed statuses.old listed.now }
    requires changed { ChangedListed statuses.old others.old listed.now }
    requires places { length others.old ≡ length statuses.old }
    ensures woken { statuses.new ≡ map woken statuses.old }
    ensures same { others.new ≡ statuses.new }
{
    for at in 0..listed.len() {
        let thread = listed[at];
        wake_one_twice(statuses, others, thread);
    }
}

// Wakes a thread, and makes it stand so by the others too.
fn wake_one_twice(statuses: &mut Items<Status>, others: &mut Items<Status>, thread: ThreadId)
    ensures woken { statuses.new ≡ woken_at statuses.old thread }
    ensures same { others.new ≡ copied_at statuses.new others.old thread }
{
    let at = thread as usize;
    if at < statuses.len() {
        let status = woken(statuses.as_slice()[at]);
        statuses.set(at, status);
        put_status(others, thread, status);
    }
}
