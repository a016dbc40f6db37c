//! The start of a tick from the end of the one before, which the machine has kept itself.

ghost use Rattle.std.specs.Prelude.{◌≡◌, ◌≢◌, ◌<◌, OnErr, OnOk, length};
ghost use Rattle.sc_values.specs.Runs.{IsOver};
ghost use Rattle.sc_graph.specs.Machine.{machine};
ghost use Rattle.sc_graph.specs.Tick.{AreAccepted, Inputs as Given, start as at_start};
ghost use Rattle.tick_core.specs.Events.{begun};
ghost use Rattle.tick_core.specs.Inside.Astir.{Covers, FitsTick};
ghost use Rattle.tick_core.specs.Space.Given.{Gives, HasPlaces};

use crate::inputs::Inputs;
use crate::listed::Listed;
use crate::sorting::sort_listed;
use crate::started_twice::start_twice;
use crate::state::{BeginFault, TickState};
use sc_graph::{Control, Program};
use sc_values::Value;

impl<'a> TickState<'a> {
    /// Of a tick that is over: begins the next one of the image, from the configuration in which it ended. It takes no
    /// memory, and looks at no thread that ended before it began. `Input` as of `begin`: nothing has changed then.
    pub fn go_on(&mut self, inputs: &Inputs) -> Result<(), BeginFault>
        requires { IsOver (machine self.old.image.program) self.old.present }
        ensures accepted { OnOk result (AreAccepted self.old.image.program inputs.now) }
        ensures start { OnOk result (self.new ≡ begun self.old.image inputs.now self.old.present) }
        ensures refused { OnErr result (¬ (AreAccepted self.old.image.program inputs.now)) }
        ensures same { OnErr result (self.new ≡ self.old) }
        ensures why { result ≢ Err BeginFault.Memory }
    {
        let image = self.verified.image();
        let program = image.program();
        if !self.given.take(program, inputs.as_slice()) {
            return Err(BeginFault::Input);
        }
        start_anew(
            program,
            self.given.values(),
            &mut self.listed,
            &mut self.begun,
            &mut self.present,
        );
        self.history.clear();
        sort_listed(
            program,
            image.tables(),
            &self.present,
            &self.living,
            self.listed.threads.as_slice(),
            &mut self.rows,
        );
        Ok(())
    }
}

// Makes of the configuration in which a tick ended the start of the next one, under what is given, and of that in which
// it began the same.
fn start_anew(
    program: &Program,
    given: &[Option<Value>],
    listed: &mut Listed,
    begun: &mut Control,
    present: &mut Control,
)
    requires fits { FitsTick program.now begun.old present.old listed.old }
    requires root { 0 < length program.now.threads }
    requires begun { HasPlaces program.now begun.old }
    requires present { HasPlaces program.now present.old }
    requires given { length given.now ≡ length program.now.variables }
    ensures start { (inputs : Given) → Gives program.now.variables inputs given.now
        → present.new ≡ at_start program.now inputs present.old }
    ensures same { begun.new ≡ present.new }
    ensures fits { FitsTick program.now begun.new present.new listed.new }
    ensures covers { Covers begun.new.statuses present.new.statuses listed.new.threads.items }
{
    listed.make_whole(program);
    start_twice(program, given, listed.threads.as_slice(), present, begun);
    listed.leave_out_gone(present);
    listed.is_whole = true;
    listed.is_all = false;
}
