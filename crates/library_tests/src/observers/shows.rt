//! What the tests share: the end of a tick, and what a look shows.
ghost use Rattle.probe.specs.Progress.{Extends};

use probe::{Observer, Output, TickEnd};
use sc_graph::Control;
use sc_values::Value;
use sqlite_items::Items;
use std::alloc::Global;
use verifier::Verified;

// The configuration with these numbers in the variables, and no thread.
fn control_of(alloc: Global, numbers: &[i32]) -> Option<Control> {
    let mut variables = Items::new(alloc);
    for number in numbers {
        variables.push(Value::Int(*number)).ok()?;
    }
    Some(Control {
        variables,
        statuses: Items::new(alloc),
    })
}

/// The end of a tick that leaves these numbers in the variables. None: memory was refused.
pub(crate) fn end_with(alloc: Global, image: &Verified, numbers: &[i32]) -> Option<TickEnd> {
    let control = control_of(alloc, numbers)?;
    Some(TickEnd::of(image, &control))
}

// Whether an output is an integer with a name of one letter, this.
fn is(output: &Output, letter: u8, number: i32) -> bool {
    output.name.as_bytes() == [letter].as_slice() && output.value == Value::Int(number)
}

/// Whether outputs are integers with names of one letter, these.
pub(crate) fn are(outputs: &[Output], wanted: &[(u8, i32)]) -> bool {
    let mut same = outputs.len() == wanted.len();
    for (output, (letter, number)) in outputs.iter().zip(wanted) {
        same = is(output, *letter, *number) && same;
    }
    same
}

/// Whether a look shows so many ticks, and the outputs x and y with this number each.
pub(crate) fn shows(observer: &mut Observer, ticks: u64, number: i32) -> bool
    ensures { Extends observer.old observer.new }
{
    let seen = observer.look();
    seen.ticks == ticks && are(seen.outputs.outputs(), &[(b'x', number), (b'y', number)])
}
