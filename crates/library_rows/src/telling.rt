//! What is told of values, kinds, places and configurations.

use crate::answers::Answers;
use sc_graph::{Control, Place, Status};
use sc_values::{Kind, Value};

/// A value behind a space, or `none`.
pub(crate) fn tell_any(answers: &mut Answers, value: Option<Value>) {
    match value {
        Some(value) => answers.value(value),
        None => answers.tell(" none"),
    }
}

/// The word of a kind.
pub(crate) fn word_of_kind(kind: Option<Kind>) -> &'static str {
    match kind {
        Some(Kind::Int) => "int",
        Some(Kind::Bool) => "bool",
        None => "none",
    }
}

fn tell_status(answers: &mut Answers, status: Status) {
    match status {
        Status::Absent => answers.tell(" absent"),
        Status::At(node) => answers.tell_with(" at:", node as usize),
        Status::Waiting(node) => answers.tell_with(" waits:", node as usize),
        Status::Paused(node) => answers.tell_with(" paused:", node as usize),
        Status::Ended => answers.tell(" ended"),
    }
}

/// The values of a configuration, and where its threads stand.
pub(crate) fn tell_control(answers: &mut Answers, control: &Control) {
    answers.tell(" values");
    answers.values(control.variables.as_slice());
    answers.tell("; stand");
    for status in control.statuses.as_slice() {
        tell_status(answers, *status);
    }
}

/// A place behind a space, or `none`.
pub(crate) fn tell_place(answers: &mut Answers, place: Option<Place>) {
    match place {
        None => answers.tell(" none"),
        Some(Place::Image) => answers.tell(" image"),
        Some(Place::Variable(x)) => answers.tell_with(" variable ", x as usize),
        Some(Place::Thread(t)) => answers.tell_with(" thread ", t as usize),
        Some(Place::Node(n)) => answers.tell_with(" node ", n as usize),
        Some(Place::Pair(n, m)) => {
            answers.tell_with(" nodes ", n as usize);
            answers.tell_with(" ", m as usize);
        }
    }
}
