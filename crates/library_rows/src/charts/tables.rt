//! What is told of the table of a chart, row by row, and of where its regions stand.

use crate::answers::Answers;
use chart_machine::{Configuration, Standing, Table};

// Of each state the region that holds it and its own regions.
fn tell_states(table: &Table, answers: &mut Answers) {
    for (number, row) in table.states.as_slice().iter().enumerate() {
        answers.tell_with("state ", number);
        answers.tell_with(" in ", row.holder);
        answers.tell(" has");
        answers.numbers(row.regions.as_slice());
        answers.tell("; ");
    }
}

/// Of each state the region that holds it and its own regions; of each region its states, and the superstates around
/// it, the innermost first.
pub(crate) fn tell_table(table: &Table, answers: &mut Answers) {
    tell_states(table, answers);
    let mut number: usize = 0;
    for row in table.regions.as_slice() {
        number = number.saturating_add(1);
        answers.tell_with("region ", number);
        answers.tell(" has");
        answers.numbers(row.states.as_slice());
        answers.tell(" in");
        answers.numbers(row.around.as_slice());
        answers.tell("; ");
    }
}

fn tell_standing(standing: &Standing, answers: &mut Answers) {
    match standing {
        Standing::Outside => answers.tell(" outside"),
        Standing::Ended => answers.tell(" ended"),
        Standing::Trying { state, tests: _ }
        | Standing::Entering { state, tests: _ }
        | Standing::Guarding { state, tests: _ }
        | Standing::Within { state, tests: _ } => answers.tell_with(" ", *state),
        Standing::Acting {
            state,
            effects: _,
            target: _,
        } => answers.tell_with(" ", *state),
    }
}

/// Where each region stands, from that of number 1 on: outside, ended, or in a state.
pub(crate) fn tell_standings(c: &Configuration, answers: &mut Answers) {
    answers.tell("stand");
    for (number, standing) in c.regions.as_slice().iter().enumerate() {
        if number > 0 {
            tell_standing(standing, answers);
        }
    }
}
