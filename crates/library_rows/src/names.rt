//! Names: their bytes, their order, and how they print; and the texts of faults.

use crate::answers::Answers;
use crate::words::{Unanswered, halves, known};
use sc_graph::ProgramFault;
use sc_values::{CodeFault, Name};
use std::alloc::Global;
use std::collections::HashSet;
use tick_core::{BeginFault, StaleClaim};

// A name, as its text, as it is printed, and as it is for people who look for faults.
fn tell_printed(alloc: Global, name: &Name, answers: &mut Answers) -> Result<(), Unanswered> {
    answers.tell(name.as_str());
    answers.tell(" ");
    answers.show(name);
    answers.tell(format!(in alloc; " {name:?}")?.as_str());
    Ok(())
}

// The name that a text is, if it is one.
fn tell_named(alloc: Global, text: &str, answers: &mut Answers) -> Result<(), Unanswered> {
    match Name::of(text) {
        Some(name) => tell_printed(alloc, &name, answers)?,
        None => answers.tell("no name"),
    }
    if Name::of(text) != Name::from_bytes(text.as_bytes()) {
        answers.tell("; otherwise by its bytes");
    }
    Ok(())
}

fn word_of_order(first: &Name, second: &Name) -> &'static str {
    if first < second {
        "less"
    } else if first == second {
        "equal"
    } else {
        "greater"
    }
}

fn order_of(words: &str) -> Result<&'static str, Unanswered> {
    let (first, second) = halves(words, ' ');
    let first = known(Name::of(first))?;
    let second = known(Name::of(second))?;
    Ok(word_of_order(&first, &second))
}

fn put_all(seen: &mut HashSet<Name>, words: &str, answers: &mut Answers) -> Result<(), Unanswered> {
    for word in words.split_whitespace() {
        let is_new = seen.insert(known(Name::of(word))?)?;
        answers.tell(if is_new { "new " } else { "known " });
    }
    Ok(())
}

// Of names that are put into a set which are new, and how many it then has.
fn tell_set(alloc: Global, words: &str, answers: &mut Answers) -> Result<(), Unanswered> {
    let mut seen = HashSet::new(alloc);
    let are_put = put_all(&mut seen, words, answers);
    answers.number(seen.len());
    are_put
}

// The texts of faults.
fn tell_faults(answers: &mut Answers) {
    answers.tell("begin ");
    answers.show(&BeginFault::Input);
    answers.tell(" ");
    answers.show(&BeginFault::Memory);
    answers.tell("; claim ");
    answers.show(&StaleClaim);
    answers.tell("; code ");
    answers.show(&CodeFault::Kind);
    answers.tell(" ");
    answers.show(&CodeFault::Limit);
    answers.tell("; program ");
    answers.show(&ProgramFault::Limit);
}

/// Whether a row is about names or faults; what is told of it.
pub(crate) fn tell_name(
    alloc: Global,
    row: &str,
    answers: &mut Answers,
) -> Result<bool, Unanswered> {
    let (word, rest) = halves(row, ' ');
    match word {
        "name" => tell_named(alloc, rest, answers)?,
        "compare" => answers.tell(order_of(rest)?),
        "set" => tell_set(alloc, rest, answers)?,
        "faults" => tell_faults(answers),
        _ => return Ok(false),
    }
    Ok(true)
}
