//! Programs of so many rows, whatever rule they break: the counts that the layout of an image has room for.

use crate::answers::Answers;
use crate::reading::number;
use crate::words::{Unanswered, halves, known};
use sc_graph::{Node, Program, ProgramFault, Role, Step, Thread, ThreadId, Variable};
use sc_values::{Kind, Name};
use sqlite_items::Items;
use std::alloc::{AllocError, Global};

// So many variables, all of one name.
fn variables(alloc: Global, name: Name, count: usize) -> Result<Items<Variable>, AllocError> {
    let mut list = Items::new(alloc);
    for _ in 0..count {
        let variable = Variable {
            name,
            kind: Kind::Bool,
            role: Role::Local,
        };
        if list.push(variable).is_err() {
            return Err(AllocError);
        }
    }
    Ok(list)
}

// So many threads of this parent.
fn threads(
    alloc: Global,
    parent: Option<ThreadId>,
    count: usize,
) -> Result<Items<Thread>, AllocError> {
    let mut list = Items::new(alloc);
    for _ in 0..count {
        if list.push(Thread { parent, entry: 0 }).is_err() {
            return Err(AllocError);
        }
    }
    Ok(list)
}

// So many nodes, at all of which the root ends.
fn nodes(alloc: Global, count: usize) -> Result<Items<Node>, AllocError> {
    let mut list = Items::new(alloc);
    for _ in 0..count {
        let node = Node {
            owner: 0,
            step: Step::Exit,
        };
        if list.push(node).is_err() {
            return Err(AllocError);
        }
    }
    Ok(list)
}

// A fork that names thread 7 so many times.
fn fork(alloc: Global, count: usize) -> Result<Items<Node>, AllocError> {
    let mut children = Items::new(alloc);
    for _ in 0..count {
        children.push(7)?;
    }
    let step = Step::Fork { children, join: 0 };
    let mut list = Items::new(alloc);
    match list.push(Node { owner: 0, step }) {
        Ok(()) => Ok(list),
        Err(_) => Err(AllocError),
    }
}

// A program that may have too many rows.
type Counted = Result<Program, ProgramFault>;

fn of_variables(alloc: Global, count: usize) -> Result<Counted, Unanswered> {
    let variables = variables(alloc, known(Name::of("x"))?, count)?;
    Ok(Program::of(variables, Items::new(alloc), Items::new(alloc)))
}

fn of_threads(
    alloc: Global,
    parent: Option<ThreadId>,
    count: usize,
) -> Result<Counted, AllocError> {
    let threads = threads(alloc, parent, count)?;
    Ok(Program::of(Items::new(alloc), threads, Items::new(alloc)))
}

fn of_nodes(alloc: Global, count: usize) -> Result<Counted, AllocError> {
    let nodes = nodes(alloc, count)?;
    Ok(Program::of(Items::new(alloc), Items::new(alloc), nodes))
}

fn of_children(alloc: Global, count: usize) -> Result<Counted, AllocError> {
    let nodes = fork(alloc, count)?;
    Ok(Program::of(Items::new(alloc), Items::new(alloc), nodes))
}

// `WORD COUNT`: a program of so many variables, threads or nodes, of a fork of so many children, or of a thread whose
// parent has this number.
fn program(alloc: Global, words: &str) -> Result<Counted, Unanswered> {
    let (word, count) = halves(words, ' ');
    let count = number(count)?;
    match word {
        "variables" => of_variables(alloc, count),
        "threads" => Ok(of_threads(alloc, None, count)?),
        "nodes" => Ok(of_nodes(alloc, count)?),
        "children" => Ok(of_children(alloc, count)?),
        "parent" => {
            let parent = known(u16::try_from(count).ok())?;
            Ok(of_threads(alloc, Some(parent), 1)?)
        }
        _ => Err(Unanswered),
    }
}

// How many variables, threads and nodes a program has, and the parent of its first thread, where there is one.
fn tell_program(program: &Program, answers: &mut Answers) {
    answers.number(program.variable_count() as usize);
    answers.tell_with(" ", program.thread_count() as usize);
    answers.tell_with(" ", program.node_count() as usize);
    if let Some(parent) = program.parent(0) {
        answers.tell_with(" parent ", parent as usize);
    }
}

/// Whether a row is about counts; what is told of it.
pub(crate) fn tell_counts(
    alloc: Global,
    row: &str,
    answers: &mut Answers,
) -> Result<bool, Unanswered> {
    let (word, rest) = halves(row, ' ');
    if word != "count" {
        return Ok(false);
    }
    match program(alloc, rest)? {
        Ok(program) => tell_program(&program, answers),
        Err(fault) => answers.show(&fault),
    }
    Ok(true)
}
