//! Rows about what no command of `sct` reaches, each answered by a line: ticks by the claims of several workers, judged
//! runs, the queue of claims, programs of nodes, names, operators and codes, and charts. The rows stand in
//! tests/cases/library, and those about charts beside them; tests/cases/README.md tells how they are written.
#![tactic(auto)]

mod acts;
mod answers;
mod charts;
mod codes;
mod counts;
mod images;
mod names;
mod operations;
mod operators;
mod programs;
mod queues;
mod reading;
mod rows;
mod telling;
mod ticks;
mod words;

use crate::answers::Answers;
use std::io;

fn main(rt: HostRuntime) -> io::Result<()> {
    let text = io::read_to_string(rt.alloc(), rt.stdin())?;
    let mut answers = Answers::new(rt.alloc());
    let answered = rows::answer(&rt, rt.alloc(), text.as_str(), &mut answers);
    print!(rt; "{}", answers.text())?;
    if answered.is_ok() && answers.is_whole() {
        Ok(())
    } else {
        Err(io::Error::from(io::ErrorKind::InvalidData))
    }
}
