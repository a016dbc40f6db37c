//! Parts of rows about charts, each of one sort.

use crate::answers::Answers;
use crate::charts::{compiled, machine, texts};
use crate::words::{Unanswered, halves};
use std::alloc::Global;
use std::sync::Wait;
use std::thread::Threads;

/// Answers the rows of a part behind its first line, which says their sort: `machine`, `texts` or `compiled`. Err: a
/// row means nothing, or memory was refused.
pub(crate) fn answer_part<R: Threads + Wait + Sync>(
    rt: &R,
    alloc: Global,
    part: &str,
    answers: &mut Answers,
) -> Result<(), Unanswered> {
    let (sort, rows) = halves(part, '\n');
    match sort {
        "machine" => machine::answer(alloc, rows, answers),
        "texts" => Ok(texts::answer(alloc, rows, answers)?),
        "compiled" => compiled::answer(rt, alloc, rows, answers),
        _ => Err(Unanswered),
    }
}
