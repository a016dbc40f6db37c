//! The lines of threads, as a tree.

use crate::cells::{put_number, put_spaces};
use bytecode::Image;
use sc_graph::ThreadId;
use std::alloc::{AllocError, Global};

/// How many levels of threads are shown: those of a valid image.
const LEVELS: u8 = 34;

// Puts the line of a thread behind a text: its bound, the node where it begins, and its number, two spaces deeper for
// each level.
fn put_thread(
    alloc: Global,
    text: &mut String,
    image: &Image,
    thread: ThreadId,
    level: usize,
) -> Result<(), AllocError> {
    let entry = image.program().entry(thread).unwrap_or(0);
    text.push_str("  ")?;
    put_number(alloc, text, 10, image.tables().bound(thread))?;
    text.push_str("  ")?;
    put_number(alloc, text, 5, entry as u32)?;
    text.push_str("  ")?;
    put_spaces(text, level)?;
    write!(text, "{thread}\n")
}

// Puts the lines of the children of a thread behind a text, those of its grandchildren among them, so many levels deep.
fn put_children(
    alloc: Global,
    text: &mut String,
    image: &Image,
    parent: ThreadId,
    levels: u8,
) -> Result<(), AllocError> {
    if levels == 0 {
        return Ok(());
    }
    let level = LEVELS.saturating_sub(levels) as usize * 2;
    for thread in 0..image.program().thread_count() {
        if image.program().parent(thread) == Some(parent) {
            put_thread(alloc, text, image, thread, level)?;
            put_children(alloc, text, image, thread, levels - 1)?;
        }
    }
    Ok(())
}

/// The lines of threads: each stands below its parent, and two spaces deeper.
pub(crate) fn threads_text(alloc: Global, image: &Image) -> Result<String, AllocError> {
    let mut text = String::new(alloc);
    put_thread(alloc, &mut text, image, 0, 0)?;
    put_children(alloc, &mut text, image, 0, LEVELS - 1)?;
    Ok(text)
}
