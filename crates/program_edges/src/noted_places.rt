//! Where in a growing list a node of each thread stands. It is a hint: who asks looks there, and finds a node of the
//! thread or of another one.

use sc_graph::ThreadId;
use std::alloc::{AllocError, Global};

/// A place in a list for each thread.
#[derive(Drop)]
pub struct NotedPlaces {
    by_thread: Vec<usize>,
}

impl NotedPlaces {
    /// The place 0 for each of so many threads. Err: memory was refused.
    pub fn none(alloc: Global, threads: u16) -> Result<NotedPlaces, AllocError> {
        Ok(NotedPlaces {
            by_thread: vec![in alloc; 0; threads as usize]?,
        })
    }

    /// The place that was noted last for a thread.
    pub(crate) fn of(&self, thread: Option<ThreadId>) -> usize {
        match thread {
            Some(thread) => match self.by_thread.get(thread as usize) {
                Some(place) => *place,
                None => 0,
            },
            None => 0,
        }
    }

    /// Notes a place for a thread.
    pub(crate) fn note(&mut self, thread: Option<ThreadId>, place: usize) {
        if let Some(thread) = thread {
            let at = thread as usize;
            if at < self.by_thread.len() {
                self.by_thread[at] = place;
            }
        }
    }
}
