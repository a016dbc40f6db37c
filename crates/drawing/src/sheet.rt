//! What a drawing of regions is put on.

use crate::text::Text;
use sqlite_items::Items;
use std::alloc::Global;

/// A text, and the path of the region or state that is put: the numbers of those around it and its own, each among
/// those beside it.
#[derive(Drop)]
pub(crate) struct Sheet {
    pub(crate) text: Text,
    path: Items<u32>,
}

/// The state of a number in the region of another one, where so many regions and states stand around that.
#[derive(Clone, Copy)]
pub(crate) struct Place {
    pub(crate) depth: usize,
    pub(crate) region: u32,
    pub(crate) state: u32,
}

impl Sheet {
    /// An empty one.
    pub(crate) fn new(alloc: Global) -> Sheet {
        Sheet {
            text: Text::new(alloc),
            path: Items::new(alloc),
        }
    }

    /// Goes into the region or state of this number.
    pub(crate) fn enter(&mut self, number: u32) {
        if self.path.push(number).is_err() {
            self.text.refuse();
        }
    }

    /// Goes out of it.
    pub(crate) fn leave(&mut self) {
        let _ = self.path.pop();
    }

    /// How many regions and states stand around what is put next.
    pub(crate) fn depth(&self) -> usize {
        self.path.len()
    }

    /// Puts a piece.
    pub(crate) fn put(&mut self, piece: &str) {
        self.text.put(piece);
    }

    /// Puts the path.
    pub(crate) fn put_path(&mut self) {
        let mut between = "";
        for number in self.path.as_slice() {
            self.text.put(between);
            self.text.put_number(*number);
            between = "_";
        }
    }

    /// Puts the path of the state of this number in the region that is put.
    pub(crate) fn put_inner(&mut self, number: u32) {
        self.put_path();
        self.text.put("_");
        self.text.put_number(number);
    }

    /// Puts the path of a state.
    pub(crate) fn put_place(&mut self, place: Place) {
        let mut left = place.depth;
        for number in self.path.as_slice() {
            if left > 0 {
                left -= 1;
                self.text.put_number(*number);
                self.text.put("_");
            }
        }
        self.text.put_number(place.region);
        self.text.put("_");
        self.text.put_number(place.state);
    }
}
