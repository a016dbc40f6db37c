//! Items in rows by class.

ghost use Rattle.std.specs.Prelude.{ℕ, ◌^◌, IfOk, replicate, slice_index, ◌≡◌, ◌<◌, ◌≤◌, ◌↔◌, IsTrue, MatchOption};
ghost use Rattle.std.specs.Prelude.{Option, Some, None, length, slice_set, slice_get};
ghost use Rattle.tick_core.specs.Rows.{HasRoom, IsBare, AreEmpty, IsFirst, IsRow, IsIn, HasRooms};

use crate::buckets::making::{rooms_of, starts_of};
use std::alloc::{AllocError, Global};
use std::marker::Model;

/// Items, numbered from 0, in rows by class. Contracts see how many items each row has room for, and
/// in which row each item stands.
#[derive(Drop)]
pub struct Rows {
    rooms: Vec<usize>,
    classes: Vec<Option<u16>>,
    // by class: where its row begins, and how many stand in it
    starts: Vec<usize>,
    counts: Vec<usize>,
    // all rows, one after another
    row: Vec<u16>,
    // by item: its place in the row of its class
    places: Vec<usize>,
    // nobody stands in the row of a greater class
    top: u16,
    // how many items stand in a row
    len: usize,
}

impl Model for Rows {
    ghost use Rattle.tick_core.specs.Rows.{Rows};
    ghost use Rattle.tick_core.specs.Inside.Places.{Stand};

    ghost Value = { Rows };

    ghost view = { λ r. record { rooms = r.rooms.items; classes = r.classes.items } };

    ghost invariant = { λ r.
        Stand r.rooms.items r.classes.items r.starts.items r.counts.items r.row.items r.places.items r.top r.len };
}

impl Rows {
    /// Rows without items: for each class room for as many items as there are places of it.
    pub fn of(alloc: Global, places: &[u16], items: u16) -> Result<Rows, AllocError>
        requires { length places.now < 2 ^ 32 }
        ensures rooms { IfOk result (λ r. HasRooms r.rooms places.now) }
        ensures empty { IfOk result (λ r. r.classes ≡ replicate items None) }
    {
        let rooms = rooms_of(alloc, places)?;
        let starts = starts_of(alloc, &rooms)?;
        let counts = vec![in alloc; 0; rooms.len()]?;
        let row = vec![in alloc; 0; places.len()]?;
        let classes = vec![in alloc; None; items as usize]?;
        let of_items = vec![in alloc; 0; items as usize]?;
        Ok(Rows {
            rooms,
            classes,
            starts,
            counts,
            row,
            places: of_items,
            top: 0,
            len: 0,
        })
    }

    /// Puts an item into the row of a class, or into none; it leaves the one where it stood. Where it
    /// stands so already, nothing is done.
    pub fn set(&mut self, item: u16, class: Option<u16>)
        requires { HasRoom self.old item class }
        ensures { self.new ≡ record self.old { classes = slice_set self.old.classes item class } }
    {
        if self.classes[item as usize] == class {
            return;
        }
        self.take_out(item);
        if let Some(class) = class {
            self.put_in(item, class);
        }
    }

    // Takes an item out of the row where it stands, if it does.
    fn take_out(&mut self, item: u16)
        requires { item < length self.old.classes }
        ensures { self.new ≡ record self.old { classes = slice_set self.old.classes item None } }
    {
        let Some(class) = self.classes[item as usize] else {
            return;
        };
        let at = self.places[item as usize];
        let count = self.counts[class as usize] - 1;
        let last = self.row[self.starts[class as usize] + count];
        self.row[at] = last;
        self.places[last as usize] = at;
        self.counts[class as usize] = count;
        self.classes[item as usize] = None;
        self.len -= 1;
    }

    // Puts an item that stands in no row at the end of a row that has room for it.
    fn put_in(&mut self, item: u16, class: u16)
        requires room { HasRoom self.old item (Some class) }
        requires nowhere { slice_get self.old.classes item ≡ Some None }
        ensures { self.new ≡ record self.old { classes = slice_set self.old.classes item (Some class) } }
    {
        let at = self.starts[class as usize] + self.counts[class as usize];
        self.row[at] = item;
        self.places[item as usize] = at;
        self.counts[class as usize] += 1;
        self.classes[item as usize] = Some(class);
        self.top = self.top.max(class);
        self.len += 1;
    }

    /// Whether an item stands in the row of a class.
    pub fn is_in(&self, item: u16, class: u16) -> bool
        ensures { IsTrue result ↔ IsIn self.now.classes item class }
    {
        match self.classes.get(item as usize) {
            Some(Some(own)) => *own == class,
            _ => false,
        }
    }

    /// Whether no item stands in a row.
    pub fn is_empty(&self) -> bool
        ensures { IsTrue result ↔ AreEmpty self.now }
    {
        self.len == 0
    }

    /// The items in the row of a class, each once, in any order.
    pub fn row(&self, class: u16) -> &[u16]
        ensures { IsRow self.now.classes class result.now }
    {
        let class = class as usize;
        if class < self.counts.len() {
            let start = self.starts[class];
            &self.row[start..start + self.counts[class]]
        } else {
            &[]
        }
    }

    /// An item in the row of a class.
    pub fn member(&self, class: u16) -> Option<u16>
        ensures { MatchOption result (IsBare self.now class) (λ t. IsIn self.now.classes t class) }
    {
        self.row(class).first().copied()
    }

    /// An item of the greatest class in whose row somebody stands.
    pub fn first(&self) -> Option<u16>
        ensures { MatchOption result (AreEmpty self.now) (IsFirst self.now) }
    {
        if self.len == 0 {
            return None;
        }
        self.member(fall(&self.counts, self.top))
    }

    /// Looks for the greatest class in whose row somebody stands, so that `first` finds it at once.
    pub fn settle(&mut self)
        ensures { self.new ≡ self.old }
    {
        if self.len == 0 {
            return;
        }
        self.top = fall(&self.counts, self.top);
    }
}

// The greatest class up to this one in whose row somebody stands; 0 where nobody does.
fn fall(counts: &[usize], top: u16) -> u16
    ensures at_most { result ≤ top }
    ensures bare { (class : ℕ) → result < class → class ≤ top → slice_index counts.now class ≡ 0 }
    ensures stands { slice_index counts.now result ≡ 0 → result ≡ 0 }
{
    let mut class = top;
    while class > 0 && !is_taken(counts, class) {
        class -= 1;
    }
    class
}

// Whether somebody stands in the row of a class.
fn is_taken(counts: &[usize], class: u16) -> bool
    ensures { IsTrue result ↔ (0 < slice_index counts.now class) }
{
    match counts.get(class as usize) {
        Some(count) => *count > 0,
        None => false,
    }
}
