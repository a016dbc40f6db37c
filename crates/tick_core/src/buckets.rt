//! Items in rows by class: an item enters, changes and leaves a row at a cost that does not grow, and
//! the items of a class are lent as one slice.

mod making;
mod rows;

pub use rows::Rows;
