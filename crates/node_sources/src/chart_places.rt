//! Where the elements of a chart stand in its text, and in which states.

mod laws;
mod places;
mod read;
mod rows;
mod states_around;

pub use laws::{placed_texts_have_one_answer, places_tell_texts};
pub use places::{PlaceRows, Places};
pub use read::{Placed, read_placed};
pub use rows::places_of;
pub use states_around::{StateAround, StatesAround, states_around_of};
