//! What was met where a line of an input gives nothing: the line, of the bytes that were read last, and what in it.

mod cause;
mod causes;
mod line;
mod members;
mod met;
mod missing;
mod recent;
mod tail;
mod words;

pub use cause::{Cause, Met};
pub use causes::cause_of;
pub use line::Line;
pub use met::cause_on;
pub use missing::cause_under;
pub use recent::{Lent, OfInput, Recent};
pub use words::cause_words;
