//! The lines of a trace: how an input is cut into lines, what a line gives to inputs or why it gives nothing, and what
//! a line of output shows.
#![tactic(auto)]

mod causes;
mod expected;
mod giving;
mod inputs;
mod integers;
mod interface;
mod kept_line;
mod line;
mod line_reader;
mod lines;
mod members;
mod ordered;
mod output;
mod outputs;

pub use causes::{
    Cause, Lent, Line, Met, OfInput, Recent, cause_of, cause_on, cause_under, cause_words,
};
pub use interface::Interface;
pub use line::{LineFault, object_of};
pub use line_reader::LineReader;
pub use lines::{LINE_LIMIT, LineEnd, Lines, LinesFault, feed_in};
pub use members::LineRoom;
pub use outputs::quoted;
