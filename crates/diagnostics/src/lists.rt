//! All flaws of a text that is refused, in words for people, and not the first alone.

mod flaws;
mod telling;

pub use telling::faults_explained;
