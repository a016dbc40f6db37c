//! The states of extended charts, as their authors name them: the paths of these, and for which of them each state of
//! the chart to which one is reduced stands.
#![tactic(auto)]

mod author;
mod laws;
mod paths;
mod texts;

pub use author::{AuthorStates, author_states};
pub use laws::authors_stay;
pub use paths::paths_of;
pub use texts::{Authored, authored_source};
