//! Faults of texts and of their programs explained: their places, the lines of the text, what is wrong in words, and
//! what helps; all flaws of a text (`lists`); and how a text can go on at a place (`could_follow`).
#![tactic(auto)]

mod author_report;
mod could;
mod could_follow;
mod edges;
mod expected;
mod extended_rules;
mod extended_words;
mod found;
mod fronts;
mod grammar_words;
mod limit_words;
mod lines;
mod lists;
mod near_names;
mod nodes;
mod page;
mod program_report;
mod program_words;
mod report;
mod rule_words;
mod spellings;
mod told;
mod unclosed;
mod unknown_words;
mod walks;
mod words;

pub use author_report::author_fault_told;
pub use could_follow::{Continuations, Grammar, can_follow, continuations_of};
pub use lines::marked_line;
pub use lists::faults_explained;
pub use program_report::{program_fault_explained, program_fault_told};
pub use report::{explained, line_column_text, text_fault_explained, told_nowhere};
