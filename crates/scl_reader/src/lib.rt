//! Reading SCL text: to a draft (`text_drafts`), and from a draft in which nothing is wrong to the program that it
//! spells. `specs/Resolved` says which program that is, and `specs/Read` what a text is read into.
#![tactic(auto)]

mod laws;
mod program;
mod read;
mod statements;
mod text_drafts;

pub use laws::scl_texts_have_one_answer;
pub use program::program_of;
pub use read::read_scl;
pub use text_drafts::{
    Draft, TextStatement, read_checked, read_draft, scl_drafts_are_shaped, scl_texts_are_told,
    told_flaws,
};
