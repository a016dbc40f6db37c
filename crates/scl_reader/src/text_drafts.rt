//! Reading SCL text to a draft: a function for each rule of its grammar, and what is wrong with a draft.

mod apart;
mod checked;
mod declarations;
mod draft;
mod labels;
mod laws;
mod name;
mod name_row;
mod program;
mod simple;
mod statement;
mod statements;
mod survey;
mod value;

pub use checked::{read_checked, told_flaws};
pub use draft::Draft;
pub use laws::{scl_drafts_are_shaped, scl_texts_are_told};
pub use program::read_draft;
pub use statement::TextStatement;
