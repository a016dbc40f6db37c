//! Reading the parts that other texts of charts share: names and words, expressions, effects and triggers.

pub use crate::text_drafts::ahead::{Ahead, skip_sign, skip_word};
pub use crate::text_drafts::regions::state_follows;
pub use crate::text_drafts::rows::{Part, RowPart, listed, listed_behind, put_row};
pub use crate::text_drafts::transitions::{
    outcome, placed, termination, transition_follows, trigger, value,
};
pub use crate::text_drafts::words::{
    declared_kind, declared_role, flag, join_word, last_name, name, tested_word,
    tested_word_follows, title,
};
