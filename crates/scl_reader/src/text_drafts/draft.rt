//! What a text is read into before its rules are looked at.

use crate::text_drafts::statement::TextStatement;
use sc_text::Declaration;
use sc_values::Name;
use sqlite_items::Items;

/// A program as its text has it: names are not yet resolved, and no rule but those of the grammar is kept.
#[derive(Drop)]
pub struct Draft {
    pub name: Name,
    pub declarations: Items<Declaration>,
    pub statements: Items<TextStatement>,
}
