//! The statements of an SCL text.

use sc_text::{Named, TextExpression};
use sqlite_items::Items;

/// A statement of a program's text. Names are not yet resolved. A place is that of a first byte in the text.
#[derive(Drop)]
pub enum TextStatement {
    /// The variable of this name becomes the value.
    Assign {
        target: Named,
        value: TextExpression,
    },
    Label(Named),
    /// A goto of this label.
    Goto(Named),
    /// A pause, with the place of its word.
    Pause {
        at: usize,
    },
    /// An if, with the place of its word. Where it has no `else` the second list is empty.
    If {
        at: usize,
        test: TextExpression,
        first: Items<TextStatement>,
        second: Items<TextStatement>,
    },
    /// A fork of these branches, each with the place of the word that opens it, and the place of its `join`.
    Fork {
        branches: Items<(usize, Items<TextStatement>)>,
        join: usize,
    },
}
