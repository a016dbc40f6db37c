//! The tokens of chart text and of SCL text, with their places, the faults of readers, and what the drafts of both
//! languages share.
#![tactic(auto)]

pub mod ahead;
mod drafts;
mod expressions;
mod first_token;
mod language;
mod laws;
mod leaf;
mod level;
mod made_names;
mod operation;
mod parts;
mod piece;
mod read_fault;
mod scan;
mod sign;
mod token;
mod word;

pub use drafts::{
    Declaration, Flaw, Index, Named, Scope, TOLD_LIMIT, TextExpression, first_told, is_full,
    kind_follows, kind_of, name_follows, note_told, role_follows, role_of, variables,
};
pub use expressions::{OPEN_LIMIT, expression};
pub use first_token::{begins_with, is_next, language_of, passed_length};
pub use language::Language;
pub use laws::{expressions_are_told, texts_are_cut_once};
pub use made_names::{numbered, plain};
pub use operation::TextOperation;
pub use parts::{are_distinct, is_expression, is_writable};
pub use read_fault::{FaultKind, ReadFault};
pub use scan::tokens;
pub use sign::Sign;
pub use token::{Token, TokenKind};
pub use word::Word;
