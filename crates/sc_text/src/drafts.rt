//! What the drafts of both languages share: names, variables and expressions with their places, and what is wrong
//! with them. A draft is what a text is read into before its names are looked up. `specs/DraftParts` says what
//! the parts of a text mean, `specs/Flaws` which flaws they have, `specs/Told` which of them are told, and
//! `specs/First` which is the first.

mod crowding;
mod flaw;
mod heights;
mod index;
mod kinds;
mod parts;
mod resolved;
mod scope;
mod told;
mod told_scope;
mod trees;
mod words;

pub use flaw::{Flaw, is_full};
pub use index::Index;
pub use parts::{Declaration, Named, TextExpression};
pub use resolved::variables;
pub use scope::Scope;
pub use told::{TOLD_LIMIT, first_told, note_told};
pub use words::{kind_follows, kind_of, name_follows, role_follows, role_of};
