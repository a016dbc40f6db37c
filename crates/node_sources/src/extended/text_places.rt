//! From which elements of an extended chart those of the chart come to which it is reduced, and where these stand in
//! the author's text.

mod author;
mod effect_rows;
mod effects;
mod origins;
mod placed;
mod regions;

pub use author::{Author, EffectRow};
pub use origins::{AuthorOrigin, AuthorOrigins};
pub use placed::{AuthorPlaced, read_author_placed};
pub use regions::author_origins;
