//! Texts without their block comments, with all else where it stood. `specs/Comments` says what becomes of each byte.

mod clearing;
mod laws;
mod lengths;
mod part;

pub use clearing::without_comments;
pub use laws::comments_keep_places;
pub use lengths::comment_length;
pub use part::Part;
