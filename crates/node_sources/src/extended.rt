//! For each node of the program of a reduced chart, where it comes from in the text of the extended chart.

mod labels;
mod laws;
mod listing;
mod lowered;
mod node;
mod places;
mod sources;
mod text_places;

pub use labels::author_label;
pub use laws::author_sources_tell_nodes;
pub use listing::image_text_with_author;
pub use node::AuthorNode;
pub use sources::{AuthorSources, author_sources};
pub use text_places::{
    Author, AuthorOrigin, AuthorOrigins, AuthorPlaced, EffectRow, author_origins,
    read_author_placed,
};
