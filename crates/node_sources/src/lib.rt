//! From which part of a source text each node of its program comes: the rows of origins of the passes, one through the
//! other, up to the places that the readers keep; where in a text the elements of its chart stand (`chart_places`); and
//! the same of the texts of extended charts (`extended`).
#![tactic(auto)]

mod chart_origins;
mod chart_places;
mod chart_sources;
mod extended;
mod labels;
mod laws;
mod line_columns;
mod listing;
mod names;
mod origin;
mod parts;
mod positions;
mod scl_sources;
mod sources;
mod statements;

pub use chart_origins::element_origin;
pub use chart_places::{
    PlaceRows, Placed, Places, StateAround, StatesAround, placed_texts_have_one_answer, places_of,
    places_tell_texts, read_placed, states_around_of,
};
pub use chart_sources::elements_of;
pub use extended::{
    Author, AuthorNode, AuthorOrigin, AuthorOrigins, AuthorPlaced, AuthorSources, EffectRow,
    author_label, author_origins, author_sources, author_sources_tell_nodes,
    image_text_with_author, read_author_placed,
};
pub use labels::{label_origin, label_part, label_point};
pub use laws::{sources_tell_charts, sources_tell_scl};
pub use line_columns::{LineColumn, line_column_of};
pub use listing::image_text_with;
pub use names::name_in;
pub use origin::{Origin, SourcePart};
pub use parts::part_of;
pub use positions::Positions;
pub use sources::{Sources, origins_in, sources_in, sources_of};
