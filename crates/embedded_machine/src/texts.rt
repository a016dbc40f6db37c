//! What is opened for a machine inside another program: images as bytes, and texts.

mod images;
mod opening;

pub use images::{image_of_text, verified_image};
pub use opening::{opened_image, opened_text};
