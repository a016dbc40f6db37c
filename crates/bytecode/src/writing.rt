//! Images to bytes.

mod codes;
mod fields;
mod image;
mod nodes;

pub use image::encode;
