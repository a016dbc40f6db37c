//! An image as a line of JSON, for programs.

mod image;
mod variables;

pub use image::image_json;
