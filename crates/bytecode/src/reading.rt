//! Images from bytes.

mod codes;
mod fields;
mod image;
mod nodes;

pub use image::{decode, decode_either, decode_v1};
