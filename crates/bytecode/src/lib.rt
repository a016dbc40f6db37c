//! Images: a program with its certificate, and the bytes that spell one.
#![tactic(auto)]

mod fault;
mod image;
mod laws;
mod layout;
mod reading;
mod rows;
mod writing;

pub use fault::DecodeFault;
pub use image::Image;
pub use laws::{
    bytes_spell_one_image, cut_spelling_is_short, fields_make_the_spelling, image_has_one_spelling,
    reading_is_spelling, spelling_and_more_has_a_tail, told_field_is_bad,
    version_1_is_spelled_in_version_2,
};
pub use reading::{decode, decode_either, decode_v1};
pub use writing::encode;
