//! Images, spelled by their bytes.

use crate::words::{Unanswered, known};
use bytecode::{Image, decode};
use sqlite_items::Boxed;
use std::alloc::Global;
use verifier::{Verified, verify};

// The value of a digit to the base of 16.
fn digit(sign: u8) -> Option<u8> {
    match sign {
        b'0'..=b'9' => sign.checked_sub(b'0'),
        b'a'..=b'f' => sign.checked_sub(b'a' - 10),
        _ => None,
    }
}

// The byte of two digits.
fn byte(word: &str) -> Option<u8> {
    match word.as_bytes() {
        [high, low] => digit(*high)?.checked_mul(16)?.checked_add(digit(*low)?),
        _ => None,
    }
}

fn bytes_of(alloc: Global, text: &str) -> Result<Vec<u8>, Unanswered> {
    let mut bytes = Vec::new(alloc);
    for word in text.split_whitespace() {
        bytes.push(known(byte(word))?)?;
    }
    Ok(bytes)
}

fn image_of(alloc: Global, text: &str) -> Result<Image, Unanswered> {
    let bytes = bytes_of(alloc, text)?;
    known(decode(alloc, bytes.as_slice()).ok())
}

/// The image that these bytes spell, whatever rule of the verifier it breaks.
pub(crate) fn decoded(alloc: Global, text: &str) -> Result<Boxed<Image>, Unanswered> {
    Ok(Boxed::new(alloc, image_of(alloc, text)?)?)
}

fn valid(alloc: Global, image: Image) -> Result<Boxed<Verified>, Unanswered> {
    match verify(alloc, image) {
        Ok(image) => Ok(Boxed::new(alloc, image)?),
        Err(_) => Err(Unanswered),
    }
}

/// The valid image that these bytes spell.
pub(crate) fn verified(alloc: Global, text: &str) -> Result<Boxed<Verified>, Unanswered> {
    valid(alloc, image_of(alloc, text)?)
}
