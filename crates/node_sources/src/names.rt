//! The name that stands at a place of a text.

use sc_values::NAME_LIMIT;

/// The name, or the word, that begins at a byte of a text. Empty: none does.
pub fn name_in(text: &str, at: usize) -> &str {
    let mut end = at;
    for _ in 0..NAME_LIMIT {
        match text.as_bytes().get(end) {
            Some(byte) if byte.is_ascii_alphanumeric() || *byte == b'_' => {
                end = end.saturating_add(1);
            }
            _ => break,
        }
    }
    text.get(at..end).unwrap_or("")
}
