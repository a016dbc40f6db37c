//! The lines of a trace, one after another.

ghost use Rattle.std.specs.Prelude.{◌≡◌, option_map, position};
ghost use Rattle.trace_lines.specs.Lines.{is_feed};
ghost use Rattle.controller_tests.specs.Inside.Lines.{Begins};

// The place of the first line feed.
fn feed_in(bytes: &[u8]) -> Option<usize>
    ensures { result ≡ position is_feed bytes.now }
{
    bytes.iter().position(|byte| *byte == b'\n')
}

/// The first line, and the bytes behind it and its line feed. None: there is no line more.
pub(crate) fn next_line(bytes: &[u8]) -> (Option<&[u8]>, &[u8])
    ensures { Begins bytes.now (option_map (λ line. line.now) result.0) result.1.now }
{
    if bytes.is_empty() {
        return (None, bytes);
    }
    match feed_in(bytes) {
        Some(at) => (Some(&bytes[..at]), &bytes[at + 1..]),
        None => (Some(bytes), &bytes[bytes.len()..]),
    }
}
