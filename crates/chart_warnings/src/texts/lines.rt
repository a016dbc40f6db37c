//! The lines of a text.

ghost use Rattle.std.specs.Prelude.{◌≡◌, drop, take};
ghost use Rattle.chart_warnings.specs.Lines.{are_lines, behind_feeds, first_line, left_behind, line_of};

use node_sources::line_column_of;

/// The line in which a place of a text stands.
pub(crate) fn line_of(text: &str, at: usize) -> &[u8]
    ensures { result.now ≡ line_of text.now at }
{
    let line_column = line_column_of(text, at);
    let rest = behind_feeds(text.as_bytes(), line_column.line - 1);
    first_line(rest)
}

// Of so many line feeds those that are still to come behind a byte.
fn left_behind(feeds: usize, byte: u8) -> usize
    ensures { result ≡ left_behind feeds byte }
{
    if byte == b'\n' {
        feeds.saturating_sub(1)
    } else {
        feeds
    }
}

// What stands behind so many line feeds.
fn behind_feeds(text: &[u8], feeds: usize) -> &[u8]
    ensures { result.now ≡ behind_feeds feeds text.now }
{
    let mut left = feeds;
    for (at, byte) in text.iter().enumerate() {
        if left == 0 {
            return &text[at..];
        }
        left = left_behind(left, *byte);
    }
    &[]
}

// What stands before the first line feed.
fn first_line(text: &[u8]) -> &[u8]
    ensures { result.now ≡ first_line text.now }
{
    for (at, byte) in text.iter().enumerate() {
        if *byte == b'\n' {
            return &text[..at];
        }
    }
    text
}

/// Whether a text is so many lines, each with its line feed.
#[tactic(auto, using(crate::proofs::Standing::are_more))]
pub(crate) fn are_lines(text: &[u8], count: usize) -> bool
    ensures { result ≡ are_lines count text.now }
{
    let mut left = count;
    for byte in text {
        if left == 0 {
            return false;
        }
        left = left_behind(left, *byte);
    }
    left == 0
}
