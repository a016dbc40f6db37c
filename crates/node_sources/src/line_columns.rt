//! Lines and columns.

ghost use Rattle.std.specs.Prelude.{ℕ, ◌≡◌, ◌<◌, ◌+◌, ◌^◌, List, get_or, length, take};
ghost use Rattle.node_sources.specs.LinesColumns.{begins_character, IsLineColumn};

/// A place in a text: its line and its column, each from 1. Columns count characters; a tab is one.
#[derive(Clone, Copy, PartialEq, Eq)]
pub struct LineColumn {
    pub line: usize,
    pub column: usize,
}

/// Where a text begins.
pub(crate) const START: LineColumn = LineColumn { line: 1, column: 1 };

// Whether a character begins by this byte.
fn begins_character(byte: u8) -> bool
    ensures { result ≡ begins_character byte }
{
    !(128 <= byte && byte <= 191)
}

impl LineColumn {
    /// The place behind a byte that stands here. The further bytes of a character move nothing.
    pub(crate) fn behind(self, byte: u8) -> LineColumn
        ensures { (text : List ℕ) (i : ℕ) → i < length text → length text < 2 ^ 63 → byte ≡ get_or text i 0
            → IsLineColumn (take i text) self → IsLineColumn (take (i + 1) text) result }
    {
        if byte == b'\n' {
            let line = self.line.saturating_add(1);
            return LineColumn { line, column: 1 };
        }
        if begins_character(byte) {
            let column = self.column.saturating_add(1);
            return LineColumn {
                line: self.line,
                column,
            };
        }
        self
    }
}

/// The place of the byte of this number, from 0; of the end, where the text has no more than that.
pub fn line_column_of(text: &str, at: usize) -> LineColumn
    ensures { IsLineColumn (take at text.now) result }
{
    let bytes = text.as_bytes();
    let mut line_column = START;
    for i in 0..at.min(bytes.len()) {
        line_column = line_column.behind(bytes[i]);
    }
    line_column
}
