//! What a byte of a text may be part of.

ghost use Rattle.std.specs.Prelude.{◌≡◌};
ghost use Rattle.extended_reader.specs.Comments.{behind, ends};

/// What a byte of a text is part of.
#[derive(Clone, Copy, PartialEq, Eq)]
pub enum Part {
    /// No comment.
    Plain,
    /// None, or one that the slash before the byte begins.
    BehindSlash,
    /// A comment that ends with its line.
    Line,
    /// A block comment.
    Block,
    /// A block comment, which the star before the byte may end.
    BehindStar,
}

impl Part {
    /// What the byte behind this one is part of.
    pub(crate) fn behind(self, byte: u8) -> Part
        ensures { result ≡ behind self byte }
    {
        match (self, byte) {
            (Part::Plain, b'/') => Part::BehindSlash,
            (Part::Plain, _) => Part::Plain,
            (Part::BehindSlash, b'*') => Part::Block,
            (Part::BehindSlash, b'/') => Part::Line,
            (Part::BehindSlash, _) => Part::Plain,
            (Part::Line, b'\n') => Part::Plain,
            (Part::Line, _) => Part::Line,
            (Part::Block, b'*') => Part::BehindStar,
            (Part::Block, _) => Part::Block,
            (Part::BehindStar, b'/') => Part::Plain,
            (Part::BehindStar, b'*') => Part::BehindStar,
            (Part::BehindStar, _) => Part::Block,
        }
    }

    /// Whether this byte is the last one of a block comment.
    pub(crate) fn ends(self, byte: u8) -> bool
        ensures { result ≡ ends self byte }
    {
        self == Part::BehindStar && byte == b'/'
    }
}
