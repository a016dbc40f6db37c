//! Lines of a text, and the spaces before them.

ghost use Rattle.std.specs.Prelude.{◌≡◌, ◌++◌, IfOk, codes, string_bytes};
ghost use Rattle.chart_texts.specs.Layout.{deeper, line, opened};

use std::alloc::{AllocError, Global};

/// The spaces before the lines of the next level. Err: memory was refused.
pub(crate) fn deeper(alloc: Global, margin: &str) -> Result<String, AllocError>
    ensures { IfOk result (λ text. string_bytes text ≡ deeper margin.now) }
{
    format!(in alloc; "{margin}  ")
}

/// Puts a line of these words behind a text. Err: memory was refused.
pub(crate) fn put_line(text: &mut String, words: &str, margin: &str) -> Result<(), AllocError>
    ensures { IfOk result (λ _. string_bytes text.new ≡ string_bytes text.old ++ line words.now margin.now) }
{
    text.push_str(margin)?;
    text.push_str(words)?;
    text.push_str("\n")
}

/// Puts the line of these words behind a text, behind which something stands in braces. Err: memory was refused.
pub(crate) fn put_head(text: &mut String, words: &str, margin: &str) -> Result<(), AllocError>
    ensures { IfOk result (λ _. string_bytes text.new ≡ string_bytes text.old ++ opened words.now margin.now) }
{
    text.push_str(margin)?;
    text.push_str(words)?;
    text.push_str(" {\n")
}

/// Puts the line of these words behind a text, with its semicolon. Err: memory was refused.
pub(crate) fn put_bare(text: &mut String, words: &str, margin: &str) -> Result<(), AllocError>
    ensures { IfOk result (λ _. string_bytes text.new
        ≡ string_bytes text.old ++ line (words.now ++ codes ";") margin.now) }
{
    text.push_str(margin)?;
    text.push_str(words)?;
    text.push_str(";\n")
}
