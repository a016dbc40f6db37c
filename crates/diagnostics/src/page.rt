//! A text that is written piece by piece.

ghost use Rattle.std.specs.Prelude.{◌≡◌, [], IfOk, true, string_bytes};
ghost use Rattle.std.specs.Fmt.{decimal};
ghost use Rattle.diagnostics.specs.Inside.Pages.{IsWhole, KeepsRefusal, Puts};

use node_sources::LineColumn;
use std::alloc::{AllocError, Global};

/// What is written so far. Where memory was refused it lacks something, and says so when it is asked for.
#[derive(Drop)]
pub(crate) struct Page {
    text: String,
    is_refused: bool,
}

impl Page {
    /// Nothing is written yet.
    pub(crate) fn new(alloc: Global) -> Page
        ensures { string_bytes result.text ≡ [] }
    {
        Page {
            text: String::new(alloc),
            is_refused: false,
        }
    }

    /// Notes that memory was refused to what is to be written.
    pub(crate) fn refuse(&mut self)
        ensures { self.new.is_refused ≡ true }
    {
        self.is_refused = true;
    }

    /// Writes a piece of text.
    pub(crate) fn put(&mut self, piece: &str)
        ensures { Puts self.old self.new piece.now }
    {
        if self.text.push_str(piece).is_err() {
            self.is_refused = true;
        }
    }

    /// Writes a character.
    pub(crate) fn put_char(&mut self, letter: char)
        ensures { KeepsRefusal self.old self.new }
    {
        if self.text.push(letter).is_err() {
            self.is_refused = true;
        }
    }

    /// Writes a number.
    pub(crate) fn put_number(&mut self, number: usize)
        ensures { Puts self.old self.new (decimal number) }
    {
        if write!(self.text, "{number}").is_err() {
            self.is_refused = true;
        }
    }

    /// Writes a line and a column, with a colon between them.
    pub(crate) fn put_place(&mut self, line_column: LineColumn)
        ensures { KeepsRefusal self.old self.new }
    {
        self.put_number(line_column.line);
        self.put(":");
        self.put_number(line_column.column);
    }

    /// Writes these words, with a piece of text where `@` stands.
    pub(crate) fn put_filled(&mut self, words: &str, piece: &str)
        ensures { KeepsRefusal self.old self.new }
    {
        self.put_quoted(words, "", piece);
    }

    /// The same, with a sign before the piece and behind it.
    pub(crate) fn put_quoted(&mut self, words: &str, sign: &str, piece: &str)
        ensures { KeepsRefusal self.old self.new }
    {
        for letter in words.chars() {
            if letter == '@' {
                self.put(sign);
                self.put(piece);
                self.put(sign);
            } else {
                self.put_char(letter);
            }
        }
    }

    /// What was written. Err: memory was refused.
    pub(crate) fn written(&self) -> Result<&str, AllocError>
        ensures { IfOk result (λ text. IsWhole self.now text.now) }
    {
        if self.is_refused {
            Err(AllocError)
        } else {
            Ok(self.text.as_str())
        }
    }

    /// The same, as the text itself.
    pub(crate) fn finish(self) -> Result<String, AllocError>
        ensures { IfOk result (λ text. IsWhole self (string_bytes text)) }
    {
        let Page { text, is_refused } = self;
        if is_refused {
            drop(text);
            Err(AllocError)
        } else {
            Ok(text)
        }
    }
}
