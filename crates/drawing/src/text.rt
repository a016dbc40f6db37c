//! A text that is put together.

ghost use Rattle.std.specs.Prelude.{◌≡◌, [], IfErr, IfOk, true, string_bytes};
ghost use Rattle.std.specs.Fmt.{decimal, signed_decimal};
ghost use Rattle.drawing.specs.Drawing.{IsDrawing};
ghost use Rattle.drawing.specs.Inside.Puts.{IsWhole, Puts, when};

use sc_values::Name;
use std::alloc::{AllocError, Global};

/// A text that is put together, one piece behind the other. That memory was refused is remembered, and said at the end.
#[derive(Drop)]
pub(crate) struct Text {
    text: String,
    is_refused: bool,
}

impl Text {
    /// Nothing was put.
    pub(crate) fn new(alloc: Global) -> Text
        ensures { string_bytes result.text ≡ [] }
    {
        Text {
            text: String::new(alloc),
            is_refused: false,
        }
    }

    /// Puts a piece.
    pub(crate) fn put(&mut self, piece: &str)
        ensures { Puts self.old self.new piece.now }
    {
        if self.text.push_str(piece).is_err() {
            self.is_refused = true;
        }
    }

    /// Puts a piece where the condition holds.
    pub(crate) fn put_if(&mut self, condition: bool, piece: &str)
        ensures { Puts self.old self.new (when condition piece.now) }
    {
        if condition {
            self.put(piece);
        }
    }

    /// Puts a number.
    pub(crate) fn put_number(&mut self, number: u32)
        ensures { Puts self.old self.new (decimal number) }
    {
        if write!(self.text, "{number}").is_err() {
            self.is_refused = true;
        }
    }

    /// Puts a number, with its sign where it has one.
    pub(crate) fn put_signed(&mut self, number: i32)
        ensures { Puts self.old self.new (signed_decimal number) }
    {
        if write!(self.text, "{number}").is_err() {
            self.is_refused = true;
        }
    }

    /// Puts a text that was made, if memory was not refused to it.
    pub(crate) fn put_made(&mut self, made: Result<String, AllocError>)
        ensures put { IfOk made (λ text. Puts self.old self.new (string_bytes text)) }
        ensures refused { IfErr made (λ _. self.new.is_refused ≡ true) }
    {
        match made {
            Ok(made) => self.put(made.as_str()),
            Err(_) => self.refuse(),
        }
    }

    /// Says that memory was refused.
    pub(crate) fn refuse(&mut self)
        ensures { self.new.is_refused ≡ true }
    {
        self.is_refused = true;
    }

    /// What was put. Err: memory was refused.
    pub(crate) fn finish(self) -> Result<String, AllocError>
        ensures { IfOk result (λ text. IsWhole self (string_bytes text)) }
    {
        if self.is_refused {
            Err(AllocError)
        } else {
            Ok(self.text)
        }
    }
}

/// The Graphviz text of a graph of this name, in which this was put. Err: memory was refused.
pub(crate) fn graph_text(alloc: Global, name: &Name, body: Text) -> Result<String, AllocError>
    ensures { IfOk result (λ text. IsDrawing name.now (string_bytes text)) }
{
    let body = body.finish()?;
    let mut text = Text::new(alloc);
    text.put("digraph \"");
    text.put(name.as_str());
    text.put("\" {\n");
    text.put(body.as_str());
    text.put("}\n");
    text.finish()
}
