//! The text of answers, which is put together word by word.

use itoa::Buffer;
use sc_values::Value;
use std::alloc::Global;
use std::fmt::Display;

/// The text of answers so far. Where memory was refused, it lacks something, and says so when it is asked.
#[derive(Drop)]
pub(crate) struct Answers {
    text: String,
    refused: bool,
}

impl Answers {
    /// No answer yet.
    pub(crate) fn new(alloc: Global) -> Answers {
        Answers {
            text: String::new(alloc),
            refused: false,
        }
    }

    /// What was answered.
    pub(crate) fn text(&self) -> &str {
        self.text.as_str()
    }

    /// Whether nothing of it is missing.
    pub(crate) fn is_whole(&self) -> bool {
        !self.refused
    }

    /// A text.
    pub(crate) fn tell(&mut self, text: &str) {
        if self.text.push_str(text).is_err() {
            self.refused = true;
        }
    }

    /// What it prints as.
    pub(crate) fn show<D: Display>(&mut self, shown: &D) {
        if write!(self.text, "{shown}").is_err() {
            self.refused = true;
        }
    }

    /// A number.
    pub(crate) fn number(&mut self, number: usize) {
        let mut digits = Buffer::new();
        self.tell(digits.format(number));
    }

    /// A text with a number behind it.
    pub(crate) fn tell_with(&mut self, text: &str, number: usize) {
        self.tell(text);
        self.number(number);
    }

    /// Numbers, each behind a space.
    pub(crate) fn numbers(&mut self, numbers: &[usize]) {
        for number in numbers {
            self.tell_with(" ", *number);
        }
    }

    /// A value behind a space.
    pub(crate) fn value(&mut self, value: Value) {
        match value {
            Value::Bool(true) => self.tell(" true"),
            Value::Bool(false) => self.tell(" false"),
            Value::Int(number) => {
                let mut digits = Buffer::new();
                self.tell(" ");
                self.tell(digits.format(number));
            }
        }
    }

    /// Values, each behind a space.
    pub(crate) fn values(&mut self, values: &[Value]) {
        for value in values {
            self.value(*value);
        }
    }

    /// The first values, so many of them, each behind a space.
    pub(crate) fn first_values(&mut self, values: &[Value], count: usize) {
        for (at, value) in values.iter().enumerate() {
            if at < count {
                self.value(*value);
            }
        }
    }
}
