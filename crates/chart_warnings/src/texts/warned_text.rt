//! What is known where a warning is told.

use crate::texts::places::ChartPlaces;
use node_sources::name_in;
use sc_graph::Variable;
use sc_values::Kind;
use sqlite_items::at;
use std::alloc::{AllocError, Global};

/// The shown name of a file, its text, the variables of its chart, and the places in it of which warnings speak.
#[derive(Clone, Copy)]
pub(crate) struct WarnedText<'a> {
    pub(crate) name: &'a str,
    pub(crate) text: &'a str,
    pub(crate) variables: &'a [Variable],
    pub(crate) places: &'a ChartPlaces,
}

impl<'a> WarnedText<'a> {
    /// The name of a variable. Err: memory was refused.
    pub(crate) fn variable(self, alloc: Global, number: usize) -> Result<String, AllocError> {
        String::from_str(alloc, name_in(self.text, self.places.variable(number)))
    }

    /// The name of a state. Err: memory was refused.
    pub(crate) fn state(self, alloc: Global, number: usize) -> Result<String, AllocError> {
        String::from_str(alloc, name_in(self.text, self.places.state(number)))
    }

    /// The name of a region of a state. Err: memory was refused.
    pub(crate) fn region(
        self,
        alloc: Global,
        state: usize,
        number: usize,
    ) -> Result<String, AllocError> {
        String::from_str(alloc, name_in(self.text, self.places.region(state, number)))
    }

    /// The value at which a variable rests: `false` or 0.
    pub(crate) fn rest(self, number: usize) -> &'static str {
        match at(self.variables, number) {
            Some(variable) => match variable.kind {
                Kind::Bool => "false",
                Kind::Int => "0",
            },
            None => "0",
        }
    }
}
