//! Printed SCL text: the laws, over the definitions alone.
#![tactic(auto)]

mod laws;

pub use laws::{
    printed_expressions_are_read, printed_expressions_nest, printed_programs_read_back,
};
