//! Printing SCL text.
#![tactic(auto)]

mod buffered;
mod expressions;
mod lines;
mod operation_texts;
mod parentheses;
mod print_fault;
mod program;
mod statements;
mod tree_texts;

pub use expressions::{
    closing_text, infix_text, is_infix, opening_text, prefix_text, variable_text,
};
pub use lines::{kind_prefix, role_prefix};
pub use operation_texts::divisor_text;
pub use print_fault::PrintFault;
pub use program::print;
pub use tree_texts::text_of;
