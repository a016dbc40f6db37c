//! Tests of what no command shows of faults explained: rules that a compiled program never breaks, and columns.

mod line_columns;
mod rules;
