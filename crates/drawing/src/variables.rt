//! The box with the variables of a chart.

use crate::sheet::Sheet;
use crate::text::Text;
use sc_graph::Variable;
use scl_printer::{kind_prefix, role_prefix};
use std::alloc::{AllocError, Global};

/// The lines of these variables in their box. Err: memory was refused.
pub(crate) fn variable_lines(alloc: Global, variables: &[Variable]) -> Result<String, AllocError> {
    let mut lines = Text::new(alloc);
    for variable in variables {
        lines.put(role_prefix(variable.role));
        lines.put(kind_prefix(variable.kind));
        lines.put(variable.name.as_str());
        lines.put("\\l");
    }
    lines.finish()
}

/// Puts the box with these lines, where there are some.
pub(crate) fn put_variables(sheet: &mut Sheet, lines: &str) {
    if !lines.is_empty() {
        sheet.put("\"variables\" [shape=\"box\", style=\"filled\", color=\"gray95\", label=\"");
        sheet.put(lines);
        sheet.put("\"];\n");
    }
}
