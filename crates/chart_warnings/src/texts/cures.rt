//! What helps where a warning is told.

use crate::Warning;
use crate::texts::allowance::code_text;
use crate::texts::warned_text::WarnedText;
use std::alloc::{AllocError, Global};

/// What helps, and how to say that it is meant. Err: memory was refused.
pub(crate) fn cure_of(
    alloc: Global,
    warned: WarnedText<'_>,
    warning: Warning,
) -> Result<String, AllocError> {
    let cure = change_of(alloc, warned, warning)?;
    let code = code_text(warning);
    format!(in alloc; "{cure}; or say that it is meant: `// sct: allow {code}` at its line")
}

// What may be written otherwise.
fn change_of(
    alloc: Global,
    warned: WarnedText<'_>,
    warning: Warning,
) -> Result<String, AllocError> {
    match warning {
        Warning::StaysOn { output, .. } => setting(alloc, warned, output),
        other => String::from_str(alloc, fixed_change(other)),
    }
}

// That an abort sets an output.
fn setting(alloc: Global, warned: WarnedText<'_>, output: usize) -> Result<String, AllocError> {
    let name = warned.variable(alloc, output)?;
    let rest = warned.rest(output);
    format!(in alloc; "set it in the effects of the transition, as `do {name} = {rest}`")
}

// The same for those whose words need no name.
fn fixed_change(warning: Warning) -> &'static str {
    match warning {
        Warning::StaysOn { .. } => "set it in the effects of the transition",
        Warning::Forestalled { .. } => {
            "give that one a trigger, put this one before it, or take this one away"
        }
        Warning::Unreached { .. } => {
            "let a transition of another state lead there, or take the state away"
        }
        Warning::NeverRead { .. } | Warning::NeverAsked { .. } => {
            "use it in a trigger or an effect, or take it away"
        }
        Warning::NeverSet { .. } => "set it in an effect, or take it away",
        Warning::NeverEnded { .. } => {
            "make a state of the region final, or leave the superstate by an abort"
        }
        Warning::NeverLeft { .. } => {
            "let a transition lead from it to another state, or take the others away"
        }
    }
}
