//! What is warned of.

ghost use Rattle.std.specs.Prelude.{◌≡◌, ◌++◌, OnOk};
ghost use Rattle.chart_warnings.specs.Codes.{code};
ghost use Rattle.chart_warnings.specs.Warnings.{told_where};

use sqlite_items::Items;
use std::alloc::AllocError;

/// What a chart says and most likely does not mean. States are numbered from 0 in the order of the text, those of the
/// whole chart; transitions and regions within their state, variables as the chart has them.
#[derive(Clone, Copy, PartialEq, Eq)]
pub enum Warning {
    /// W01: this abort leaves an output as the inside of the superstate has set it.
    StaysOn {
        state: usize,
        transition: usize,
        output: usize,
    },
    /// W02: this transition is never taken, since one without a trigger is taken before it.
    Forestalled {
        state: usize,
        transition: usize,
    },
    /// W03: nothing leads to this state.
    Unreached {
        state: usize,
    },
    /// W04: this local variable is never asked for.
    NeverRead {
        variable: usize,
    },
    /// W05: this output or local variable is never set.
    NeverSet {
        variable: usize,
    },
    /// W06: this input is never asked for.
    NeverAsked {
        input: usize,
    },
    /// W07: this termination is never taken, since this region of the superstate has no final state.
    NeverEnded {
        state: usize,
        transition: usize,
        region: usize,
    },
    /// W08: this state, in which its region begins, is never left for another one of the region.
    NeverLeft {
        state: usize,
    },
}

impl Warning {
    /// The number in its code.
    pub fn code(self) -> u8
        ensures { result ≡ code self }
    {
        match self {
            Warning::StaysOn { .. } => 1,
            Warning::Forestalled { .. } => 2,
            Warning::Unreached { .. } => 3,
            Warning::NeverRead { .. } => 4,
            Warning::NeverSet { .. } => 5,
            Warning::NeverAsked { .. } => 6,
            Warning::NeverEnded { .. } => 7,
            Warning::NeverLeft { .. } => 8,
        }
    }
}

/// A warning comes behind others, where it is one.
pub(crate) fn warn_where(
    is_one: bool,
    warning: Warning,
    warnings: &mut Items<Warning>,
) -> Result<(), AllocError>
    ensures { OnOk result (warnings.new ≡ warnings.old ++ told_where is_one warning) }
{
    if is_one {
        warnings.push(warning)?;
    }
    Ok(())
}
