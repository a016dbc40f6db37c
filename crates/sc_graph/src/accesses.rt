//! What a step reads and writes, and which of two concurrent steps comes first.

ghost use Rattle.std.specs.Prelude.{◌≡◌, ◌↔◌, IsTrue, Contains};
ghost use Rattle.std.specs.List.{list_any};
ghost use Rattle.sc_values.specs.declared.operator.Combination.{Combination as Operator};
ghost use Rattle.sc_values.specs.Code.{literal_of, loads};
ghost use Rattle.sc_values.specs.Access.{Reads, Inits, Updates, Precedes, Clash, MayPrecede, same_literal};
ghost use Rattle.sc_graph.specs.Accesses.{access_of};
ghost use Rattle.sc_graph.specs.Inside.Lookups.{is_load};

use crate::program::{Step, VariableId};
use sc_values::{Code, Operation};

impl Step {
    /// Whether it may come before another step, where the two are concurrent.
    pub fn may_precede(&self, other: &Step) -> bool
        ensures { IsTrue result ↔ MayPrecede (access_of self.now) (access_of other.now) }
    {
        !other.precedes(self) && !self.clashes(other)
    }

    /// Whether it must come before another step, where the two are concurrent.
    pub fn precedes(&self, other: &Step) -> bool
        ensures { IsTrue result ↔ Precedes (access_of self.now) (access_of other.now) }
    {
        match self {
            Step::Assign { variable, .. } => other.updates(*variable) || other.reads(*variable),
            Step::Update { variable, .. } => other.reads(*variable),
            _ => false,
        }
    }

    /// Whether it may not be taken beside another step, where the two are concurrent: both initialize
    /// a variable and are not by one literal, or both update it by different combinations.
    pub fn clashes(&self, other: &Step) -> bool
        ensures { IsTrue result ↔ Clash (access_of self.now) (access_of other.now) }
    {
        match (self, other) {
            (
                Step::Assign {
                    variable: x,
                    code: a,
                    ..
                },
                Step::Assign {
                    variable: y,
                    code: b,
                    ..
                },
            ) => *x == *y && !are_one_literal(a, b),
            (
                Step::Update {
                    variable: u,
                    combine: f,
                    ..
                },
                Step::Update {
                    variable: v,
                    combine: g,
                    ..
                },
            ) => *u == *v && *f != *g,
            _ => false,
        }
    }

    /// Whether it initializes a variable.
    pub fn initializes(&self, variable: VariableId) -> bool
        ensures { IsTrue result ↔ Inits (access_of self.now) variable }
    {
        match self {
            Step::Assign { variable: own, .. } => *own == variable,
            _ => false,
        }
    }

    /// Whether it updates a variable.
    pub fn updates(&self, variable: VariableId) -> bool
        ensures { IsTrue result ↔ ((f : Operator) × Updates (access_of self.now) variable f) }
    {
        match self {
            Step::Update { variable: own, .. } => *own == variable,
            _ => false,
        }
    }

    /// Whether it reads a variable: its code loads it. An update as such isn't a read of its own
    /// variable.
    pub fn reads(&self, variable: VariableId) -> bool
        ensures { IsTrue result ↔ Reads (access_of self.now) variable }
    {
        match self {
            Step::Assign { code, .. } | Step::Update { code, .. } | Step::Cond { code, .. } => {
                is_loaded(code, variable)
            }
            _ => false,
        }
    }
}

/// Whether two codes are one literal and nothing else.
pub fn are_one_literal(a: &Code, b: &Code) -> bool
    ensures { result ≡ same_literal (literal_of a.now) (literal_of b.now) }
{
    match (a.literal(), b.literal()) {
        (Some(v), Some(w)) => v == w,
        _ => false,
    }
}

/// Whether a code loads a variable.
pub fn is_loaded(code: &Code, variable: VariableId) -> bool
    ensures { IsTrue result ↔ Contains (loads code.now) variable }
{
    is_loaded_among(code.operations(), variable)
}

// Whether one of these operations loads a variable.
fn is_loaded_among(operations: &[Operation], variable: VariableId) -> bool
    ensures { result ≡ list_any (is_load variable) operations.now }
{
    operations
        .iter()
        .any(|operation| loads_variable(operation, variable))
}

// Whether an operation loads a variable.
fn loads_variable(operation: &Operation, variable: VariableId) -> bool
    ensures { result ≡ is_load variable operation.now }
{
    match operation {
        Operation::Load(loaded) => *loaded == variable,
        _ => false,
    }
}
