//! SCL programs.

ghost use Rattle.scl.specs.Rules.{KeepsRules};

use crate::statement::Statement;
use sc_graph::Variable;
use sc_values::Name;
use sqlite_items::Items;

/// A program: its variables, named by their numbers, and the statements of its first thread. It keeps the
/// rules and limits of SCL, those that texts have among them.
#[derive(Drop)]
pub struct Scl {
    pub name: Name,
    pub variables: Items<Variable>,
    pub body: Items<Statement>,
    pub ghost kept: { ∥ KeepsRules name variables body ∥₁ },
}

impl Scl {
    ghost use Rattle.std.specs.Prelude.{◌≡◌};

    /// The program of these parts, which are known to keep the rules and limits.
    pub fn known(name: Name, variables: Items<Variable>, body: Items<Statement>) -> Scl
        requires { KeepsRules name variables body }
        ensures name { result.name ≡ name }
        ensures variables { result.variables ≡ variables }
        ensures body { result.body ≡ body }
    {
        Scl {
            name,
            variables,
            body,
        }
    }
}
