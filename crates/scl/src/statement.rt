//! The statements of SCL.

use sc_graph::VariableId;
use sc_values::{Expr, Name};
use sqlite_items::Items;

/// A statement. A variable is named by its number, a label by its name.
#[derive(Drop)]
pub enum Statement {
    /// The variable becomes the value of the expression.
    Assign {
        variable: VariableId,
        value: Expr,
    },
    /// A place to which gotos lead.
    Label(Name),
    /// Goes on behind the label.
    Goto(Name),
    /// Waits for the next tick.
    Pause,
    /// Goes on with the first list where the test is true, else with the second.
    If {
        test: Expr,
        first: Items<Statement>,
        second: Items<Statement>,
    },
    /// Each list runs as a thread of its own, and the statement ends when all of them have.
    Fork {
        branches: Items<Items<Statement>>,
    },
}
