//! What stands at a place of a thread's text, past labels.

ghost use Rattle.std.specs.Prelude.{◌≡◌};
ghost use Rattle.scl_graph.specs.Inside.Gathering.{landing_in};

use sc_values::Name;
use scl::Statement;

/// What stands at a place of a thread's text, past labels.
#[derive(Clone, Copy)]
pub(crate) enum Landing {
    /// The node of this number.
    Node(u64),
    /// The goto of this number in the text, which leads to this label.
    Goto { number: u64, label: Name },
}

/// What stands at these statements, of which the next node and the next goto have these numbers, and behind
/// them.
pub(crate) fn landing_of(
    statements: &[Statement],
    node: u64,
    goto: u64,
    behind: &Landing,
) -> Landing
    ensures { result ≡ landing_in statements.now node goto behind.now }
{
    for statement in statements {
        match statement {
            Statement::Label(_) => {}
            Statement::Goto(label) => {
                return Landing::Goto {
                    number: goto,
                    label: *label,
                };
            }
            _ => return Landing::Node(node),
        }
    }
    *behind
}
