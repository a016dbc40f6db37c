//! Where a thread goes on.

ghost use Rattle.std.specs.Prelude.{◌≡◌, ℕ};
ghost use Rattle.scl.specs.declared.statement.Statement.TheViews.{out-Statement};
ghost use Rattle.scl_graph.specs.Inside.Laying.{way_behind, way_in};

use sc_graph::NodeId;
use sc_values::Name;
use scl::Statement;

/// Where a thread goes on, past labels.
#[derive(Clone, Copy)]
pub enum Way {
    /// At this node.
    At(NodeId),
    /// Behind the label of this name.
    Jumps(Name),
}

/// Tells to which node a way leads.
pub(crate) trait Targets {
    ghost use Rattle.scl_graph.specs.declared.way.Way.{Way};

    ghost target: { Self → Way → ℕ };

    fn target(&self, way: &Way) -> NodeId
        ensures { result ≡ target self.now way.now };
}

/// Where a thread goes on at these statements, whose first node has the number `next`, and behind them.
pub(crate) fn way_of(statements: &[Statement], next: NodeId, behind: &Way) -> Way
    ensures { result ≡ way_in statements.now next behind.now }
{
    for statement in statements {
        match statement {
            Statement::Label(_) => {}
            Statement::Goto(name) => return Way::Jumps(*name),
            _ => return Way::At(next),
        }
    }
    *behind
}

/// Where a thread goes on behind a statement, at which it goes on the way `ahead`: at the rest, whose first
/// node has the number `next`, and behind that.
pub(crate) fn way_behind(
    statement: &Statement,
    rest: &[Statement],
    next: NodeId,
    ahead: &Way,
    behind: &Way,
) -> Way
    ensures { result ≡ way_behind (out-Statement statement.now) rest.now next ahead.now behind.now }
{
    match statement {
        Statement::Label(_) => *ahead,
        _ => way_of(rest, next, behind),
    }
}
