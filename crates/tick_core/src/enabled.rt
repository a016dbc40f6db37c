//! Whether a thread is enabled.

ghost use Rattle.std.specs.Prelude.{◌≡◌, ◌≤◌, ℕ, IsTrue, IfNone, IfSome, Some, None};
ghost use Rattle.std.specs.Option.{option_copied};
ghost use Rattle.std.specs.List.{list_all};
ghost use Rattle.sc_graph.specs.Control.{status_of, has_ended, is_enabled, IsEnabled};
ghost use Rattle.tick_core.specs.Space.Joins.{FindsForks};

use crate::joins::Joins;
use sc_graph::{Control, Program, Status, ThreadId};

/// Whether all these threads have ended.
pub(crate) fn have_ended(control: &Control, children: &[ThreadId]) -> bool
    ensures { result ≡ list_all (λ k. has_ended (status_of control.now k)) children.now }
{
    children
        .iter()
        .all(|child| control.status(*child).has_ended())
}

/// Whether a thread is enabled: at a node, or waiting at a join of which all children have ended.
pub(crate) fn is_enabled(
    joins: &Joins,
    program: &Program,
    control: &Control,
    thread: ThreadId,
) -> bool
    requires { FindsForks program.now joins.now }
    ensures { result ≡ is_enabled program.now control.now thread }
{
    match control.status(thread) {
        Status::At(_) => true,
        Status::Waiting(join) => match joins.joined(program, join) {
            Some(children) => have_ended(control, children),
            None => false,
        },
        Status::Absent | Status::Paused(_) | Status::Ended => false,
    }
}
