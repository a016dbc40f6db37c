//! The write-conflict rule: no two concurrent inits of a variable, and no two concurrent updates of
//! it by different combinations.

ghost use Rattle.std.specs.Prelude.{IfOk};
ghost use Rattle.sc_graph.specs.Protocol.{NoConflictAt};
ghost use Rattle.program_edges.specs.Users.{UsersOf};
ghost use Rattle.verifier.specs.Inside.Faults.{IsFault};
ghost use Rattle.verifier.specs.Inside.Linked.{IsLinked};

use program_edges::{Users, find_conflict};
use sc_graph::{Links, Place, Program};
use std::alloc::{AllocError, Global};

/// A place where the rule is broken, where it is. Err: memory was refused.
pub(crate) fn no_conflict_fault(
    alloc: Global,
    program: &Program,
    links: &Links,
    users: &Users,
) -> Result<Option<Place>, AllocError>
    requires links { IsLinked program.now links.now }
    requires users { UsersOf program.now users.now }
    ensures { IfOk result (IsFault (NoConflictAt program.now)) }
{
    match find_conflict(alloc, program, links, users)? {
        Some((m, n)) => Ok(Some(Place::Pair(m, n))),
        None => Ok(None),
    }
}
