//! The fork of each join, found once.

ghost use Rattle.std.specs.Prelude.{◌≡◌, ◌<◌, Some, IfOk, length, slice_get, slice_set};
ghost use Rattle.std.specs.Option.{option_copied};
ghost use Rattle.sc_graph.specs.Program.{step_at};
ghost use Rattle.sc_graph.specs.Control.{joined_at};
ghost use Rattle.tick_core.specs.Space.Joins.{FindsForks, noted, noted_step};

use sc_graph::{NodeId, Program, Step, ThreadId};
use std::alloc::{AllocError, Global};
use std::marker::Model;
use verifier::Verified;

/// What is made once of a verified image: for each join the fork to which it belongs, so that no
/// node is searched for it. Contracts see a row with a place for each node.
#[derive(Drop)]
pub(crate) struct Joins {
    forks: Vec<Option<NodeId>>,
}

impl Model for Joins {
    ghost use Rattle.std.specs.Prelude.{List, Option, ℕ};

    ghost Value = { List (Option ℕ) };

    ghost view = { λ l. l.forks.items };
}

impl Joins {
    /// The joins of a verified image.
    pub(crate) fn of(alloc: Global, verified: &Verified) -> Result<Joins, AllocError>
        ensures { IfOk result (FindsForks verified.now.program) }
    {
        let program = verified.image().program();
        let mut forks = vec![in alloc; None; program.node_count() as usize]?;
        for node in 0..program.node_count() {
            note_node(program, &mut forks, node);
        }
        Ok(Joins { forks })
    }

    /// The children of the fork to which a join belongs; None where there is none.
    pub(crate) fn joined<'p>(&self, program: &'p Program, join: NodeId) -> Option<&'p [ThreadId]>
        requires { FindsForks program.now self.now }
        ensures { option_copied result ≡ joined_at program.now join }
    {
        let fork = (*self.forks.get(join as usize)?)?;
        match program.step(fork)? {
            Step::Fork {
                children,
                join: own,
            } if *own == join => Some(children.as_slice()),
            _ => None,
        }
    }
}

// Notes a node where it is a fork.
fn note_node(program: &Program, forks: &mut Vec<Option<NodeId>>, node: NodeId)
    ensures { forks.new.items ≡ noted_step forks.old.items node (step_at program.now node) }
{
    if let Some(Step::Fork { children: _, join }) = program.step(node) {
        note(forks, *join, node);
    }
}

// Notes the fork of a join, where none was noted before.
fn note(forks: &mut Vec<Option<NodeId>>, join: NodeId, fork: NodeId)
    ensures { forks.new.items ≡ noted forks.old.items join fork }
{
    let at = join as usize;
    if at < forks.len() && forks[at].is_none() {
        forks[at] = Some(fork);
    }
}
