//! The rule of priority along flow: it never rises along an instantaneous edge.

ghost use Rattle.std.specs.Prelude.{◌<◌};
ghost use Rattle.sc_graph.specs.Protocol.{FlowAt};
ghost use Rattle.sc_graph.specs.Tables.{priority};
ghost use Rattle.verifier.specs.Inside.Faults.{IsFault};
ghost use Rattle.verifier.specs.Inside.Linked.{IsLinked};

use program_edges::{Sought, find_instant};
use sc_graph::{Links, NodeId, Place, Program, Tables};

/// A place where the rule is broken, where it is.
pub(crate) fn flow_fault(program: &Program, tables: &Tables, links: &Links) -> Option<Place>
    requires { IsLinked program.now links.now }
    ensures { IsFault (FlowAt program.now tables.now) result }
{
    for m in 0..program.node_count() {
        if let Some(n) = find_instant(program, links, m, &Higher { tables, than: m }) {
            return Some(Place::Pair(m, n));
        }
    }
    None
}

// The nodes of a higher priority than that of a node.
#[derive(Clone, Copy)]
struct Higher<'a> {
    tables: &'a Tables,
    than: NodeId,
}

impl<'a> Sought for Higher<'a> {
    ghost wants = { λ h n. priority h.tables.now h.than < priority h.tables.now n };

    fn is_wanted(&self, node: NodeId) -> bool {
        self.tables.priority(self.than) < self.tables.priority(node)
    }
}
