//! Of the nodes that use each variable, one for each thread: one of the least priority, or of the greatest.

ghost use Rattle.std.specs.Prelude.{◌≡◌, IfOk, OnOk, length, get_or, []};
ghost use Rattle.program_edges.specs.Extremes.{StandFor};
ghost use Rattle.verifier.specs.Inside.Chosen.{ExtremesOf};
ghost use Rattle.verifier.specs.Inside.Each.{EachOf};

use program_edges::{Extreme, NodeLists, NotedPlaces, Users, extremes_of};
use sc_graph::{NodeId, Program, Tables};
use sqlite_items::Items;
use std::alloc::{AllocError, Global};

/// For each variable, one node for each thread: of its inits, and of its updates, one of the least
/// priority; of its updates, and of its reads, one of the greatest.
#[derive(Drop)]
pub(crate) struct Extremes {
    pub(crate) least_inits: Items<Items<NodeId>>,
    pub(crate) least_updates: Items<Items<NodeId>>,
    pub(crate) greatest_updates: Items<Items<NodeId>>,
    pub(crate) greatest_reads: Items<Items<NodeId>>,
}

impl Extremes {
    /// The extremes among the users of the variables. Err: memory was refused.
    pub(crate) fn of(
        alloc: Global,
        program: &Program,
        tables: &Tables,
        users: &Users,
    ) -> Result<Extremes, AllocError>
        ensures { IfOk result (ExtremesOf program.now tables.now users.now) }
    {
        let mut extremes = Extremes {
            least_inits: Items::new(alloc),
            least_updates: Items::new(alloc),
            greatest_updates: Items::new(alloc),
            greatest_reads: Items::new(alloc),
        };
        match extremes.choose(alloc, program, tables, users) {
            Ok(()) => Ok(extremes),
            Err(error) => {
                drop(extremes);
                Err(error)
            }
        }
    }

    // Chooses the extremes among the users, where nothing was chosen yet.
    fn choose(
        &mut self,
        alloc: Global,
        program: &Program,
        tables: &Tables,
        users: &Users,
    ) -> Result<(), AllocError>
        requires least { (self.old.least_inits ≡ []) × (self.old.least_updates ≡ []) }
        requires greatest { (self.old.greatest_updates ≡ []) × (self.old.greatest_reads ≡ []) }
        ensures { OnOk result (ExtremesOf program.now tables.now users.now self.new) }
    {
        let (inits, updates, reads) = (&users.inits, &users.updates, &users.reads);
        let (least, greatest) = (Extreme::Least, Extreme::Greatest);
        put_extremes(alloc, program, tables, least, inits, &mut self.least_inits)?;
        put_extremes(
            alloc,
            program,
            tables,
            least,
            updates,
            &mut self.least_updates,
        )?;
        put_extremes(
            alloc,
            program,
            tables,
            greatest,
            updates,
            &mut self.greatest_updates,
        )?;
        put_extremes(
            alloc,
            program,
            tables,
            greatest,
            reads,
            &mut self.greatest_reads,
        )
    }
}

// Puts for each variable, of the nodes that use it one for each thread, where there are no lists yet.
fn put_extremes(
    alloc: Global,
    program: &Program,
    tables: &Tables,
    extreme: Extreme,
    users: &NodeLists,
    lists: &mut Items<Items<NodeId>>,
) -> Result<(), AllocError>
    requires { lists.old ≡ [] }
    ensures { OnOk result (EachOf (StandFor program.now tables.now.priorities extreme) (length program.now.variables)
        users.now lists.new) }
{
    let mut places = NotedPlaces::none(alloc, program.thread_count())?;
    for x in 0..program.variable_count() {
        let list = extremes_of(alloc, program, tables, extreme, users.of(x), &mut places)?;
        lists.push(list)?;
    }
    Ok(())
}

/// The list of a variable.
pub(crate) fn list_of(lists: &Items<Items<NodeId>>, x: u16) -> &[NodeId]
    ensures { result.now ≡ get_or lists.now x [] }
{
    match lists.get(x as usize) {
        Some(list) => list.as_slice(),
        None => &[],
    }
}
