//! What is made once of an image for all rules.

ghost use Rattle.std.specs.Prelude.{◌≡◌, IfOk};
ghost use Rattle.sc_graph.specs.Links.{Tells};
ghost use Rattle.sc_graph.specs.Program.{kinds};
ghost use Rattle.verifier.specs.Inside.Known.{KnownOf};

use crate::extremes::Extremes;
use crate::kinds::kinds_of;
use program_edges::Users;
use sc_graph::{Links, Program, Tables};
use sc_values::Kind;
use sqlite_items::Items;
use std::alloc::{AllocError, Global};

/// What is made once of an image: the links of its program, the kinds of its variables, the nodes that
/// use each variable, and what is chosen of these.
#[derive(Drop)]
pub(crate) struct Known {
    pub(crate) links: Links,
    pub(crate) kinds: Items<Kind>,
    pub(crate) users: Users,
    pub(crate) extremes: Extremes,
}

impl Known {
    /// What is to be known of a program with its tables. Err: memory was refused.
    pub(crate) fn of(alloc: Global, program: &Program, tables: &Tables) -> Result<Known, AllocError>
        ensures { IfOk result (KnownOf program.now tables.now) }
    {
        let users = Users::of(alloc, program)?;
        match Extremes::of(alloc, program, tables, &users) {
            Ok(extremes) => Known::with(alloc, program, users, extremes),
            Err(error) => {
                drop(users);
                Err(error)
            }
        }
    }

    // What is to be known of a program whose variables have these users, of which these are chosen.
    fn with(
        alloc: Global,
        program: &Program,
        users: Users,
        extremes: Extremes,
    ) -> Result<Known, AllocError>
        ensures told { IfOk result (λ k. Tells program.now k.links × (k.kinds ≡ kinds program.now)) }
        ensures given { IfOk result (λ k. (k.users ≡ users) × (k.extremes ≡ extremes)) }
    {
        match links_and_kinds(alloc, program) {
            Ok((links, kinds)) => Ok(Known {
                links,
                kinds,
                users,
                extremes,
            }),
            Err(error) => {
                drop(users);
                drop(extremes);
                Err(error)
            }
        }
    }

    /// The links alone.
    pub(crate) fn into_links(self) -> Links
        ensures { result ≡ self.links }
    {
        let Known {
            links,
            kinds,
            users,
            extremes,
        } = self;
        drop(kinds);
        drop(users);
        drop(extremes);
        links
    }
}

// The links of a program, and the kinds of its variables.
fn links_and_kinds(alloc: Global, program: &Program) -> Result<(Links, Items<Kind>), AllocError>
    ensures { IfOk result (λ both. Tells program.now both.0 × (both.1 ≡ kinds program.now)) }
{
    let links = Links::of(alloc, program)?;
    match kinds_of(alloc, program) {
        Ok(kinds) => Ok((links, kinds)),
        Err(error) => {
            drop(links);
            Err(error)
        }
    }
}
