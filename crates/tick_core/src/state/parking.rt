//! The space of ticks without its image, so that it can be kept where nothing may be borrowed.

ghost use Rattle.std.specs.Prelude.{◌≡◌, OnOk, length};
ghost use Rattle.tick_core.specs.Parked.{IsSpaceOf};
ghost use Rattle.tick_core.specs.Space.Joins.{FindsForks};
ghost use Rattle.tick_core.specs.Space.Sorting.{OwnRows};

use crate::buckets::Rows;
use crate::given::Given;
use crate::history::Entry;
use crate::joins::Joins;
use crate::kept_claim::KeptClaim;
use crate::state::TickSpace;
use crate::state::first_rows::{kinds_of, no_claims};
use sc_graph::{Control, ThreadId};
use sc_values::Kind;
use sqlite_items::Items;
use std::alloc::{AllocError, Global};
use verifier::Verified;

/// What the ticks of one image take over from one another, without the image: the table of its joins, the kinds of its
/// variables and where its inputs stand, and room for the history, for claims and for a configuration.
#[derive(Drop)]
pub struct ParkedSpace {
    pub(super) joins: Joins,
    pub(super) rows: Rows,
    pub(super) variable_kinds: Vec<Kind>,
    // with room for the budget
    pub(super) history: Vec<Entry>,
    // by thread, none of them open
    pub(super) claims: Vec<Option<KeptClaim>>,
    // with a place for each thread
    pub(super) living: Vec<usize>,
    pub(super) given: Given,
    // a configuration of the program, or like one
    pub(super) spare: Control,
    // the threads that are present in it, with room for each thread, and a place for where each one stands there
    pub(super) listed: Vec<ThreadId>,
    pub(super) places: Vec<usize>,
}

impl ParkedSpace {
    // A space that has these, and no room yet.
    pub(super) fn bare(alloc: Global, joins: Joins, rows: Rows, given: Given) -> ParkedSpace
        ensures joins { result.joins ≡ joins }
        ensures rows { result.rows ≡ rows }
        ensures given { result.given ≡ given }
    {
        ParkedSpace {
            joins,
            rows,
            variable_kinds: Vec::new(alloc),
            history: Vec::new(alloc),
            claims: Vec::new(alloc),
            living: Vec::new(alloc),
            given,
            spare: Control {
                variables: Items::new(alloc),
                statuses: Items::new(alloc),
            },
            listed: Vec::new(alloc),
            places: Vec::new(alloc),
        }
    }

    // Makes the room that the ticks of an image take.
    pub(super) fn fill(&mut self, alloc: Global, verified: &Verified) -> Result<(), AllocError>
        requires forks { FindsForks verified.now.program self.old.joins }
        requires rows { OwnRows verified.now.program verified.now.tables self.old.rows }
        requires given { length self.old.given ≡ length verified.now.program.variables }
        ensures { OnOk result (IsSpaceOf verified.now self.new) }
    {
        let image = verified.image();
        let program = image.program();
        let threads = program.threads().len();
        self.variable_kinds = kinds_of(alloc, program)?;
        self.history = Vec::with_capacity(alloc, image.tables().budget as usize)?;
        self.claims = no_claims(alloc, program)?;
        self.living = vec![in alloc; 0; threads]?;
        self.listed = Vec::with_capacity(alloc, threads)?;
        self.places = vec![in alloc; 0; threads]?;
        self.spare = Control::initial(alloc, program)?;
        Ok(())
    }

    /// The space for the ticks of its image again. It takes no memory.
    pub fn with<'a>(self, verified: &'a Verified) -> TickSpace<'a>
        requires { IsSpaceOf verified.now self }
        ensures { result ≡ verified.now }
    {
        TickSpace {
            verified,
            room: self,
        }
    }
}

impl<'a> TickSpace<'a> {
    /// The space without its image.
    pub fn park(self) -> ParkedSpace
        ensures { IsSpaceOf self.entry result }
    {
        let TickSpace { verified: _, room } = self;
        room
    }
}
