//! From which elements of the author's those of a reduced chart come.

ghost use Rattle.std.specs.Prelude.{◌≡◌, OnOk, slice_get};
ghost use Rattle.node_sources.specs.Origins.{made_for, nothing, origin_of, own, with_made_region, with_own_region};
ghost use Rattle.node_sources.specs.Origins.{with_state};

use core_charts::{Element, next};
use sqlite_items::{Items, at};
use std::alloc::{AllocError, Global};

/// The element of the author's from which one of a reduced chart comes: his own one, or, where it is made, that for
/// which it is made.
#[derive(Clone, Copy)]
pub struct AuthorOrigin {
    pub from: Element,
    pub is_made: bool,
}

/// The origins of the elements of a reduced chart, of each sort in the order of their numbers, and how many of its
/// regions are the author's.
#[derive(Drop)]
pub struct AuthorOrigins {
    pub regions: Items<AuthorOrigin>,
    pub states: Items<AuthorOrigin>,
    pub transitions: Items<AuthorOrigin>,
    pub effects: Items<AuthorOrigin>,
    pub own_regions: u32,
}

impl AuthorOrigin {
    /// That of one of the author's own.
    pub(crate) fn own(from: Element) -> AuthorOrigin
        ensures { result ≡ own from }
    {
        AuthorOrigin {
            from,
            is_made: false,
        }
    }

    /// That of one that is made for this.
    pub(crate) fn made_for(from: Element) -> AuthorOrigin
        ensures { result ≡ made_for from }
    {
        AuthorOrigin {
            from,
            is_made: true,
        }
    }
}

impl AuthorOrigins {
    /// Of no element yet.
    pub(crate) fn none(alloc: Global) -> AuthorOrigins
        ensures { result ≡ nothing }
    {
        AuthorOrigins {
            regions: Items::new(alloc),
            states: Items::new(alloc),
            transitions: Items::new(alloc),
            effects: Items::new(alloc),
            own_regions: 0,
        }
    }

    /// Puts that of a region that is made, and stands in this, behind the others. Err: memory was refused.
    pub(crate) fn put_made_region(&mut self, around: Element) -> Result<(), AllocError>
        ensures { OnOk result (self.new ≡ with_made_region around self.old) }
    {
        self.regions.push(AuthorOrigin::made_for(around))
    }

    /// Puts that of the author's next region behind the others. Err: memory was refused.
    pub(crate) fn put_own_region(&mut self) -> Result<(), AllocError>
        ensures { OnOk result (self.new ≡ with_own_region self.old) }
    {
        let number = self.own_regions;
        self.regions
            .push(AuthorOrigin::own(Element::Region(number)))?;
        self.own_regions = next(number)?;
        Ok(())
    }

    /// Puts that of a state behind the others. Err: memory was refused.
    pub(crate) fn put_state(&mut self, origin: AuthorOrigin) -> Result<(), AllocError>
        ensures { OnOk result (self.new ≡ with_state origin self.old) }
    {
        self.states.push(origin)
    }

    /// The origin of an element of the reduced chart. None: it has none of this number.
    pub fn origin_of(&self, element: Element) -> Option<AuthorOrigin>
        ensures { result ≡ origin_of self.now element }
    {
        match element {
            Element::Chart => Some(AuthorOrigin::own(Element::Chart)),
            Element::Region(number) => origin_at(self.regions.as_slice(), number),
            Element::State(number) => origin_at(self.states.as_slice(), number),
            Element::Transition(number) => origin_at(self.transitions.as_slice(), number),
            Element::Effect(number) => origin_at(self.effects.as_slice(), number),
        }
    }
}

fn origin_at(origins: &[AuthorOrigin], number: u32) -> Option<AuthorOrigin>
    ensures { result ≡ slice_get origins.now number }
{
    match at(origins, number as usize) {
        Some(origin) => Some(*origin),
        None => None,
    }
}
