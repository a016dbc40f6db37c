//! Superstates, and the aborts by which what is inside them may be left.

ghost use Rattle.std.specs.Prelude.{◌≡◌, IfOk};
ghost use Rattle.abort_expansion.specs.Flags.{counts, has_join};
ghost use Rattle.node_elements.specs.ExpansionOrigins.{aborts_around, around_of, first_abort, first_of, is_of};
ghost use Rattle.node_elements.specs.ExpansionOrigins.{weak_around};

use core_charts::{Transition, TransitionKind, has_aborts, next};
use std::alloc::AllocError;

/// Which transitions of a superstate are meant.
#[derive(Clone, Copy)]
pub enum Sort {
    Strong,
    Weak,
    Join,
}

impl Sort {
    /// Whether a transition of this kind is one of them.
    pub(crate) fn has(self, kind: TransitionKind) -> bool
        ensures { result ≡ is_of self kind }
    {
        match self {
            Sort::Strong => kind.is_strong(),
            Sort::Weak => kind.is_weak(),
            Sort::Join => kind.is_join(),
        }
    }
}

/// The aborts of a superstate: the numbers of its first strong and of its first weak one.
#[derive(Clone, Copy)]
pub struct Around {
    pub strong: Option<u32>,
    pub weak: Option<u32>,
}

impl Around {
    /// Those of a superstate with these transitions, of which the first one has this number. Err: no memory holds so
    /// many.
    pub(crate) fn of(own: &[Transition], number: u32) -> Result<Around, AllocError>
        ensures { IfOk result (λ around. around ≡ around_of own.now number) }
    {
        Ok(Around {
            strong: first_of(Sort::Strong, own, number)?,
            weak: first_of(Sort::Weak, own, number)?,
        })
    }

    /// The first abort, strong ones before weak ones.
    pub(crate) fn first_abort(self) -> Option<u32>
        ensures { result ≡ first_abort self }
    {
        if self.strong.is_some() {
            self.strong
        } else {
            self.weak
        }
    }
}

/// The number of the first transition of a sort, where that of the first one is this. Err: no memory holds so many.
pub(crate) fn first_of(
    sort: Sort,
    own: &[Transition],
    number: u32,
) -> Result<Option<u32>, AllocError>
    ensures { IfOk result (λ found. found ≡ first_of sort own.now number) }
{
    let mut here = number;
    for transition in own {
        if sort.has(transition.kind) {
            return Ok(Some(here));
        }
        here = next(here)?;
    }
    Ok(None)
}

/// Whether a superstate of these has aborts.
pub(crate) fn aborts_around(around: &[Around]) -> bool
    ensures { result ≡ aborts_around around.now }
{
    for superstate in around {
        if superstate.strong.is_some() || superstate.weak.is_some() {
            return true;
        }
    }
    false
}

/// Whether a superstate of these has weak aborts.
pub(crate) fn weak_around(around: &[Around]) -> bool
    ensures { result ≡ weak_around around.now }
{
    for superstate in around {
        if superstate.weak.is_some() {
            return true;
        }
    }
    false
}

fn has_join(own: &[Transition]) -> bool
    ensures { result ≡ has_join own.now }
{
    for transition in own {
        if transition.kind.is_join() {
            return true;
        }
    }
    false
}

/// Whether a superstate with these transitions counts its regions, by whether weak aborts enclose it.
pub(crate) fn counts(weak_around: bool, own: &[Transition]) -> bool
    ensures { result ≡ counts weak_around own.now }
{
    has_join(own) && (has_aborts(own) || weak_around)
}
