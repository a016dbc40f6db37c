//! Which transitions are tested when.

ghost use Rattle.std.specs.Prelude.{◌≡◌, ◌++◌, IfOk, OnOk, filter};
ghost use Rattle.core_charts.specs.Tests.{at_once, strong_aborts, closing_tests, first_closing_tests};
ghost use Rattle.chart_machine.specs.Inside.{is_chosen};

use core_charts::Transition;
use sqlite_items::Items;
use std::alloc::{AllocError, Global};

// Some of the transitions of a state: those that are tested in the tick of entry too, or those of a kind.
#[derive(Clone, Copy)]
enum Choice {
    AtOnce,
    Strong,
    Weak,
    Join,
}

impl Choice {
    fn takes(self, transition: &Transition) -> bool
        ensures { result ≡ is_chosen self transition.now }
    {
        match self {
            Choice::AtOnce => transition.immediate,
            Choice::Strong => transition.kind.is_strong(),
            Choice::Weak => transition.kind.is_weak(),
            Choice::Join => transition.kind.is_join(),
        }
    }
}

// Puts those of these transitions that are chosen behind others.
fn put_chosen(
    alloc: Global,
    choice: Choice,
    transitions: &[Transition],
    chosen: &mut Items<Transition>,
) -> Result<(), AllocError>
    ensures { OnOk result (chosen.new ≡ chosen.old ++ filter (is_chosen choice) transitions.now) }
{
    for transition in transitions {
        if choice.takes(transition) {
            chosen.push(transition.copied(alloc)?)?;
        }
    }
    Ok(())
}

// Those that are tested in the tick of entry too.
pub(crate) fn at_once(
    alloc: Global,
    transitions: &[Transition],
) -> Result<Items<Transition>, AllocError>
    ensures { IfOk result (λ chosen. chosen ≡ at_once transitions.now) }
{
    let mut chosen = Items::new(alloc);
    put_chosen(alloc, Choice::AtOnce, transitions, &mut chosen)?;
    Ok(chosen)
}

pub(crate) fn strong_aborts(
    alloc: Global,
    transitions: &[Transition],
) -> Result<Items<Transition>, AllocError>
    ensures { IfOk result (λ chosen. chosen ≡ strong_aborts transitions.now) }
{
    let mut chosen = Items::new(alloc);
    put_chosen(alloc, Choice::Strong, transitions, &mut chosen)?;
    Ok(chosen)
}

// What is tested when nobody inside can step: weak aborts, then the termination.
pub(crate) fn closing_tests(
    alloc: Global,
    transitions: &[Transition],
) -> Result<Items<Transition>, AllocError>
    ensures { IfOk result (λ chosen. chosen ≡ closing_tests transitions.now) }
{
    let mut chosen = Items::new(alloc);
    put_chosen(alloc, Choice::Weak, transitions, &mut chosen)?;
    put_chosen(alloc, Choice::Join, transitions, &mut chosen)?;
    Ok(chosen)
}

// In the tick of entry only the immediate weak aborts.
pub(crate) fn first_closing_tests(
    alloc: Global,
    transitions: &[Transition],
) -> Result<Items<Transition>, AllocError>
    ensures { IfOk result (λ chosen. chosen ≡ first_closing_tests transitions.now) }
{
    let mut weak = Items::new(alloc);
    put_chosen(alloc, Choice::Weak, transitions, &mut weak)?;
    let mut chosen = at_once(alloc, weak.as_slice())?;
    put_chosen(alloc, Choice::Join, transitions, &mut chosen)?;
    Ok(chosen)
}
