//! The flaws of a text that are told, by whichever grammar it is read.

ghost use Rattle.std.specs.Prelude.{IfOk};
ghost use Rattle.diagnostics.specs.ListReports.{AreTold};
ghost use Rattle.diagnostics.specs.Continuations.{IsReadBy};
ghost use Rattle.diagnostics.specs.declared.could_follow.grammars.Grammar.TheVariants as grammars;

use crate::Grammar;
use sc_text::{Flaw, ReadFault};
use sqlite_items::Items;
use std::alloc::{AllocError, Global};

/// The flaws of the draft that a text spells by the grammar that its first token tells: the first twenty, in the order
/// of the text. None, where it spells none. Err: memory was refused.
pub(crate) fn flaws_of(alloc: Global, text: &str) -> Result<Items<Flaw>, AllocError>
    ensures { IfOk result (AreTold text.now) }
{
    match Grammar::of(text) {
        Grammar::Chart => flaws_of_chart(alloc, text),
        Grammar::ExtendedChart => flaws_of_extended(alloc, text),
        Grammar::Scl => flaws_of_program(alloc, text),
    }
}

#[tactic(auto, using(crate::proofs::Drafted::chart_told, crate::proofs::Drafted::no_chart))]
fn flaws_of_chart(alloc: Global, text: &str) -> Result<Items<Flaw>, AllocError>
    requires { IsReadBy text.now grammars.Chart }
    ensures { IfOk result (AreTold text.now) }
{
    match chart_reader::read_draft(alloc, text) {
        Ok(draft) => {
            let told = chart_reader::told_flaws(alloc, &draft)?;
            Ok(told)
        }
        Err(ReadFault::Text(_, _)) => Ok(Items::new(alloc)),
        Err(ReadFault::Memory) => Err(AllocError),
    }
}

#[tactic(auto, using(crate::proofs::Drafted::extended_told, crate::proofs::Drafted::no_extended))]
fn flaws_of_extended(alloc: Global, text: &str) -> Result<Items<Flaw>, AllocError>
    requires { IsReadBy text.now grammars.ExtendedChart }
    ensures { IfOk result (AreTold text.now) }
{
    match extended_reader::read_extended_draft(alloc, text) {
        Ok(draft) => {
            let told = extended_reader::extended_told_flaws(alloc, &draft)?;
            Ok(told)
        }
        Err(ReadFault::Text(_, _)) => Ok(Items::new(alloc)),
        Err(ReadFault::Memory) => Err(AllocError),
    }
}

#[tactic(auto, using(crate::proofs::Drafted::program_told, crate::proofs::Drafted::no_program))]
fn flaws_of_program(alloc: Global, text: &str) -> Result<Items<Flaw>, AllocError>
    requires { IsReadBy text.now grammars.Scl }
    ensures { IfOk result (AreTold text.now) }
{
    match scl_reader::read_draft(alloc, text) {
        Ok(draft) => {
            let told = scl_reader::told_flaws(alloc, &draft)?;
            Ok(told)
        }
        Err(ReadFault::Text(_, _)) => Ok(Items::new(alloc)),
        Err(ReadFault::Memory) => Err(AllocError),
    }
}
