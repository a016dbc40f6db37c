//! Reading a text that keeps the rules, and telling the flaws of its draft.

ghost use Rattle.std.specs.Prelude.{◌≡◌, None, IfOk, IfErr};
ghost use Rattle.sc_text.specs.Told.{told_of};
ghost use Rattle.sc_text.specs.First.{first_behind};
ghost use Rattle.scl_reader.specs.Flaws.{scl_flaws};
ghost use Rattle.scl_reader.specs.Checked.{IsFlawless, IsTextFault};

use crate::text_drafts::draft::Draft;
use crate::text_drafts::labels::note_repeated;
use crate::text_drafts::name_row::NameRow;
use crate::text_drafts::program::read_draft;
use crate::text_drafts::survey::{Found, survey_thread};
use sc_text::{Flaw, ReadFault, Scope, first_told};
use sqlite_items::Items;
use std::alloc::{AllocError, Global};

/// The draft of a text that keeps the rules of SCL: names are known, variables and labels declared once, kinds
/// right and limits kept. Err: as `read_draft` says, where the text has no draft; else the first of what is wrong
/// with its draft; or memory was refused.
pub fn read_checked(alloc: Global, text: &str) -> Result<Draft, ReadFault>
    ensures ok { IfOk result (λ draft. IsFlawless text.now draft) }
    ensures fault { IfErr result (λ fault. IsTextFault text.now fault) }
{
    let draft = read_draft(alloc, text)?;
    let first = first_flaw(alloc, &draft)?;
    match first {
        Some(flaw) => Err(ReadFault::Text(flaw.broken, flaw.at)),
        None => Ok(draft),
    }
}

fn first_flaw(alloc: Global, draft: &Draft) -> Result<Option<Flaw>, AllocError>
    ensures { IfOk result (λ first. first ≡ first_behind None (scl_flaws draft.now)) }
{
    let told = told_flaws(alloc, draft)?;
    Ok(first_told(told.as_slice()))
}

/// The flaws of a draft that are told: the first twenty, in the order of the text. Err: memory was refused.
pub fn told_flaws(alloc: Global, draft: &Draft) -> Result<Items<Flaw>, AllocError>
    ensures { IfOk result (λ told. told ≡ told_of (scl_flaws draft.now)) }
{
    let scope = Scope::of(alloc, draft.declarations.as_slice())?;
    let mut found = Found {
        labels: NameRow::new(alloc),
        told: Items::new(alloc),
    };
    scope.tell_declarations(alloc, &mut found.told)?;
    survey_thread(alloc, &scope, draft.statements.as_slice(), &mut found)?;
    let mut told = found.told;
    note_repeated(alloc, &found.labels, &mut told)?;
    Ok(told)
}
