//! Reading a chart, and telling the flaws of its draft.

ghost use Rattle.std.specs.Prelude.{◌≡◌, None, IfOk, IfErr};
ghost use Rattle.sc_text.specs.Told.{told_of};
ghost use Rattle.sc_text.specs.First.{first_behind};
ghost use Rattle.chart_reader.specs.Flaws.{chart_flaws};
ghost use Rattle.chart_reader.specs.Checked.{IsSound, IsTextFault};

use crate::text_drafts::draft::DraftChart;
use crate::text_drafts::region_flaws::region_flaws;
use crate::text_drafts::whole::read_draft;
use core_charts::DEPTH_LIMIT;
use sc_text::{Flaw, ReadFault, Scope, first_told};
use sqlite_items::{Boxed, Items};
use std::alloc::{AllocError, Global};

/// The draft of a text that spells a chart without flaws. Err: the fault of a text that has no draft, as `read_draft`
/// tells it; else the first flaw of its draft; or memory was refused.
#[tactic(auto, using(crate::proofs::Checking::undrafted))]
pub fn read_checked(alloc: Global, text: &str) -> Result<DraftChart, ReadFault>
    ensures ok { IfOk result (λ draft. IsSound text.now draft) }
    ensures fault { IfErr result (λ fault. IsTextFault text.now fault) }
{
    // A box, since a draft would be dropped part by part at each way out.
    let draft = Boxed::new(alloc, read_draft(alloc, text)?)?;
    match first_flaw(alloc, draft.get())? {
        Some(flaw) => Err(ReadFault::Text(flaw.broken, flaw.at)),
        None => Ok(draft.into_inner()),
    }
}

fn first_flaw(alloc: Global, draft: &DraftChart) -> Result<Option<Flaw>, AllocError>
    ensures { IfOk result (λ first. first ≡ first_behind None (chart_flaws draft.now)) }
{
    let told = told_flaws(alloc, draft)?;
    Ok(first_told(told.as_slice()))
}

/// The flaws of a draft that are told: the first twenty, in the order of the text. Err: memory was refused.
pub fn told_flaws(alloc: Global, draft: &DraftChart) -> Result<Items<Flaw>, AllocError>
    ensures { IfOk result (λ told. told ≡ told_of (chart_flaws draft.now)) }
{
    let scope = Scope::of(alloc, draft.variables.as_slice())?;
    let mut found = Items::new(alloc);
    scope.tell_declarations(alloc, &mut found)?;
    let regions = draft.regions.as_slice();
    region_flaws(alloc, &scope, DEPTH_LIMIT, regions, &mut found)?;
    Ok(found)
}
