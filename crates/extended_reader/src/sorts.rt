//! The sorts of what stands among the variables of an extended chart.

ghost use Rattle.std.specs.Prelude.{◌≡◌, IfOk, OnOk, ◌++◌};
ghost use Rattle.extended_reader.specs.Items.{is_of, all_of, sorted, declarations};

use crate::text_drafts::DraftItem;
use sc_text::{Declaration, Named};
use sqlite_items::Items;
use std::alloc::{AllocError, Global};

/// A variable, what a variable was at the end of the tick before, or a constant.
#[derive(Clone, Copy)]
pub(crate) enum Sort {
    Variable,
    Before,
    Constant,
}

impl Sort {
    /// Whether an item behind this word is of the sort.
    pub(crate) fn fits(self, word: Option<Named>) -> bool
        ensures { result ≡ is_of self word }
    {
        match (self, word) {
            (Sort::Variable, word) => word.is_none(),
            (Sort::Before, Some(word)) => word.name.as_str() != "const",
            (Sort::Constant, Some(word)) => word.name.as_str() == "const",
            (_, None) => false,
        }
    }
}

/// What the items are declared as, in the order of their numbers. Err: memory was refused.
pub(crate) fn sorted(alloc: Global, items: &[DraftItem]) -> Result<Items<Declaration>, AllocError>
    ensures { IfOk result (λ all. all ≡ declarations (sorted items.now)) }
{
    let mut all = Items::new(alloc);
    put_declared(Sort::Variable, items, &mut all)?;
    put_declared(Sort::Before, items, &mut all)?;
    put_declared(Sort::Constant, items, &mut all)?;
    Ok(all)
}

// Puts what the items of a sort are declared as behind others.
fn put_declared(
    sort: Sort,
    items: &[DraftItem],
    found: &mut Items<Declaration>,
) -> Result<(), AllocError>
    ensures { OnOk result (found.new ≡ found.old ++ declarations (all_of sort items.now)) }
{
    for item in items {
        if sort.fits(item.word) {
            found.push(item.declared)?;
        }
    }
    Ok(())
}
