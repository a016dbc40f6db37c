//! Where a label of the SCL program of a reduced chart comes from in the text of the extended one.

ghost use Rattle.std.specs.Prelude.{◌≡◌, IfOk, IfSome, slice_get};
ghost use Rattle.node_sources.specs.Labels.{IsLabel};
ghost use Rattle.node_sources.specs.Inside.Lowered.{IsLowered};
ghost use Rattle.node_sources.specs.ExtendedLabels.{IsAuthorLabel, author_label};

use crate::extended::lowered::{Lowered, lowered_of};
use crate::extended::node::AuthorNode;
use crate::extended::places::in_author;
use crate::extended::text_places::AuthorPlaced;
use crate::{label_part, label_point};
use core_charts::Element;
use node_elements::point_elements;
use sc_values::Name;
use sqlite_items::at;
use std::alloc::{AllocError, Global};

// The label at the point of this number, where the points come from these elements.
fn label_at(
    placed: &AuthorPlaced,
    elements: &[Option<Element>],
    number: usize,
) -> Option<AuthorNode>
    ensures { result ≡ author_label placed.now.origins placed.now.places (slice_get elements.now number) }
{
    match at(elements, number) {
        Some(Some(element)) => in_author(
            &placed.places,
            label_part(*element),
            placed.origins.origin_of(*element),
        ),
        Some(None) => None,
        None => None,
    }
}

// The label of this name, which stands at the point of this number of what the extended chart of a text is reduced to.
fn label_from(
    alloc: Global,
    text: &str,
    lowered: &Lowered,
    label: Name,
    number: usize,
) -> Result<Option<AuthorNode>, AllocError>
    requires lowered { IsLowered text.now lowered.now }
    requires label { IsLabel lowered.now.scl label number }
    ensures { IfOk result (λ found. IfSome found (IsAuthorLabel text.now label)) }
{
    let elements = point_elements(alloc, &lowered.placed.chart, &lowered.core)?;
    Ok(label_at(&lowered.placed, elements.as_slice(), number))
}

// The label of this name in what the extended chart of a text is reduced to.
fn label_in(
    alloc: Global,
    text: &str,
    lowered: &Lowered,
    label: Name,
) -> Result<Option<AuthorNode>, AllocError>
    requires { IsLowered text.now lowered.now }
    ensures { IfOk result (λ found. IfSome found (IsAuthorLabel text.now label)) }
{
    match label_point(alloc, &lowered.scl, label)? {
        Some(number) => label_from(alloc, text, lowered, label, number),
        None => Ok(None),
    }
}

/// Where the label of the SCL program of the chart to which the extended chart of a text is reduced comes from in that
/// text: the element of the author's from which that element comes for which the lowering makes it. None: there is no
/// such label, or it has no place. Err: memory was refused.
pub fn author_label(
    alloc: Global,
    text: &str,
    label: Name,
) -> Result<Option<AuthorNode>, AllocError>
    ensures { IfOk result (λ found. IfSome found (IsAuthorLabel text.now label)) }
{
    match lowered_of(alloc, text)? {
        Some(lowered) => label_in(alloc, text, lowered.get(), label),
        None => Ok(None),
    }
}
