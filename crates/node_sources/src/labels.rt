//! Where a label of a program stands in its source text.

ghost use Rattle.std.specs.Prelude.{◌≡◌, ◌++◌, ◌↔◌, IfOk, IfSome, IsTrue, Some, map, slice_get};
ghost use Rattle.node_elements.specs.Points.{in_row, points_of, text_points};
ghost use Rattle.node_sources.specs.Labels.{ChartLabel, IsLabel, IsLabelOrigin, SclLabel};
ghost use Rattle.node_sources.specs.Labels.{label_at, label_origin, label_part};
ghost use Rattle.node_sources.specs.Places.{places_of};
ghost use Rattle.compiler.specs.Kept.{KeepsChart, KeepsDraft};

use crate::chart_origins::element_origin;
use crate::chart_places::{Places, places_of};
use crate::origin::{Origin, SourcePart};
use crate::scl_sources::{first_origin, tokens_of};
use crate::statements::spots_of;
use chart_reader::DraftChart;
use compiler::{ReadChart, ReadSource, ReadText};
use core_charts::Element;
use node_elements::point_elements;
use sc_values::Name;
use scl::{Scl, Statement};
use scl_reader::Draft;
use sqlite_items::{Items, at};
use std::alloc::{AllocError, Global};

/// Where the label of the program of a text stands: in SCL text the label itself, in a chart the state, or the region
/// at its end, for which the lowering makes it. None: the text has no such label. Err: memory was refused.
#[tactic(auto, using(crate::proofs::LanguagesTold::chart_kept, crate::proofs::LanguagesTold::draft_kept, crate::proofs::LanguagesTold::scl_label_told, crate::proofs::LanguagesTold::chart_label_told))]
pub fn label_origin(
    alloc: Global,
    source: &ReadSource<'_>,
    label: Name,
) -> Result<Option<Origin>, AllocError>
    ensures { IfOk result (λ found. IfSome found (IsLabelOrigin source.now.text label)) }
{
    match source.reading() {
        ReadText::Chart(kept) => chart_label(alloc, source.text(), kept, source.scl(), label),
        ReadText::Scl(draft) => scl_label(alloc, source.text(), draft, source.scl(), label),
    }
}

// Puts for each point of these statements the label that stands there behind the others.
#[cycle(labels)]
fn put_row(statements: &[Statement], labels: &mut Items<Option<Name>>) -> Result<(), AllocError>
    ensures { IfOk result (λ _. labels.new ≡ labels.old ++ map label_at (in_row (map points_of statements.now))) }
{
    for statement in statements {
        put_statement(statement, labels)?;
    }
    Ok(())
}

#[cycle(labels)]
fn put_statement(statement: &Statement, labels: &mut Items<Option<Name>>) -> Result<(), AllocError>
    ensures { IfOk result (λ _. labels.new ≡ labels.old ++ map label_at (points_of statement.now)) }
{
    match statement {
        Statement::Label(name) => labels.push(Some(*name)),
        Statement::Assign { .. } | Statement::Goto(_) | Statement::Pause => labels.push(None),
        Statement::If {
            test: _,
            first,
            second,
        } => {
            labels.push(None)?;
            put_row(first.as_slice(), labels)?;
            put_row(second.as_slice(), labels)
        }
        Statement::Fork { branches } => {
            labels.push(None)?;
            for branch in branches.as_slice() {
                put_row(branch.as_slice(), labels)?;
                labels.push(None)?;
            }
            Ok(())
        }
    }
}

fn is_named(found: Option<Name>, label: Name) -> bool
    ensures { IsTrue result ↔ (found ≡ Some label) }
{
    match found {
        Some(name) => name == label,
        None => false,
    }
}

// The number of the first of these names that is this one.
fn first_named(labels: &[Option<Name>], label: Name) -> Option<usize>
    ensures { IfSome result (λ k. slice_get labels.now k ≡ Some (Some label)) }
{
    for (number, found) in labels.iter().enumerate() {
        if is_named(*found, label) {
            return Some(number);
        }
    }
    None
}

// For each point of a program the label that stands there.
#[tactic(auto, using(crate::proofs::LabelsTold::with_end))]
fn labels_of(alloc: Global, scl: &Scl) -> Result<Items<Option<Name>>, AllocError>
    ensures { IfOk result (λ labels. labels ≡ map label_at (text_points scl.now.body)) }
{
    let mut labels = Items::new(alloc);
    put_row(scl.body.as_slice(), &mut labels)?;
    labels.push(None)?;
    Ok(labels)
}

/// The number of the point of a program at which a label of this name stands. None: it has none. Err: memory was
/// refused.
#[tactic(auto, using(crate::proofs::LabelsTold::is_label))]
pub fn label_point(alloc: Global, scl: &Scl, label: Name) -> Result<Option<usize>, AllocError>
    ensures { IfOk result (λ found. IfSome found (IsLabel scl.now label)) }
{
    let labels = labels_of(alloc, scl)?;
    Ok(first_named(labels.as_slice(), label))
}

/// What stands at the place of an element for which the lowering makes a label.
pub fn label_part(from: Element) -> SourcePart
    ensures { result ≡ label_part from }
{
    match from {
        Element::Chart => SourcePart::Chart,
        Element::Region(_) => SourcePart::Region,
        Element::State(_) => SourcePart::State,
        Element::Transition(_) => SourcePart::Abort,
        Element::Effect(_) => SourcePart::Transition,
    }
}

// The origin of a label that is made for an element.
fn origin_of(places: &Places, elements: &[Option<Element>], number: usize) -> Option<Origin>
    ensures { result ≡ label_origin places.now (slice_get elements.now number) }
{
    match at(elements, number) {
        Some(Some(from)) => element_origin(places, label_part(*from), *from),
        Some(None) => None,
        None => None,
    }
}

// The label of this name in the lowering of the chart of a text.
fn chart_label(
    alloc: Global,
    text: &str,
    kept: &ReadChart,
    scl: &Scl,
    label: Name,
) -> Result<Option<Origin>, AllocError>
    requires { KeepsChart text.now scl.now kept.now }
    ensures { IfOk result (λ found. IfSome found (ChartLabel text.now label)) }
{
    match label_point(alloc, scl, label)? {
        Some(number) => chart_label_at(alloc, text, kept, scl, label, number),
        None => Ok(None),
    }
}

// The same, where the label stands at the point of this number.
fn chart_label_at(
    alloc: Global,
    text: &str,
    kept: &ReadChart,
    scl: &Scl,
    label: Name,
    number: usize,
) -> Result<Option<Origin>, AllocError>
    requires kept { KeepsChart text.now scl.now kept.now }
    requires label { IsLabel scl.now label number }
    ensures { IfOk result (λ found. IfSome found (ChartLabel text.now label)) }
{
    let elements = point_elements(alloc, &kept.chart, &kept.core)?;
    drafted_origin(alloc, &kept.draft, elements.as_slice(), number)
}

// The origin of the label at the point of this number, where the points come from these elements of the chart of this
// draft.
fn drafted_origin(
    alloc: Global,
    draft: &DraftChart,
    elements: &[Option<Element>],
    number: usize,
) -> Result<Option<Origin>, AllocError>
    ensures { IfOk result (λ found. found ≡ label_origin (places_of draft.now) (slice_get elements.now number)) }
{
    let places = places_of(alloc, draft)?;
    let found = origin_of(&places, elements, number);
    drop(places);
    Ok(found)
}

// The label of this name in the draft of an SCL text.
fn scl_label(
    alloc: Global,
    text: &str,
    draft: &Draft,
    scl: &Scl,
    label: Name,
) -> Result<Option<Origin>, AllocError>
    requires { KeepsDraft text.now scl.now draft.now }
    ensures { IfOk result (λ found. IfSome found (SclLabel text.now label)) }
{
    let Some(number) = label_point(alloc, scl, label)? else {
        return Ok(None);
    };
    let tokens = tokens_of(alloc, text, draft)?;
    let spots = spots_of(alloc, tokens.as_slice(), draft.statements.as_slice())?;
    Ok(first_origin(spots.as_slice(), number))
}
