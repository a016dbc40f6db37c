//! What is wrong with what stands among the variables of an extended chart.

ghost use Rattle.std.specs.Prelude.{◌≡◌, IfOk, OnOk, map};
ghost use Rattle.sc_text.specs.Told.{told_behind};
ghost use Rattle.extended_reader.specs.Flaws.{joined, word_flaws, plain_variables, is_literal_of, literal_flaws};
ghost use Rattle.extended_reader.specs.Flaws.{initial_flaws, constant_flaws, is_name, before_flaws, worded_flaws};
ghost use Rattle.extended_reader.specs.Flaws.{headed_flaws};
ghost use Rattle.extended_reader.specs.Flaws.{signal_flaws, item_flaws, is_truth, is_number, is_minus};
ghost use Rattle.sc_text.specs.Flaws.{is_input, is_load};

use crate::text_drafts::draft::DraftItem;
use sc_graph::Role;
use sc_text::{
    Declaration, FaultKind, Flaw, Named, Scope, TextExpression, TextOperation, note_told,
};
use sc_values::{Kind, UnaryOperator, Value};
use sqlite_items::Items;
use std::alloc::{AllocError, Global};

/// Tells where another word is meant. Err: memory was refused.
pub(crate) fn word_flaws(
    alloc: Global,
    meant: &str,
    word: Named,
    found: &mut Items<Flaw>,
) -> Result<(), AllocError>
    ensures { OnOk result (found.new ≡ told_behind found.old (word_flaws meant.now word)) }
{
    let is_another = word.name.as_str() != meant;
    note_told(alloc, found, is_another, FaultKind::Grammar, word.at)
}

/// The variables among these items. Err: memory was refused.
pub(crate) fn plain_variables(
    alloc: Global,
    items: &[DraftItem],
) -> Result<Items<Declaration>, AllocError>
    ensures { IfOk result (λ all. all ≡ plain_variables items.now) }
{
    let mut all = Items::new(alloc);
    for item in items {
        if item.word.is_none() {
            all.push(item.declared)?;
        }
    }
    Ok(all)
}

/// Tells the flaws of these items, where the scope is that of the variables among them. Err: memory was refused.
pub(crate) fn items_flaws(
    alloc: Global,
    scope: &Scope,
    items: &[DraftItem],
    found: &mut Items<Flaw>,
) -> Result<(), AllocError>
    ensures { OnOk result (found.new ≡ told_behind found.old
        (joined (map (item_flaws scope.now.variables.now) items.now))) }
{
    for item in items {
        item_flaws(alloc, scope, item, found)?;
    }
    Ok(())
}

#[tactic(auto, using(sc_text::proofs::ToldInOrder::told_both))]
fn item_flaws(
    alloc: Global,
    scope: &Scope,
    item: &DraftItem,
    found: &mut Items<Flaw>,
) -> Result<(), AllocError>
    ensures { OnOk result (found.new ≡ told_behind found.old (item_flaws scope.now.variables.now item.now)) }
{
    signal_flaws(alloc, item.signal, item.declared, found)?;
    headed_flaws(alloc, scope, item, found)
}

// The flaws of the word before the name of a signal.
fn signal_flaws(
    alloc: Global,
    signal: Option<Named>,
    declared: Declaration,
    found: &mut Items<Flaw>,
) -> Result<(), AllocError>
    ensures { OnOk result (found.new ≡ told_behind found.old (signal_flaws signal declared)) }
{
    match signal {
        Some(word) => {
            let is_broken = word.name.as_str() != "signal" || is_input(declared.role);
            note_told(alloc, found, is_broken, FaultKind::Grammar, word.at)
        }
        None => Ok(()),
    }
}

fn is_input(role: Role) -> bool
    ensures { result ≡ is_input role }
{
    match role {
        Role::Input => true,
        Role::Output | Role::Local => false,
    }
}

fn headed_flaws(
    alloc: Global,
    scope: &Scope,
    item: &DraftItem,
    found: &mut Items<Flaw>,
) -> Result<(), AllocError>
    ensures { OnOk result (found.new ≡ told_behind found.old
        (headed_flaws scope.now.variables.now item.now.word item.now.declared item.now.value)) }
{
    match item.word {
        Some(word) => worded_flaws(alloc, scope, word, item.declared, &item.value, found),
        None => initial_flaws(alloc, item.declared, &item.value, found),
    }
}

fn initial_flaws(
    alloc: Global,
    declared: Declaration,
    value: &Option<TextExpression>,
    found: &mut Items<Flaw>,
) -> Result<(), AllocError>
    ensures { OnOk result (found.new ≡ told_behind found.old (initial_flaws declared value.now)) }
{
    match value {
        Some(value) => match declared.role {
            Role::Input => note_told(alloc, found, true, FaultKind::Rule, declared.named.at),
            Role::Output | Role::Local => literal_flaws(alloc, declared.kind, value, found),
        },
        None => Ok(()),
    }
}

fn worded_flaws(
    alloc: Global,
    scope: &Scope,
    word: Named,
    declared: Declaration,
    value: &Option<TextExpression>,
    found: &mut Items<Flaw>,
) -> Result<(), AllocError>
    ensures { OnOk result (found.new ≡ told_behind found.old
        (worded_flaws scope.now.variables.now word declared value.now)) }
{
    if word.name.as_str() == "const" {
        return constant_flaws(alloc, declared, value, found);
    }
    if word.name.as_str() == "pre" {
        return before_flaws(alloc, scope, declared, value, found);
    }
    note_told(alloc, found, true, FaultKind::Grammar, word.at)
}

fn constant_flaws(
    alloc: Global,
    declared: Declaration,
    value: &Option<TextExpression>,
    found: &mut Items<Flaw>,
) -> Result<(), AllocError>
    ensures { OnOk result (found.new ≡ told_behind found.old (constant_flaws declared value.now)) }
{
    match value {
        Some(value) => literal_flaws(alloc, declared.kind, value, found),
        None => note_told(alloc, found, true, FaultKind::Rule, declared.named.at),
    }
}

fn before_flaws(
    alloc: Global,
    scope: &Scope,
    declared: Declaration,
    value: &Option<TextExpression>,
    found: &mut Items<Flaw>,
) -> Result<(), AllocError>
    ensures { OnOk result (found.new ≡ told_behind found.old
        (before_flaws scope.now.variables.now declared value.now)) }
{
    match value {
        Some(value) => {
            if is_name(value.operations.as_slice()) {
                scope.tell_expression(alloc, Some(declared.kind), value, found)
            } else {
                note_told(alloc, found, true, FaultKind::Kind, value.start)
            }
        }
        None => note_told(alloc, found, true, FaultKind::Rule, declared.named.at),
    }
}

fn literal_flaws(
    alloc: Global,
    kind: Kind,
    value: &TextExpression,
    found: &mut Items<Flaw>,
) -> Result<(), AllocError>
    ensures { OnOk result (found.new ≡ told_behind found.old (literal_flaws kind value.now)) }
{
    let is_other = !is_literal_of(kind, value.operations.as_slice());
    note_told(alloc, found, is_other, FaultKind::Kind, value.start)
}

fn is_name(operations: &[TextOperation]) -> bool
    ensures { result ≡ is_name operations.now }
{
    match operations {
        [one] => is_load(one),
        _ => false,
    }
}

fn is_literal_of(kind: Kind, operations: &[TextOperation]) -> bool
    ensures { result ≡ is_literal_of kind operations.now }
{
    match kind {
        Kind::Bool => is_truth_alone(operations),
        Kind::Int => is_number_alone(operations),
    }
}

fn is_truth_alone(operations: &[TextOperation]) -> bool
    ensures { result ≡ is_literal_of Kind.Bool operations.now }
{
    match operations {
        [one] => is_truth(one),
        _ => false,
    }
}

fn is_number_alone(operations: &[TextOperation]) -> bool
    ensures { result ≡ is_literal_of Kind.Int operations.now }
{
    match operations {
        [one] => is_number(one),
        [one, minus] => is_number(one) && is_minus(minus),
        _ => false,
    }
}

fn is_load(operation: &TextOperation) -> bool
    ensures { result ≡ is_load operation.now }
{
    match operation {
        TextOperation::Load(_, _) => true,
        _ => false,
    }
}

fn is_truth(operation: &TextOperation) -> bool
    ensures { result ≡ is_truth operation.now }
{
    match operation {
        TextOperation::Literal(value) => match value {
            Value::Bool(_) => true,
            Value::Int(_) => false,
        },
        _ => false,
    }
}

fn is_number(operation: &TextOperation) -> bool
    ensures { result ≡ is_number operation.now }
{
    match operation {
        TextOperation::Literal(value) => match value {
            Value::Bool(_) => false,
            Value::Int(_) => true,
        },
        _ => false,
    }
}

fn is_minus(operation: &TextOperation) -> bool
    ensures { result ≡ is_minus operation.now }
{
    match operation {
        TextOperation::Unary(operator) => match operator {
            UnaryOperator::Negate => true,
            _ => false,
        },
        _ => false,
    }
}
