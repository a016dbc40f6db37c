//! The variables of an extended chart, its signals, those of which is asked what they were, and its constants.

ghost use Rattle.std.specs.Prelude.{◌≡◌, ◌≤◌, ◌++◌, OnOk, length, map};
ghost use Rattle.sc_graph.specs.Limits.{variable_limit};
ghost use Rattle.sc_text.specs.Flaws.{variable_names};
ghost use Rattle.extended_reader.specs.declared.sorts.Sort.TheVariants as sort;
ghost use Rattle.extended_reader.specs.Items.{all_of, declared_of, signal_numbers, constant_of, variable_alone};
ghost use Rattle.extended_reader.specs.Items.{before_of};

use crate::sorts::Sort;
use crate::text_drafts::DraftItem;
use crate::values::{initial, value_in};
use extended_charts::{Constant, Declared};
use sc_graph::{Variable, VariableId};
use sc_text::{Scope, TextOperation};
use sqlite_items::Items;
use std::alloc::AllocError;

/// Puts the variables among these items behind others. Err: memory was refused.
pub(crate) fn put_variables(
    items: &[DraftItem],
    made: &mut Items<Declared>,
) -> Result<(), AllocError>
    ensures { OnOk result (made.new ≡ made.old ++ map declared_of (all_of sort.Variable items.now)) }
{
    for item in items {
        if Sort::Variable.fits(item.word) {
            made.push(declared_of(item))?;
        }
    }
    Ok(())
}

fn declared_of(item: &DraftItem) -> Declared
    ensures { result ≡ declared_of item.now }
{
    Declared {
        variable: Variable {
            name: item.declared.named.name,
            kind: item.declared.kind,
            role: item.declared.role,
        },
        initial: initial(&item.value),
    }
}

/// Puts the numbers of the signals among these items behind others. Err: memory was refused.
pub(crate) fn put_signals(
    scope: &Scope,
    items: &[DraftItem],
    made: &mut Items<VariableId>,
) -> Result<(), AllocError>
    requires { length scope.now.variables.now ≤ variable_limit }
    ensures { OnOk result (made.new ≡
        made.old ++ signal_numbers (variable_names scope.now.variables.now) items.now) }
{
    for item in items {
        if item.signal.is_some() {
            made.push(scope.number(item.declared.named.name))?;
        }
    }
    Ok(())
}

/// Puts the variables of which these items ask what they were behind others. Err: memory was refused.
pub(crate) fn put_befores(
    scope: &Scope,
    items: &[DraftItem],
    made: &mut Items<VariableId>,
) -> Result<(), AllocError>
    requires { length scope.now.variables.now ≤ variable_limit }
    ensures { OnOk result (made.new ≡ made.old ++
        map (before_of (variable_names scope.now.variables.now)) (all_of sort.Before items.now)) }
{
    for item in items {
        if Sort::Before.fits(item.word) {
            made.push(before_of(scope, item))?;
        }
    }
    Ok(())
}

fn before_of(scope: &Scope, item: &DraftItem) -> VariableId
    requires { length scope.now.variables.now ≤ variable_limit }
    ensures { result ≡ before_of (variable_names scope.now.variables.now) item.now }
{
    match &item.value {
        Some(value) => variable_alone(scope, value.operations.as_slice()),
        None => 0,
    }
}

// The number of the variable that is named alone.
fn variable_alone(scope: &Scope, operations: &[TextOperation]) -> VariableId
    requires { length scope.now.variables.now ≤ variable_limit }
    ensures { result ≡ variable_alone (variable_names scope.now.variables.now) operations.now }
{
    match operations {
        [TextOperation::Load(name, _)] => scope.number(*name),
        _ => 0,
    }
}

/// Puts the constants among these items behind others. Err: memory was refused.
pub(crate) fn put_constants(
    items: &[DraftItem],
    made: &mut Items<Constant>,
) -> Result<(), AllocError>
    ensures { OnOk result (made.new ≡ made.old ++ map constant_of (all_of sort.Constant items.now)) }
{
    for item in items {
        if Sort::Constant.fits(item.word) {
            made.push(Constant {
                name: item.declared.named.name,
                value: value_in(&item.value),
            })?;
        }
    }
    Ok(())
}
