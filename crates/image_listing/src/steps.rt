//! What a node does, as text.

ghost use Rattle.std.specs.Prelude.{◌≡◌, IfOk, List, string_bytes};
ghost use Rattle.sc_values.specs.Code.{tree_of};
ghost use Rattle.image_listing.specs.Steps.{assigned_text, code_text, combination, combined_text, numbers_text};
ghost use Rattle.image_listing.specs.Steps.{step_text, updated_text};

use sc_graph::{Step, Variable, VariableId};
use sc_values::{Code, Combination, Expr, tree_of};
use scl_printer::{text_of, variable_text};
use sqlite_items::Boxed;
use std::alloc::{AllocError, Global};

/// What a node with this step does, and at which node its thread goes on: `x = x + 1 -> 4`, `if (A) -> 7 else 9`.
/// A code that spells no expression is shown as `?`. Err: memory was refused.
pub fn step_text(alloc: Global, variables: &[Variable], step: &Step) -> Result<String, AllocError>
    ensures { IfOk result (λ text. string_bytes text ≡ step_text variables.now step.now) }
{
    match step {
        Step::Assign {
            variable,
            code,
            next,
        } => assigned(alloc, variables, *variable, code, *next),
        Step::Update {
            variable,
            combine,
            code,
            next,
        } => updated(alloc, variables, *variable, *combine, code, *next),
        Step::Cond { code, then, other } => {
            let test = code_text(alloc, variables, code)?;
            let then = *then;
            let other = *other;
            format!(in alloc; "if ({test}) -> {then} else {other}")
        }
        Step::Fork { children, join } => {
            let children = numbers(alloc, children.as_slice())?;
            let join = *join;
            format!(in alloc; "fork{children} join {join}")
        }
        Step::Join { next } => {
            let next = *next;
            format!(in alloc; "join -> {next}")
        }
        Step::Surf { depth } => {
            let depth = *depth;
            format!(in alloc; "pause -> {depth}")
        }
        Step::Depth { next } => {
            let next = *next;
            format!(in alloc; "resume -> {next}")
        }
        Step::Exit => String::from_str(alloc, "exit"),
    }
}

fn assigned(
    alloc: Global,
    variables: &[Variable],
    variable: VariableId,
    code: &Code,
    next: u16,
) -> Result<String, AllocError>
    ensures { IfOk result (λ text. string_bytes text ≡ assigned_text variables.now variable code.now next) }
{
    let name = variable_text(variables, variable);
    let value = code_text(alloc, variables, code)?;
    format!(in alloc; "{name} = {value} -> {next}")
}

fn updated(
    alloc: Global,
    variables: &[Variable],
    variable: VariableId,
    combine: Combination,
    code: &Code,
    next: u16,
) -> Result<String, AllocError>
    ensures { IfOk result (λ text. string_bytes text ≡ updated_text variables.now variable combine code.now next) }
{
    let name = variable_text(variables, variable);
    let value = combined_text(alloc, variables, variable, combine, code)?;
    format!(in alloc; "{name} = {value} -> {next}")
}

// The text of a variable combined with the value of the expression that a code spells.
fn combined_text(
    alloc: Global,
    variables: &[Variable],
    variable: VariableId,
    combine: Combination,
    code: &Code,
) -> Result<String, AllocError>
    ensures { IfOk result (λ text. string_bytes text
        ≡ combined_text variables.now variable combine (tree_of code.now)) }
{
    match tree_of(alloc, code.operations())? {
        Some(by) => {
            let whole = combination(alloc, variable, combine, by)?;
            text_of(alloc, variables, &whole)
        }
        None => String::from_str(alloc, "?"),
    }
}

// A variable combined with the value of an expression.
#[tactic(auto, unfolding(crate::specs::Steps::combination))]
fn combination(
    alloc: Global,
    variable: VariableId,
    combine: Combination,
    by: Expr,
) -> Result<Expr, AllocError>
    ensures { IfOk result (λ whole. whole ≡ combination variable combine by) }
{
    let present = Boxed::new(alloc, Expr::Load(variable))?;
    Ok(Expr::Binary(combine.operator(), present, Boxed::new(alloc, by)?))
}

// The text of the expression that a code spells.
fn code_text(alloc: Global, variables: &[Variable], code: &Code) -> Result<String, AllocError>
    ensures { IfOk result (λ text. string_bytes text ≡ code_text variables.now code.now) }
{
    match tree_of(alloc, code.operations())? {
        Some(tree) => text_of(alloc, variables, &tree),
        None => String::from_str(alloc, "?"),
    }
}

// The numbers, each with a space before it.
pub(crate) fn numbers(alloc: Global, numbers: &[u16]) -> Result<String, AllocError>
    ensures { IfOk result (λ text. string_bytes text ≡ numbers_text numbers.now) }
{
    let mut text = String::new(alloc);
    for number in numbers {
        let number = *number;
        let one = format!(in alloc; " {number}")?;
        text.push_str(one.as_str())?;
    }
    Ok(text)
}
