//! The expressions, effects and transitions that expansion makes.

ghost use Rattle.std.specs.Prelude.{◌≡◌, ◌∷◌, ◌++◌, [], IfOk, OnOk};
ghost use Rattle.abort_expansion.specs.Transitions.{number, is_number, is_raised, put, count_down, go, check, on};

use core_charts::{Effect, Transition, TransitionKind};
use sc_graph::VariableId;
use sc_values::{BinaryOperator, Expr, Value};
use sqlite_items::{Boxed, Items};
use std::alloc::{AllocError, Global};

fn number(n: u16) -> Expr
    ensures { result ≡ number n }
{
    Expr::Literal(Value::Int(i32::from(n)))
}

/// Whether the variable is this number.
pub(crate) fn is_number(alloc: Global, variable: VariableId, n: u16) -> Result<Expr, AllocError>
    ensures { IfOk result (λ made. made ≡ is_number variable n) }
{
    let loaded = Boxed::new(alloc, Expr::Load(variable))?;
    let literal = Boxed::new(alloc, number(n))?;
    Ok(Expr::Binary(BinaryOperator::Equal, loaded, literal))
}

fn is_raised(alloc: Global, variable: VariableId) -> Result<Expr, AllocError>
    ensures { IfOk result (λ made. made ≡ is_raised variable) }
{
    let loaded = Boxed::new(alloc, Expr::Load(variable))?;
    let literal = Boxed::new(alloc, number(0))?;
    Ok(Expr::Binary(BinaryOperator::NotEqual, loaded, literal))
}

/// The variable becomes this number.
pub(crate) fn put(variable: VariableId, n: u16) -> Effect
    ensures { result ≡ put variable n }
{
    Effect {
        variable,
        value: number(n),
    }
}

/// The variable becomes one less.
pub(crate) fn count_down(alloc: Global, variable: VariableId) -> Result<Effect, AllocError>
    ensures { IfOk result (λ made. made ≡ count_down variable) }
{
    let loaded = Boxed::new(alloc, Expr::Load(variable))?;
    let literal = Boxed::new(alloc, number(1))?;
    Ok(Effect {
        variable,
        value: Expr::Binary(BinaryOperator::Subtract, loaded, literal),
    })
}

/// Puts the effect that counts down behind others, where there is a counter.
pub(crate) fn put_counting_down(
    alloc: Global,
    counter: Option<VariableId>,
    made: &mut Items<Effect>,
) -> Result<(), AllocError>
    ensures { OnOk result (made.new ≡ made.old ++ on counter count_down) }
{
    match counter {
        Some(variable) => made.push(count_down(alloc, variable)?),
        None => Ok(()),
    }
}

/// A transition of a simple state.
pub(crate) fn go(
    immediate: bool,
    trigger: Option<Expr>,
    effects: Items<Effect>,
    target: u32,
) -> Transition
    ensures { result ≡ go immediate trigger effects target }
{
    Transition {
        kind: TransitionKind::Go,
        immediate,
        trigger,
        effects,
        target,
    }
}

/// Puts the check of a flag behind others, where there is one.
pub(crate) fn put_check(
    alloc: Global,
    immediate: bool,
    left: u32,
    flag: Option<VariableId>,
    made: &mut Items<Transition>,
) -> Result<(), AllocError>
    ensures { OnOk result (made.new ≡ made.old ++ check immediate left flag) }
{
    match flag {
        Some(variable) => {
            let raised = is_raised(alloc, variable)?;
            made.push(go(immediate, Some(raised), Items::new(alloc), left))
        }
        None => Ok(()),
    }
}

/// A list of one item.
pub(crate) fn alone<T: Drop>(alloc: Global, item: T) -> Result<Items<T>, AllocError>
    ensures { IfOk result (λ made. made ≡ item ∷ []) }
{
    let mut items = Items::new(alloc);
    items.push(item)?;
    Ok(items)
}
