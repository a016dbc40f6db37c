//! The literals, variables, transitions and states that reductions make.

ghost use Rattle.std.specs.Prelude.{◌≡◌, ◌≤◌, ◌+◌, ◌∷◌, ◌++◌, [], IsTrue, IfOk, OnOk, length};
ghost use Rattle.sc_values.specs.Name.{is_name};
ghost use Rattle.extended_charts.specs.Making.{has_some, one, literal, local, integers, copy, always, made_state};
ghost use Rattle.extended_charts.specs.Making.{bare, passing, all_passing};

use crate::extended::{Declared, ExtendedRegion, ExtendedState};
use core_charts::{Effect, Transition, TransitionKind, next};
use sc_graph::{Role, Variable, VariableId};
use sc_text::numbered;
use sc_values::{Expr, Kind, Name, UnaryOperator, Value};
use sqlite_items::{Boxed, Items};
use std::alloc::{AllocError, Global};

/// The expression that a text writes for a value.
pub fn literal(alloc: Global, value: Value) -> Result<Expr, AllocError>
    ensures { IfOk result (λ made. made ≡ literal value) }
{
    match value {
        Value::Int(number) if number < 0 => {
            let positive = Expr::Literal(Value::Int(number.wrapping_neg()));
            Ok(Expr::Unary(UnaryOperator::Negate, Boxed::new(alloc, positive)?))
        }
        _ => Ok(Expr::Literal(value)),
    }
}

/// A local variable.
pub fn local(name: Name, kind: Kind, initial: Option<Value>) -> Declared
    ensures { result ≡ local name kind initial }
{
    Declared {
        variable: Variable {
            name,
            kind,
            role: Role::Local,
        },
        initial,
    }
}

/// Puts as many int variables: this word, and a number from 1 behind it. Err: memory was refused.
pub fn put_integers(word: &str, count: u32, made: &mut Items<Declared>) -> Result<(), AllocError>
    requires named { IsTrue (is_name word.now) }
    requires short { length word.now ≤ 16 }
    ensures { OnOk result (made.new ≡ made.old ++ integers word.now count) }
{
    for before in 0..count {
        made.push(local(numbered(word, (before + 1) as u64), Kind::Int, None))?;
    }
    Ok(())
}

/// The variable becomes what another is.
pub fn copy(variable: VariableId, from: VariableId) -> Effect
    ensures { result ≡ copy variable from }
{
    Effect {
        variable,
        value: Expr::Load(from),
    }
}

/// The transition without a trigger.
pub fn always(immediate: bool, effects: Items<Effect>, target: u32) -> Transition
    ensures { result ≡ always immediate effects target }
{
    Transition {
        kind: TransitionKind::Go,
        immediate,
        trigger: None,
        effects,
        target,
    }
}

/// A state that is made, with these parts.
pub fn made_state(
    alloc: Global,
    name: Name,
    is_initial: bool,
    regions: Items<ExtendedRegion>,
    transitions: Items<Transition>,
) -> ExtendedState
    ensures { result ≡ made_state name is_initial regions transitions }
{
    ExtendedState {
        name,
        is_own: false,
        is_initial,
        is_final: false,
        entry: Items::new(alloc),
        exit: Items::new(alloc),
        during: Items::new(alloc),
        regions,
        transitions,
    }
}

/// The state with nothing in it.
pub fn bare(alloc: Global, state: &ExtendedState) -> ExtendedState
    ensures { result ≡ bare state.now }
{
    ExtendedState {
        name: state.name,
        is_own: state.is_own,
        is_initial: state.is_initial,
        is_final: state.is_final,
        entry: Items::new(alloc),
        exit: Items::new(alloc),
        during: Items::new(alloc),
        regions: Items::new(alloc),
        transitions: Items::new(alloc),
    }
}

/// The state of this place, which makes these effects and goes on: at once, or in the next tick.
pub fn passing(
    alloc: Global,
    immediate: bool,
    place: u32,
    effects: Items<Effect>,
    target: u32,
) -> Result<ExtendedState, AllocError>
    ensures { IfOk result (λ made. made ≡ passing immediate place effects target) }
{
    let name = numbered("step__", place as u64);
    let transitions = alone(alloc, always(immediate, effects, target))?;
    Ok(made_state(alloc, name, place == 0, Items::new(alloc), transitions))
}

/// Puts states from this place on that make these effects, one after the other, and lead to the place behind them. Err:
/// memory was refused.
pub fn put_all_passing(
    alloc: Global,
    first: u32,
    effects: &[Effect],
    made: &mut Items<ExtendedState>,
) -> Result<(), AllocError>
    ensures { OnOk result (made.new ≡ made.old ++ all_passing first effects.now) }
{
    let mut place = first;
    for effect in effects {
        let behind = next(place)?;
        let own = alone(alloc, effect.copied(alloc)?)?;
        made.push(passing(alloc, true, place, own, behind)?)?;
        place = behind;
    }
    Ok(())
}

/// Whether there is an item.
pub fn has_some<T>(items: &[T]) -> bool
    ensures { result ≡ has_some items.now }
{
    !items.is_empty()
}

/// One, where there is something.
pub fn one(is_there: bool) -> u32
    ensures { result ≡ one is_there }
{
    if is_there { 1 } else { 0 }
}

/// A sum. Err: no memory holds so many.
pub fn sum(a: u32, b: u32) -> Result<u32, AllocError>
    ensures { IfOk result (λ both. both ≡ a + b) }
{
    match a.checked_add(b) {
        Some(both) => Ok(both),
        None => Err(AllocError),
    }
}

/// How many there are. Err: no memory holds so many.
pub fn count<T>(items: &[T]) -> Result<u32, AllocError>
    ensures { IfOk result (λ count. count ≡ length items.now) }
{
    match u32::try_from(items.len()) {
        Ok(count) => Ok(count),
        Err(_) => Err(AllocError),
    }
}

/// A list of one item.
pub fn alone<T: Drop>(alloc: Global, item: T) -> Result<Items<T>, AllocError>
    ensures { IfOk result (λ made. made ≡ item ∷ []) }
{
    let mut items = Items::new(alloc);
    items.push(item)?;
    Ok(items)
}

/// A variable of this number. Err: a chart with so many is refused before.
pub fn variable(number: usize) -> Result<VariableId, AllocError>
    ensures { IfOk result (λ x. x ≡ number) }
{
    match VariableId::try_from(number) {
        Ok(x) => Ok(x),
        Err(_) => Err(AllocError),
    }
}
