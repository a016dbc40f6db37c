//! The value of a code over its operands.

ghost use Rattle.std.specs.Prelude.{◌≡◌, ◌<◌, ◌≤◌, ◌^◌, List, map, length, IsSome};
ghost use Rattle.sc_values.specs.declared.value.Value.{Value};
ghost use Rattle.sc_values.specs.declared.value.Kind.{Kind};
ghost use Rattle.sc_values.specs.Operator.{kind_of};
ghost use Rattle.sc_values.specs.Code.{Spells, code_value};
ghost use Rattle.sc_values.specs.Limits.{operand_limit};
ghost use Rattle.sc_values.specs.declared.expression.Expr.{Expr};
ghost use Rattle.sc_values.specs.Expr.{value};
ghost use Rattle.sc_values.specs.Checked.{Checks, loaded_from, value_over};
ghost use Rattle.sc_values.specs.Inside.Stack.{acted, height, taken, loads_after};

use crate::checked::CheckedCode;
use crate::operands::Operands;
use crate::operation::Operation;
use crate::stack::Stack;
use crate::value::Value;

/// The value of a code over operands: one for each load of the code, of its kind, in the order of
/// the loads.
pub fn eval(code: &CheckedCode<'_>, operands: &Operands) -> Value
    requires { map kind_of operands.now ≡ code.now.loads }
    ensures value { value_over operands.now code.now.operations ≡ Some result }

    // where each operand is its variable's value, this is the code's value over the variables, and
    // that of the tree which the code spells
    ensures present { (variables : List Value)
        → operands.now ≡ loaded_from variables code.now.operations
        → code_value code.now.operations variables ≡ Some result }
    ensures tree { (e : Expr) (variables : List Value)
        → Spells code.now.operations e
        → operands.now ≡ loaded_from variables code.now.operations
        → value e variables ≡ Some result }

    ensures kind { (kinds : List Kind) (checks : Checks kinds code.now.operations code.now)
        → kind_of result ≡ checks.formed.gives }
{
    let mut stack = Stack::new();
    let mut loaded = 0;
    for operation in code.code().operations() {
        let operand = operand_of(operation, operands.values(), loaded);
        act(&mut stack, operation, operand);
        loaded = loads_so_far(operation, loaded);
    }
    match stack.pop() {
        Some(value) => value,
        None => unreachable!(),
    }
}

// The operand that an operation takes after so many loads, if it loads one.
fn operand_of(operation: &Operation, operands: &[Value], loaded: usize) -> Option<Value>
    ensures { result ≡ taken operands.now loaded operation.now }
{
    match operation {
        Operation::Load(_) => operands.get(loaded).copied(),
        _ => None,
    }
}

// How many loads there were with this operation, after so many before it.
fn loads_so_far(operation: &Operation, loaded: usize) -> usize
    requires { loaded < 2 ^ 32 }
    ensures { result ≡ loads_after operation.now loaded }
{
    match operation {
        Operation::Load(_) => loaded + 1,
        _ => loaded,
    }
}

// One operation over a stack of values.
fn act(stack: &mut Stack<Value>, operation: &Operation, operand: Option<Value>)
    requires runs { IsSome (acted operand operation.now stack.old) }
    requires room { height operation.now (length stack.old) ≤ operand_limit }
    ensures { acted operand operation.now stack.old ≡ Some stack.new }
{
    let value = match operation {
        Operation::Literal(value) => Some(*value),
        Operation::Load(_) => operand,
        Operation::Unary(f) => match stack.pop() {
            Some(operand) => f.apply(operand),
            None => None,
        },
        Operation::Binary(f) => match (stack.pop(), stack.pop()) {
            (Some(right), Some(left)) => f.apply(left, right),
            _ => None,
        },
    };
    match value {
        Some(value) => stack.push(value),
        None => unreachable!(),
    }
}
