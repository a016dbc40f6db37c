//! The operands of a code: a value for each load.

ghost use Rattle.std.specs.Prelude.{◌≡◌, ◌<◌, ◌≤◌, [], ◌∷◌, ◌++◌, SomeIff, length, option_and_then, slice_get};
ghost use Rattle.sc_values.specs.Limits.{load_limit};
ghost use Rattle.sc_values.specs.Code.{loaded, loads};
ghost use Rattle.sc_values.specs.Checked.{loaded_from};

use crate::code::Code;
use crate::limits::LOAD_LIMIT;
use crate::operation::Operation;
use crate::value::Value;
use arrayvec::ArrayVec;
use std::marker::Model;

/// What the loads of a code take, in the order of the loads: at most 16 values. Contracts see them
/// as their list.
#[derive(Drop, Clone)]
pub struct Operands {
    values: ArrayVec<Value, LOAD_LIMIT>,
}

impl Model for Operands {
    ghost use Rattle.std.specs.Prelude.{List};
    ghost use Rattle.sc_values.specs.declared.value.Value.{Value as Operand};

    ghost Value = { List Operand };

    ghost view = { λ o. o.values.items };

    ghost inverse = { λ xs. record { values = record { items = xs } } };
}

impl Operands {
    /// No operands.
    pub fn new() -> Operands
        ensures { result ≡ [] }
    {
        Operands {
            values: ArrayVec::new(),
        }
    }

    /// These values. None: they are more than 16.
    pub fn from_values(values: &[Value]) -> Option<Operands>
        ensures { SomeIff result (length values.now ≤ load_limit) values.now }
    {
        if values.len() > LOAD_LIMIT {
            return None;
        }
        let mut operands = Operands::new();
        for value in values {
            operands.push(*value);
        }
        Some(operands)
    }

    /// The values of the variables that a code loads, in the order of its loads, which are at most
    /// 16. A load of a variable that isn't there takes nothing.
    pub fn present(code: &Code, variables: &[Value]) -> Operands
        requires { length (loads code.now) ≤ load_limit }
        ensures { result ≡ loaded_from variables.now code.now }
    {
        let mut operands = Operands::new();
        for operation in code.operations() {
            if let Some(value) = loaded_value(operation, variables) {
                operands.push(value);
            }
        }
        operands
    }

    /// The same operands again.
    pub fn copied(&self) -> Operands
        ensures { result ≡ self.now }
    {
        Operands {
            values: self.values.clone().unwrap(),
        }
    }

    /// Puts a value behind the others, which are fewer than 16.
    pub fn push(&mut self, value: Value)
        requires { length self.old < load_limit }
        ensures { self.new ≡ self.old ++ value ∷ [] }
    {
        self.values.push(value);
    }

    /// The values, in order.
    pub fn values(&self) -> &[Value]
        ensures value { result.now ≡ self.now }
        ensures long { length self.now ≤ load_limit }
    {
        self.values.as_slice()
    }
}

impl PartialEq for Operands {
    ghost use Rattle.std.specs.Prelude.{◌≡◌, ◌↔◌, IsTrue};
    ghost use Rattle.std.specs.Cmp.{partial_equiv_from_equiv};
    ghost use Rattle.std.specs.Cmp.Lexicographic.{pointwise, lists_equiv};
    ghost use Rattle.sc_values.specs.contracts.value.ValuePartialEq.TheImpl.{eq-value};
    ghost use Rattle.sc_values.specs.contracts.value.ValueEq.TheImpl.Laws.{laws-law};

    ghost eq = { pointwise eq-value.it };

    ghost laws = { partial_equiv_from_equiv (lists_equiv laws-law) };

    fn eq(&self, other: &Operands) -> bool
        ensures value { result ≡ pointwise eq-value.it self.now other.now }
        ensures same { IsTrue result ↔ (self.now ≡ other.now) }
    {
        self.values() == other.values()
    }
}

impl Eq for Operands {
    ghost use Rattle.std.specs.Cmp.Lexicographic.{lists_equiv};
    ghost use Rattle.sc_values.specs.contracts.value.ValueEq.TheImpl.Laws.{laws-law};

    ghost laws = { lists_equiv laws-law };
}

// The value of the variable that an operation loads, if it loads one.
fn loaded_value(operation: &Operation, variables: &[Value]) -> Option<Value>
    ensures { result ≡ option_and_then (slice_get variables.now) (loaded operation.now) }
{
    match operation {
        Operation::Load(x) => variables.get(*x as usize).copied(),
        _ => None,
    }
}
