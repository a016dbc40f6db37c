//! Codes that are well formed under the kinds of the variables.

ghost use Rattle.std.specs.Prelude.{◌≡◌, List, MatchOption};
ghost use Rattle.sc_values.specs.declared.value.Kind.{Kind};
ghost use Rattle.sc_values.specs.Code.{IsWellFormed};
ghost use Rattle.sc_values.specs.Checked.{Checks, IsChecked, loaded_from};

use crate::code::Code;
use crate::code_loads::load_kinds;
use crate::last_operation::last_left;
use crate::limits::LOAD_LIMIT;
use crate::operands::Operands;
use crate::value::{Kind, Value};
use crate::well_formed::is_well_formed;
use arrayvec::ArrayVec;
use std::marker::Model;

/// A code that is well formed under some kinds of the variables, with the kinds of its loads. `eval`
/// runs it without a test. It borrows the code.
#[derive(Drop, Clone)]
pub struct CheckedCode<'a> {
    code: &'a Code,
    // of its loads, in their order
    kinds: ArrayVec<Kind, LOAD_LIMIT>,
}

impl<'a> Model for CheckedCode<'a> {
    ghost use Rattle.sc_values.specs.Checked.{Checked, IsChecked};

    ghost Value = { Checked };

    ghost view = { λ c. record { operations = c.code.now; loads = c.kinds.items } };

    ghost invariant = { λ c. IsChecked (record { operations = c.code.now; loads = c.kinds.items }) };
}

impl<'a> CheckedCode<'a> {
    /// The code, where it is well formed under these kinds of the variables: it spells a well-kinded
    /// expression, has at most 16 operands at any moment and at most 16 loads. None: it isn't.
    pub fn test(code: &'a Code, kinds: &[Kind]) -> Option<CheckedCode<'a>>
        ensures { MatchOption result (¬ (IsWellFormed kinds.now code.now)) (Checks kinds.now code.now) }
    {
        if is_well_formed(code, kinds) {
            Some(CheckedCode::known(code, kinds))
        } else {
            None
        }
    }

    /// The code, which is known to be well formed under these kinds, checked without a test.
    pub fn known(code: &'a Code, kinds: &[Kind]) -> CheckedCode<'a>
        requires { IsWellFormed kinds.now code.now }
        ensures { Checks kinds.now code.now result }
    {
        CheckedCode {
            code,
            kinds: load_kinds(code, kinds),
        }
    }

    /// The same checked code again.
    pub fn copied(&self) -> CheckedCode<'a>
        ensures { result ≡ self.now }
    {
        CheckedCode {
            code: self.code,
            kinds: self.kinds.clone().unwrap(),
        }
    }

    /// The code.
    pub fn code(&self) -> &'a Code
        ensures value { result.now ≡ self.now.operations }
        ensures checked { IsChecked self.now }
    {
        self.code
    }

    /// The kind of its value, under the kinds of the variables by which it was checked.
    pub fn kind(&self) -> Kind
        ensures { (kinds : List Kind) (checks : Checks kinds self.now.operations self.now)
            → result ≡ checks.formed.gives }
    {
        match last_left(self.code().operations(), self.loads()) {
            Some(kind) => kind,
            None => unreachable!(),
        }
    }

    /// What its loads take of the variables' values, in the order of the loads. A load of a variable
    /// that isn't there takes nothing.
    pub fn operands(&self, variables: &[Value]) -> Operands
        ensures { result ≡ loaded_from variables.now self.now.operations }
    {
        Operands::present(self.code(), variables)
    }

    /// The kinds of its loads, in their order.
    pub fn loads(&self) -> &[Kind]
        ensures { result.now ≡ self.now.loads }
    {
        self.kinds.as_slice()
    }
}

impl<'a> PartialEq for CheckedCode<'a> {
    ghost use Rattle.std.specs.Prelude.{◌≡◌, ◌↔◌, IsTrue};
    ghost use Rattle.std.specs.Ordering.{eq_of_both, on};
    ghost use Rattle.std.specs.Cmp.{partial_equiv_from_equiv, and_equiv, on_equiv};
    ghost use Rattle.std.specs.Cmp.Lexicographic.{pointwise, lists_equiv};
    ghost use Rattle.sc_values.specs.contracts.operation.OperationPartialEq.TheImpl as operation;
    ghost use Rattle.sc_values.specs.contracts.operation.OperationEq.TheImpl.Laws as operations;
    ghost use Rattle.sc_values.specs.contracts.value.KindPartialEq.TheImpl as kind;
    ghost use Rattle.sc_values.specs.contracts.value.KindEq.TheImpl.Laws as kinds;

    ghost eq = { eq_of_both (on (λ c. c.operations) (pointwise operation.eq-value.it))
        (on (λ c. c.loads) (pointwise kind.eq-value.it)) };

    ghost laws = { partial_equiv_from_equiv (and_equiv (on_equiv (λ c. c.operations) (lists_equiv operations.laws-law))
        (on_equiv (λ c. c.loads) (lists_equiv kinds.laws-law))) };

    fn eq(&self, other: &CheckedCode<'a>) -> bool
        ensures value { result ≡ eq_of_both (on (λ c. c.operations) (pointwise operation.eq-value.it))
            (on (λ c. c.loads) (pointwise kind.eq-value.it)) self.now other.now }
        ensures same { IsTrue result ↔ (self.now ≡ other.now) }
    {
        self.code == other.code && self.loads() == other.loads()
    }
}
