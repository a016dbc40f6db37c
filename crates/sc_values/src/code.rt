//! Postfix codes.

ghost use Rattle.std.specs.Prelude.{◌≡◌, ◌<◌, ◌≤◌, [], ◌∷◌, ◌++◌, ◌↔◌, IfOk, IfSome, IsSome, List, MatchBool, SomeIff};
ghost use Rattle.std.specs.Prelude.{None, length};
ghost use Rattle.std.specs.Result.{IsErrOf};
ghost use Rattle.sc_values.specs.declared.expression.Expr.{Expr};
ghost use Rattle.sc_values.specs.declared.value.Value.{Value};
ghost use Rattle.sc_values.specs.Limits.{operation_limit};
ghost use Rattle.sc_values.specs.Expr.{kind, postorder};
ghost use Rattle.sc_values.specs.Code.{Spells, IsWellFormed, IsWithinLimits, code_value, literal_of};

use crate::checked::CheckedCode;
use crate::code_fault::CodeFault;
use crate::expression::Expr;
use crate::limits::OPERATION_LIMIT;
use crate::operation::Operation;
use crate::value::{Kind, Value};
use arrayvec::ArrayVec;
use std::marker::Model;

/// A postfix code: at most 64 operations, in the order in which they run. Contracts see it as their
/// list. A code need not spell an expression: `CheckedCode` is one that does.
#[derive(Drop, Clone)]
pub struct Code {
    operations: ArrayVec<Operation, OPERATION_LIMIT>,
}

impl Model for Code {
    ghost use Rattle.std.specs.Prelude.{List};
    ghost use Rattle.sc_values.specs.declared.operation.Operation.{Operation};

    ghost Value = { List Operation };

    ghost view = { λ c. c.operations.items };

    ghost inverse = { λ xs. record { operations = record { items = xs } } };
}

impl Code {
    /// The code of no operation, which spells no expression.
    pub fn new() -> Code
        ensures { result ≡ [] }
    {
        Code {
            operations: ArrayVec::new(),
        }
    }

    /// The code of an expression over variables of these kinds: its operations, each behind its
    /// operands. Err: `Kind` where it isn't well kinded, else `Limit` where a limit of codes is passed.
    #[tactic(auto, using(crate::proofs::Spelling::spelt_once))]
    pub fn of(expression: &Expr, kinds: &[Kind]) -> Result<Code, CodeFault>
        ensures spells { IfOk result (λ code. Spells code expression.now) }
        ensures one_tree { IfOk result (λ code. (other : Expr) → Spells code other → other ≡ expression.now) }
        ensures formed { IfOk result (IsWellFormed kinds.now) }
        ensures kind { IsErrOf result CodeFault.Kind ↔ (kind expression.now kinds.now ≡ None) }
        ensures limit { IsErrOf result CodeFault.Limit ↔ (IsSome (kind expression.now kinds.now)
            × ¬ (IsWithinLimits (postorder expression.now))) }
    {
        if expression.kind(kinds).is_none() {
            return Err(CodeFault::Kind);
        }
        let mut code = Code::new();
        if expression.write(&mut code) && CheckedCode::test(&code, kinds).is_some() {
            Ok(code)
        } else {
            Err(CodeFault::Limit)
        }
    }

    /// The operations of an expression, each behind its operands. None: they are more than 64.
    pub fn postorder(expression: &Expr) -> Option<Code>
        ensures { SomeIff result (length (postorder expression.now) ≤ operation_limit) (postorder expression.now) }
    {
        let mut code = Code::new();
        if expression.write(&mut code) {
            prove!(code.operations().len() <= OPERATION_LIMIT);
            Some(code)
        } else {
            None
        }
    }

    /// A code of these operations. None: they are more than 64.
    pub fn from_operations(operations: &[Operation]) -> Option<Code>
        ensures { SomeIff result (length operations.now ≤ operation_limit) operations.now }
    {
        if operations.len() > OPERATION_LIMIT {
            return None;
        }
        let mut code = Code::new();
        for operation in operations {
            code.push(*operation);
        }
        Some(code)
    }

    /// Puts an operation behind the others, which are fewer than 64.
    pub fn push(&mut self, operation: Operation)
        requires { length self.old < operation_limit }
        ensures { self.new ≡ self.old ++ operation ∷ [] }
    {
        self.operations.push(operation);
    }

    // Puts an operation behind the others. False: there are 64 already.
    pub(crate) fn push_within(&mut self, operation: Operation) -> bool
        ensures { MatchBool result (self.new ≡ self.old ++ operation ∷ [])
            (operation_limit < length (self.old ++ operation ∷ [])) }
    {
        if self.operations.is_full() {
            return false;
        }
        self.operations.push(operation);
        true
    }

    /// Its literal, where it is nothing but one: its value, whatever the variables hold. A literal with
    /// a negation behind it is none.
    pub fn literal(&self) -> Option<Value>
        ensures is { result ≡ literal_of self.now }
        ensures value { IfSome result (λ v. (variables : List Value) → code_value self.now variables ≡ Some v) }
    {
        match self.operations() {
            [Operation::Literal(value)] => Some(*value),
            _ => None,
        }
    }

    /// Its operations, in order.
    pub fn operations(&self) -> &[Operation]
        ensures value { result.now ≡ self.now }
        ensures long { length self.now ≤ operation_limit }
    {
        self.operations.as_slice()
    }
}

impl PartialEq for Code {
    ghost use Rattle.std.specs.Prelude.{◌≡◌, ◌↔◌, IsTrue};
    ghost use Rattle.std.specs.Cmp.{partial_equiv_from_equiv};
    ghost use Rattle.std.specs.Cmp.Lexicographic.{pointwise, lists_equiv};
    ghost use Rattle.sc_values.specs.contracts.operation.OperationPartialEq.TheImpl.{eq-value};
    ghost use Rattle.sc_values.specs.contracts.operation.OperationEq.TheImpl.Laws.{laws-law};

    ghost eq = { pointwise eq-value.it };

    ghost laws = { partial_equiv_from_equiv (lists_equiv laws-law) };

    fn eq(&self, other: &Code) -> bool
        ensures value { result ≡ pointwise eq-value.it self.now other.now }
        ensures same { IsTrue result ↔ (self.now ≡ other.now) }
    {
        self.operations() == other.operations()
    }
}

impl Eq for Code {
    ghost use Rattle.std.specs.Cmp.Lexicographic.{lists_equiv};
    ghost use Rattle.sc_values.specs.contracts.operation.OperationEq.TheImpl.Laws.{laws-law};

    ghost laws = { lists_equiv laws-law };
}
