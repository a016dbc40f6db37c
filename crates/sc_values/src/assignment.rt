//! Which access an assignment is.

ghost use Rattle.std.specs.Prelude.{◌≡◌, ◌≤◌, length, unwrap_or};
ghost use Rattle.std.specs.Option.{SomeIff};
ghost use Rattle.sc_values.specs.declared.expression.Expr.TheViews.{out-Expr};
ghost use Rattle.sc_values.specs.Assignment.{Combines, Inits, assignment_of, combination_of, decreased, in_code};
ghost use Rattle.sc_values.specs.Assignment.{is_variable, operand};
ghost use Rattle.sc_values.specs.Expr.{postorder};
ghost use Rattle.sc_values.specs.Limits.{operation_limit};

use crate::code::Code;
use crate::expression::Expr;
use crate::limits::OPERATION_LIMIT;
use crate::operation::Operation;
use crate::operator::{BinaryOperator, Combination, UnaryOperator};

/// What an assignment is, with the code of the value that it needs.
#[derive(Drop)]
pub enum CodedAssignment {
    /// The variable becomes the code's value.
    Init(Code),
    /// The variable is combined with the code's value.
    Update(Combination, Code),
}

impl CodedAssignment {
    /// What the assignment of an expression to a variable is: an update where the root of the
    /// expression combines the variable alone, on its left, with what does not read it, else an init.
    /// A difference is a sum with the negated right operand. None: the code that it needs would have
    /// more than 64 operations.
    pub fn of(variable: u16, value: &Expr) -> Option<CodedAssignment>
        ensures { SomeIff result (length (postorder (operand (assignment_of variable value.now))) ≤ operation_limit)
            (in_code (assignment_of variable value.now)) }
    {
        match value {
            Expr::Binary(operator, left, right) => {
                if is_variable(left.get(), variable) && !right.get().reads(variable) {
                    combined(*operator, right.get(), value)
                } else {
                    init(value)
                }
            }
            _ => init(value),
        }
    }
}

// Whether an expression is this variable and no more.
fn is_variable(expression: &Expr, variable: u16) -> bool
    ensures { result ≡ is_variable variable (out-Expr expression.now) }
{
    match expression {
        Expr::Load(x) => *x == variable,
        _ => false,
    }
}

// The assignment by an operator with the variable on its left and this operand on its right; the whole
// is the two together.
fn combined(operator: BinaryOperator, right: &Expr, whole: &Expr) -> Option<CodedAssignment>
    ensures { SomeIff result (length (postorder (operand
        (unwrap_or (combination_of operator right.now) (Inits whole.now)))) ≤ operation_limit)
        (in_code (unwrap_or (combination_of operator right.now) (Inits whole.now))) }
{
    match operator {
        BinaryOperator::Add => update(Combination::Add, right),
        BinaryOperator::Subtract => decrease(right),
        BinaryOperator::Multiply => update(Combination::Multiply, right),
        BinaryOperator::Min => update(Combination::Min, right),
        BinaryOperator::Max => update(Combination::Max, right),
        BinaryOperator::And => update(Combination::And, right),
        BinaryOperator::Or => update(Combination::Or, right),
        _ => init(whole),
    }
}

// The variable becomes the value of an expression.
fn init(value: &Expr) -> Option<CodedAssignment>
    ensures { SomeIff result (length (postorder value.now) ≤ operation_limit) (in_code (Inits value.now)) }
{
    Some(CodedAssignment::Init(Code::postorder(value)?))
}

// The variable is combined with the value of an expression.
fn update(combine: Combination, by: &Expr) -> Option<CodedAssignment>
    ensures { SomeIff result (length (postorder by.now) ≤ operation_limit) (in_code (Combines combine by.now)) }
{
    Some(CodedAssignment::Update(combine, Code::postorder(by)?))
}

// The value of an expression is taken off the variable.
fn decrease(by: &Expr) -> Option<CodedAssignment>
    ensures { SomeIff result (length (postorder (operand (decreased by.now))) ≤ operation_limit)
        (in_code (decreased by.now)) }
{
    let mut code = Code::postorder(by)?;
    if code.push_within(Operation::Unary(UnaryOperator::Negate)) {
        prove!(code.operations().len() <= OPERATION_LIMIT);
        Some(CodedAssignment::Update(Combination::Add, code))
    } else {
        None
    }
}
