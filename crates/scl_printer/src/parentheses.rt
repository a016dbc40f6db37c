//! Which operands of an expression stand in parentheses.

ghost use Rattle.std.specs.Prelude.{◌≡◌, List};
ghost use Rattle.sc_graph.specs.declared.program.Variable.{Variable};
ghost use Rattle.scl_printer.specs.Expressions.{binary_form, binary_takes_not, is_enclosed, is_operation, is_torn};
ghost use Rattle.scl_printer.specs.Expressions.{is_prefix, left_within, operand_opens, opens, parentheses_of, shown};
ghost use Rattle.scl_printer.specs.Expressions.{unary_form, unary_takes_not};

use crate::expressions::is_infix;
use sc_text::OPEN_LIMIT;
use sc_values::{BinaryOperator, Expr, UnaryOperator};

/// Which operands that are operations stand in parentheses: each, or few, those that do not read without.
#[derive(Clone, Copy)]
pub enum Parentheses {
    Each,
    Few,
}

/// What an expression is to an operator around it: a name, a value or a function; an operation with a minus or
/// with `not` before it; or any other operation.
#[derive(Clone, Copy)]
pub enum Form {
    Whole,
    Minus,
    Not,
    Infix,
}

/// Which parentheses an expression is printed with: each, where a reader takes so many.
pub(crate) fn parentheses_of(expression: &Expr) -> Parentheses
    ensures { result ≡ parentheses_of expression.now }
{
    if opens_at_most(Parentheses::Each, expression, OPEN_LIMIT as usize) {
        Parentheses::Each
    } else {
        Parentheses::Few
    }
}

// Whether no more than so many parentheses and prefix operators are open at once.
#[cycle(opening)]
fn opens_at_most(parentheses: Parentheses, expression: &Expr, limit: usize) -> bool
    ensures { result ≡ (opens parentheses expression.now).at_most limit }
{
    match expression {
        Expr::Literal(_) => true,
        Expr::Load(_) => true,
        Expr::Unary(operator, operand) => match left_within(is_prefix(*operator), limit) {
            None => false,
            Some(left) => {
                let takes_not = unary_takes_not(*operator);
                operand_opens_at_most(parentheses, takes_not, operand.get(), left)
            }
        },
        Expr::Binary(operator, first, second) => match left_within(!is_infix(*operator), limit) {
            None => false,
            Some(left) => {
                let takes_not = binary_takes_not(*operator);
                let fits = operand_opens_at_most(parentheses, takes_not, first.get(), left);
                fits && operand_opens_at_most(parentheses, takes_not, second.get(), left)
            }
        },
    }
}

// The same of an operand, with the parentheses in which it stands.
#[cycle(opening)]
fn operand_opens_at_most(
    parentheses: Parentheses,
    takes_not: bool,
    operand: &Expr,
    limit: usize,
) -> bool
    ensures { result ≡ operand_opens parentheses takes_not (opens parentheses operand.now) limit }
{
    let is_open = is_enclosed(parentheses, takes_not, form_of(operand));
    match left_within(is_open, limit) {
        None => false,
        Some(left) => opens_at_most(parentheses, operand, left),
    }
}

// How many more may be open within one that is open. None: this one may not.
fn left_within(is_open: bool, limit: usize) -> Option<usize>
    ensures { result ≡ left_within is_open limit }
{
    if is_open {
        limit.checked_sub(1)
    } else {
        Some(limit)
    }
}

// Whether the operator stands before its operand.
fn is_prefix(operator: UnaryOperator) -> bool
    ensures { result ≡ is_prefix operator }
{
    match operator {
        UnaryOperator::Negate => true,
        UnaryOperator::Not => true,
        UnaryOperator::Divide(_) => false,
        UnaryOperator::Remainder(_) => false,
    }
}

/// Whether an operand stands in parentheses.
pub(crate) fn stands_enclosed(parentheses: Parentheses, takes_not: bool, operand: &Expr) -> bool
    ensures { (variables : List Variable)
        → result ≡ is_enclosed parentheses takes_not (shown parentheses variables operand.now).form }
{
    is_enclosed(parentheses, takes_not, form_of(operand))
}

// What an expression is to an operator around it.
fn form_of(expression: &Expr) -> Form
    ensures shown { (parentheses : Parentheses) (variables : List Variable)
        → result ≡ (shown parentheses variables expression.now).form }
    ensures opens { (parentheses : Parentheses) → result ≡ (opens parentheses expression.now).form }
{
    match expression {
        Expr::Literal(_) => Form::Whole,
        Expr::Load(_) => Form::Whole,
        Expr::Unary(operator, _) => unary_form(*operator),
        Expr::Binary(operator, _, _) => binary_form(*operator),
    }
}

/// What an operation of one operand is to an operator around it.
pub(crate) fn unary_form(operator: UnaryOperator) -> Form
    ensures { result ≡ unary_form operator }
{
    match operator {
        UnaryOperator::Negate => Form::Minus,
        UnaryOperator::Not => Form::Not,
        UnaryOperator::Divide(_) => Form::Infix,
        UnaryOperator::Remainder(_) => Form::Infix,
    }
}

/// What an operation of two operands is to an operator around it.
pub(crate) fn binary_form(operator: BinaryOperator) -> Form
    ensures { result ≡ binary_form operator }
{
    if is_infix(operator) {
        Form::Infix
    } else {
        Form::Whole
    }
}

/// Whether `not` may begin the operand.
pub(crate) fn unary_takes_not(operator: UnaryOperator) -> bool
    ensures { result ≡ unary_takes_not operator }
{
    match operator {
        UnaryOperator::Not => true,
        UnaryOperator::Negate => false,
        UnaryOperator::Divide(_) => false,
        UnaryOperator::Remainder(_) => false,
    }
}

/// Whether `not` may begin the operands.
pub(crate) fn binary_takes_not(operator: BinaryOperator) -> bool
    ensures { result ≡ binary_takes_not operator }
{
    match operator {
        BinaryOperator::And => true,
        BinaryOperator::Or => true,
        _ => false,
    }
}

/// Whether an operand of this form stands in parentheses.
pub(crate) fn is_enclosed(parentheses: Parentheses, takes_not: bool, form: Form) -> bool
    ensures { result ≡ is_enclosed parentheses takes_not form }
{
    match parentheses {
        Parentheses::Each => is_operation(form),
        Parentheses::Few => is_torn(takes_not, form),
    }
}

fn is_operation(form: Form) -> bool
    ensures { result ≡ is_operation form }
{
    match form {
        Form::Whole => false,
        Form::Minus => true,
        Form::Not => true,
        Form::Infix => true,
    }
}

// Whether an operand of this form does not read without parentheses.
fn is_torn(takes_not: bool, form: Form) -> bool
    ensures { result ≡ is_torn takes_not form }
{
    match form {
        Form::Whole => false,
        Form::Minus => false,
        Form::Not => !takes_not,
        Form::Infix => true,
    }
}
