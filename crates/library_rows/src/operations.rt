//! The words of operations.

use crate::answers::Answers;
use crate::reading::{place, value};
use crate::words::Unanswered;
use sc_values::{BinaryOperator, Combination, Divisor, Operation, UnaryOperator};
use std::alloc::Global;

/// The operator of two operands of this word.
pub(crate) fn binary(word: &str) -> Option<BinaryOperator> {
    match word {
        "+" => Some(BinaryOperator::Add),
        "-" => Some(BinaryOperator::Subtract),
        "*" => Some(BinaryOperator::Multiply),
        "min" => Some(BinaryOperator::Min),
        "max" => Some(BinaryOperator::Max),
        "and" => Some(BinaryOperator::And),
        "or" => Some(BinaryOperator::Or),
        "==" => Some(BinaryOperator::Equal),
        "!=" => Some(BinaryOperator::NotEqual),
        "<" => Some(BinaryOperator::Less),
        "<=" => Some(BinaryOperator::LessOrEqual),
        ">" => Some(BinaryOperator::Greater),
        ">=" => Some(BinaryOperator::GreaterOrEqual),
        _ => None,
    }
}

fn word_of_binary(operator: BinaryOperator) -> &'static str {
    match operator {
        BinaryOperator::Add => " +",
        BinaryOperator::Subtract => " -",
        BinaryOperator::Multiply => " *",
        BinaryOperator::Min => " min",
        BinaryOperator::Max => " max",
        BinaryOperator::And => " and",
        BinaryOperator::Or => " or",
        BinaryOperator::Equal => " ==",
        BinaryOperator::NotEqual => " !=",
        BinaryOperator::Less => " <",
        BinaryOperator::LessOrEqual => " <=",
        BinaryOperator::Greater => " >",
        BinaryOperator::GreaterOrEqual => " >=",
    }
}

// The divisor behind a sign.
fn divisor(word: &str, sign: char) -> Option<Divisor> {
    Divisor::of(word.strip_prefix(sign)?.parse::<i32>().ok()?)
}

/// The operator of one operand of this word.
pub(crate) fn unary(word: &str) -> Option<UnaryOperator> {
    match word {
        "neg" => return Some(UnaryOperator::Negate),
        "not" => return Some(UnaryOperator::Not),
        _ => {}
    }
    match divisor(word, '/') {
        Some(divisor) => Some(UnaryOperator::Divide(divisor)),
        None => Some(UnaryOperator::Remainder(divisor(word, '%')?)),
    }
}

/// The combination of this word.
pub(crate) fn combination(word: &str) -> Option<Combination> {
    match word {
        "add" => Some(Combination::Add),
        "multiply" => Some(Combination::Multiply),
        "min" => Some(Combination::Min),
        "max" => Some(Combination::Max),
        "and" => Some(Combination::And),
        "or" => Some(Combination::Or),
        _ => None,
    }
}

/// The word of a combination.
pub(crate) fn word_of_combination(combination: Combination) -> &'static str {
    match combination {
        Combination::Add => " add",
        Combination::Multiply => " multiply",
        Combination::Min => " min",
        Combination::Max => " max",
        Combination::And => " and",
        Combination::Or => " or",
    }
}

/// The operation of this word, as in a code of an image: `v0` loads variable 0, and what is no operator is a value.
pub(crate) fn operation(word: &str) -> Result<Operation, Unanswered> {
    if let Some(operator) = binary(word) {
        return Ok(Operation::Binary(operator));
    }
    if let Some(operator) = unary(word) {
        return Ok(Operation::Unary(operator));
    }
    match word.strip_prefix('v') {
        Some(number) => Ok(Operation::Load(place(number)?)),
        None => Ok(Operation::Literal(value(word)?)),
    }
}

/// Operations, each a word.
pub(crate) fn operations(alloc: Global, text: &str) -> Result<Vec<Operation>, Unanswered> {
    let mut operations = Vec::new(alloc);
    for word in text.split_whitespace() {
        operations.push(operation(word)?)?;
    }
    Ok(operations)
}

// A sign behind a space, and the divisor behind it.
fn tell_divisor(answers: &mut Answers, sign: &str, divisor: Divisor) {
    answers.tell(sign);
    answers.show(&divisor.number());
}

fn tell_unary(answers: &mut Answers, operator: UnaryOperator) {
    match operator {
        UnaryOperator::Negate => answers.tell(" neg"),
        UnaryOperator::Not => answers.tell(" not"),
        UnaryOperator::Divide(by) => tell_divisor(answers, " /", by),
        UnaryOperator::Remainder(by) => tell_divisor(answers, " %", by),
    }
}

/// Operations, each behind a space.
pub(crate) fn tell_operations(answers: &mut Answers, operations: &[Operation]) {
    for operation in operations {
        match operation {
            Operation::Literal(value) => answers.value(*value),
            Operation::Load(x) => answers.tell_with(" v", *x as usize),
            Operation::Unary(operator) => tell_unary(answers, *operator),
            Operation::Binary(operator) => answers.tell(word_of_binary(*operator)),
        }
    }
}
