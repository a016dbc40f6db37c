//! Expressions and their codes, both given as operations, each operator behind its operands.

ghost use Rattle.std.specs.Prelude.{◌≡◌, IfOk, map};
ghost use Rattle.sc_values.specs.Operator.{kind_of};

use crate::answers::Answers;
use crate::operations::{operations, tell_operations, word_of_combination};
use crate::reading::{kinds, values};
use crate::telling::word_of_kind;
use crate::words::{Unanswered, halves, known};
use sc_values::{
    CheckedCode, Code, CodedAssignment, Expr, Kind, Operands, Operation, Value, eval, grow_trees,
    only_tree,
};
use sqlite_items::Items;
use std::alloc::{AllocError, Global};

// The trees that operations leave on a stack.
fn grow_all(
    alloc: Global,
    operations: &[Operation],
    stack: &mut Items<Expr>,
) -> Result<(), Unanswered> {
    for operation in operations {
        if !grow_trees(alloc, *operation, stack)? {
            return Err(Unanswered);
        }
    }
    Ok(())
}

// The tree that operations spell.
fn tree_by(alloc: Global, operations: &[Operation]) -> Result<Expr, Unanswered> {
    let mut stack: Items<Expr> = Items::new(alloc);
    match grow_all(alloc, operations, &mut stack) {
        Ok(()) => known(only_tree(&mut stack)),
        Err(unanswered) => Err(unanswered),
    }
}

fn tree_of(alloc: Global, text: &str) -> Result<Expr, Unanswered> {
    let operations = operations(alloc, text)?;
    tree_by(alloc, operations.as_slice())
}

// The code of a tree, or the fault.
fn tell_coded(tree: &Expr, kinds: &[Kind], answers: &mut Answers) {
    match Code::of(tree, kinds) {
        Ok(code) => tell_operations(answers, code.operations()),
        Err(fault) => {
            answers.tell(" ");
            answers.show(&fault);
        }
    }
}

// The kind of a tree over variables of these kinds, and its code, or the fault; of a copy of it.
fn tell_kind(
    alloc: Global,
    tree: &Expr,
    kinds: &[Kind],
    answers: &mut Answers,
) -> Result<(), Unanswered> {
    let tree = tree.copied(alloc)?;
    answers.tell(word_of_kind(tree.kind(kinds)));
    tell_coded(&tree, kinds, answers);
    Ok(())
}

fn tell_spelled(
    alloc: Global,
    spelled: &str,
    kinds: &[Kind],
    answers: &mut Answers,
) -> Result<(), Unanswered> {
    let tree = tree_of(alloc, spelled)?;
    tell_kind(alloc, &tree, kinds, answers)
}

// `KINDS: OPERATIONS`.
fn tell_tree(alloc: Global, words: &str, answers: &mut Answers) -> Result<(), Unanswered> {
    let (of_variables, spelled) = halves(words, ':');
    let kinds = kinds(alloc, of_variables)?;
    tell_spelled(alloc, spelled, kinds.as_slice(), answers)
}

// The value of a tree over variables of these values.
fn value_of(tree: &Expr, kinds: &[Kind], variables: &[Value]) -> Option<Value>
    requires { map kind_of variables.now ≡ kinds.now }
{
    let code = Code::of(tree, kinds).ok()?;
    let checked = CheckedCode::known(&code, kinds);
    let operands = Operands::present(&code, variables);
    Some(eval(&checked, &operands))
}

fn kinds_of(alloc: Global, variables: &[Value]) -> Result<Vec<Kind>, AllocError>
    ensures { IfOk result (λ kinds. map kind_of variables.now ≡ kinds.items) }
{
    let mut kinds = Vec::new(alloc);
    for value in variables {
        kinds.push(value.kind())?;
    }
    Ok(kinds)
}

fn value_over(alloc: Global, tree: &Expr, variables: &[Value]) -> Result<Value, Unanswered> {
    let kinds = kinds_of(alloc, variables)?;
    known(value_of(tree, kinds.as_slice(), variables))
}

fn spelled_value(alloc: Global, spelled: &str, variables: &[Value]) -> Result<Value, Unanswered> {
    let tree = tree_of(alloc, spelled)?;
    value_over(alloc, &tree, variables)
}

// `VALUES: OPERATIONS`.
fn tell_tree_value(alloc: Global, words: &str, answers: &mut Answers) -> Result<(), Unanswered> {
    let (given, spelled) = halves(words, ':');
    let values = values(alloc, given)?;
    answers.value(spelled_value(alloc, spelled, values.as_slice())?);
    Ok(())
}

// A code that is well formed: its kind, the kinds of its loads, and its operations.
fn tell_checked(checked: &CheckedCode<'_>, answers: &mut Answers) {
    answers.tell(word_of_kind(Some(checked.kind())));
    answers.tell(" of");
    for kind in checked.loads() {
        answers.tell(" ");
        answers.tell(word_of_kind(Some(*kind)));
    }
    answers.tell(" by");
    tell_operations(answers, checked.code().operations());
    if checked.copied() != *checked {
        answers.tell("; its copy differs");
    }
}

fn tell_tested(code: &Code, kinds: &[Kind], answers: &mut Answers) {
    match CheckedCode::test(code, kinds) {
        Some(checked) => tell_checked(&checked, answers),
        None => answers.tell("not well formed"),
    }
}

// The code of operations, if they have one.
fn code_of(alloc: Global, spelled: &str) -> Result<Option<Code>, Unanswered> {
    let operations = operations(alloc, spelled)?;
    Ok(Code::from_operations(operations.as_slice()))
}

// `KINDS: OPERATIONS`: a code over variables of these kinds.
fn tell_operations_test(
    alloc: Global,
    words: &str,
    answers: &mut Answers,
) -> Result<(), Unanswered> {
    let (of_variables, spelled) = halves(words, ':');
    let kinds = kinds(alloc, of_variables)?;
    match code_of(alloc, spelled)? {
        Some(code) => tell_tested(&code, kinds.as_slice(), answers),
        None => answers.tell("no code"),
    }
    Ok(())
}

fn tell_operands(operands: &Operands, answers: &mut Answers) {
    answers.tell("takes");
    answers.values(operands.values());
    if operands.copied() != *operands {
        answers.tell("; its copy differs");
    }
}

// What a code takes of the variables' values.
fn tell_loaded(code: &Code, kinds: &[Kind], values: &[Value], answers: &mut Answers)
    requires { map kind_of values.now ≡ kinds.now }
{
    match CheckedCode::test(code, kinds) {
        Some(checked) => tell_operands(&checked.operands(values), answers),
        None => answers.tell("not well formed"),
    }
}

fn tell_code_loads(
    alloc: Global,
    code: &Code,
    values: &[Value],
    answers: &mut Answers,
) -> Result<(), Unanswered> {
    let kinds = kinds_of(alloc, values)?;
    tell_loaded(code, kinds.as_slice(), values, answers);
    Ok(())
}

// `VALUES: OPERATIONS`.
fn tell_loads(alloc: Global, words: &str, answers: &mut Answers) -> Result<(), Unanswered> {
    let (given, spelled) = halves(words, ':');
    let values = values(alloc, given)?;
    match code_of(alloc, spelled)? {
        Some(code) => tell_code_loads(alloc, &code, values.as_slice(), answers),
        None => Err(Unanswered),
    }
}

// Values as operands.
fn tell_taken(alloc: Global, words: &str, answers: &mut Answers) -> Result<(), Unanswered> {
    let values = values(alloc, words)?;
    match Operands::from_values(values.as_slice()) {
        Some(operands) => tell_operands(&operands, answers),
        None => answers.tell("too many"),
    }
    Ok(())
}

fn tell_coded_assignment(assignment: &CodedAssignment, answers: &mut Answers) {
    match assignment {
        CodedAssignment::Init(code) => {
            answers.tell("init");
            tell_operations(answers, code.operations());
        }
        CodedAssignment::Update(combine, code) => {
            answers.tell("update");
            answers.tell(word_of_combination(*combine));
            tell_operations(answers, code.operations());
        }
    }
}

// What the assignment of a tree to variable 0 is.
fn tell_assignment(alloc: Global, words: &str, answers: &mut Answers) -> Result<(), Unanswered> {
    match CodedAssignment::of(0, &tree_of(alloc, words)?) {
        Some(assignment) => tell_coded_assignment(&assignment, answers),
        None => answers.tell("none"),
    }
    Ok(())
}

/// Whether a row is about codes; what is told of it.
pub(crate) fn tell_code(
    alloc: Global,
    row: &str,
    answers: &mut Answers,
) -> Result<bool, Unanswered> {
    let (word, rest) = halves(row, ' ');
    match word {
        "tree" => tell_tree(alloc, rest, answers)?,
        "value" => tell_tree_value(alloc, rest, answers)?,
        "code" => tell_operations_test(alloc, rest, answers)?,
        "loads" => tell_loads(alloc, rest, answers)?,
        "operands" => tell_taken(alloc, rest, answers)?,
        "assign" => tell_assignment(alloc, rest, answers)?,
        _ => return Ok(false),
    }
    Ok(true)
}
