//! Where the statements of an SCL text stand: one walk over its draft, in the order of the text.

ghost use Rattle.std.specs.Prelude.{◌≡◌, [], ◌∷◌, ◌++◌, IfOk, OnOk, map};
ghost use Rattle.node_sources.specs.SclOrigins.{in_row, one_place, opening, spots_in, spots_of};

use sc_text::Token;
use sc_text::ahead::place;
use scl_reader::TextStatement;
use sqlite_items::Items;
use std::alloc::{AllocError, Global};

/// Where a statement, or the end of a thread, stands: the place of its only node or of its first one, and that of its
/// second one.
#[derive(Clone, Copy)]
pub struct StatementPlace {
    pub first: usize,
    pub second: usize,
}

// Puts a spot at one place behind others.
fn put_place(spots: &mut Items<StatementPlace>, place: usize) -> Result<(), AllocError>
    ensures { OnOk result (spots.new ≡ spots.old ++ one_place place ∷ []) }
{
    spots.push(StatementPlace {
        first: place,
        second: place,
    })
}

// Puts the spots of statements behind others.
#[cycle(spots)]
fn put_row(
    statements: &[TextStatement],
    spots: &mut Items<StatementPlace>,
) -> Result<(), AllocError>
    ensures { OnOk result (spots.new ≡ spots.old ++ in_row (map spots_in statements.now)) }
{
    for statement in statements {
        put_statement(statement, spots)?;
    }
    Ok(())
}

#[cycle(spots)]
#[tactic(auto, using(crate::proofs::Branches::opening_of_spots))]
fn put_statement(
    statement: &TextStatement,
    spots: &mut Items<StatementPlace>,
) -> Result<(), AllocError>
    ensures { OnOk result (spots.new ≡ spots.old ++ spots_in statement.now) }
{
    match statement {
        TextStatement::Assign { target, value: _ } => put_place(spots, target.at),
        TextStatement::Label(label) => put_place(spots, label.at),
        TextStatement::Goto(label) => put_place(spots, label.at),
        TextStatement::Pause { at } => put_place(spots, *at),
        TextStatement::If {
            at,
            test: _,
            first,
            second,
        } => {
            put_place(spots, *at)?;
            put_row(first.as_slice(), spots)?;
            put_row(second.as_slice(), spots)
        }
        TextStatement::Fork { branches, join } => {
            spots.push(StatementPlace {
                first: opening(branches.as_slice()),
                second: *join,
            })?;
            for branch in branches.as_slice() {
                put_row(branch.1.as_slice(), spots)?;
                put_place(spots, branch.0)?;
            }
            Ok(())
        }
    }
}

// Where the first branch is opened.
fn opening(branches: &[(usize, Items<TextStatement>)]) -> usize
    ensures { result ≡ opening branches.now }
{
    match branches {
        [] => 0,
        [first, ..] => first.0,
    }
}

/// Where the statements of a text with these tokens stand, and the ends of its threads, in the order of the text. Err:
/// memory was refused.
pub(crate) fn spots_of(
    alloc: Global,
    tokens: &[Token],
    statements: &[TextStatement],
) -> Result<Items<StatementPlace>, AllocError>
    ensures { IfOk result (λ spots. spots ≡ spots_of tokens.now statements.now) }
{
    let mut spots = Items::new(alloc);
    put_row(statements, &mut spots)?;
    put_place(&mut spots, place(tokens, 0))?;
    Ok(spots)
}
