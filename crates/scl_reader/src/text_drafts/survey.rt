//! Going over the statements of a draft, thread by thread, for what is wrong with them.

ghost use Rattle.std.specs.Prelude.{◌≡◌, OnOk};
ghost use Rattle.sc_graph.specs.Limits.{child_limit};
ghost use Rattle.sc_text.specs.Flaws.{flaw_if, is_full};
ghost use Rattle.scl_reader.specs.Flaws.{in_row, thread, only_flaws, part_of, parts_of};
ghost use Rattle.scl_reader.specs.Inside.Survey.{survey, behind, found_behind, label_part};
ghost use Rattle.sc_text.specs.declared.read_fault.FaultKind.TheVariants.{Limit};

use crate::text_drafts::labels::note_lost;
use crate::text_drafts::name_row::NameRow;
use crate::text_drafts::statement::TextStatement;
use sc_graph::CHILD_LIMIT;
use sc_text::{FaultKind, Flaw, Named, Scope, note_told};
use sc_values::Kind;
use sqlite_items::Items;
use std::alloc::{AllocError, Global};

/// The labels and the gotos of one thread.
#[derive(Drop)]
struct Thread<'a> {
    labels: NameRow<'a>,
    gotos: NameRow<'a>,
}

/// What was found in all threads: their labels in the order of the text, and the flaws that are told.
#[derive(Drop)]
pub(crate) struct Found<'a> {
    pub(crate) labels: NameRow<'a>,
    pub(crate) told: Items<Flaw>,
}

/// Goes over a whole thread. Err: memory was refused.
#[cycle(survey)]
pub(crate) fn survey_thread<'a>(
    alloc: Global,
    scope: &Scope,
    body: &'a [TextStatement],
    found: &mut Found<'a>,
) -> Result<(), AllocError>
    ensures { OnOk result (found.new ≡ found_behind found.old
        (thread (in_row (parts_of scope.now.variables.now body.now)))) }
{
    let mut own = Thread {
        labels: NameRow::new(alloc),
        gotos: NameRow::new(alloc),
    };
    survey_statements(alloc, scope, body, &mut own, found)?;
    note_lost(alloc, &own.labels, &own.gotos, &mut found.told)?;
    Ok(())
}

#[cycle(survey)]
fn survey_statements<'a>(
    alloc: Global,
    scope: &Scope,
    statements: &'a [TextStatement],
    own: &mut Thread<'a>,
    found: &mut Found<'a>,
) -> Result<(), AllocError>
    ensures { OnOk result (survey own.new found.new ≡ behind (survey own.old found.old)
        (in_row (parts_of scope.now.variables.now statements.now))) }
{
    for statement in statements {
        survey_statement(alloc, scope, statement, own, found)?;
    }
    Ok(())
}

#[cycle(survey)]
fn survey_statement<'a>(
    alloc: Global,
    scope: &Scope,
    statement: &'a TextStatement,
    own: &mut Thread<'a>,
    found: &mut Found<'a>,
) -> Result<(), AllocError>
    ensures { OnOk result (survey own.new found.new ≡ behind (survey own.old found.old)
        (part_of scope.now.variables.now statement.now)) }
{
    match statement {
        TextStatement::Assign { target, value } => {
            scope.tell_assignment(alloc, *target, value, &mut found.told)
        }
        TextStatement::Label(label) => note_label(label, own, found),
        TextStatement::Goto(label) => own.gotos.push(label),
        TextStatement::Pause { at: _ } => Ok(()),
        TextStatement::If {
            at: _,
            test,
            first,
            second,
        } => {
            scope.tell_expression(alloc, Some(Kind::Bool), test, &mut found.told)?;
            survey_statements(alloc, scope, first.as_slice(), own, found)?;
            survey_statements(alloc, scope, second.as_slice(), own, found)?;
            Ok(())
        }
        TextStatement::Fork { branches, join: _ } => {
            let all = branches.as_slice();
            for (before, branch) in all.iter().enumerate() {
                note_branch(alloc, before, branch.0, found)?;
                survey_thread(alloc, scope, branch.1.as_slice(), found)?;
            }
            Ok(())
        }
    }
}

fn note_label<'a>(
    label: &'a Named,
    own: &mut Thread<'a>,
    found: &mut Found<'a>,
) -> Result<(), AllocError>
    ensures { OnOk result (survey own.new found.new ≡ behind (survey own.old found.old) (label_part label.now)) }
{
    own.labels.push(label)?;
    found.labels.push(label)?;
    Ok(())
}

// What is too many at the word of a branch behind so many others.
#[tactic(auto, using(crate::proofs::Surveyed::branch_noted))]
fn note_branch(alloc: Global, before: usize, at: usize, found: &mut Found) -> Result<(), AllocError>
    ensures { OnOk result (found.new ≡ found_behind found.old
        (only_flaws (flaw_if (is_full child_limit before) Limit at))) }
{
    let is_past = before >= CHILD_LIMIT;
    note_told(alloc, &mut found.told, is_past, FaultKind::Limit, at)?;
    Ok(())
}
