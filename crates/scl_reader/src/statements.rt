//! The statements of a draft, with their names looked up.

ghost use Rattle.std.specs.Prelude.{◌≡◌, ◌≤◌, IfOk, length, map};
ghost use Rattle.sc_graph.specs.Limits.{variable_limit};
ghost use Rattle.sc_text.specs.Flaws.{variable_names};
ghost use Rattle.scl_reader.specs.Resolved.{statement_of, statements_of};

use crate::text_drafts::TextStatement;
use sc_text::Scope;
use scl::Statement;
use sqlite_items::Items;
use std::alloc::{AllocError, Global};

/// The statements, over these variables. Err: memory was refused.
#[cycle(resolving)]
pub(crate) fn statements(
    alloc: Global,
    scope: &Scope,
    texts: &[TextStatement],
) -> Result<Items<Statement>, AllocError>
    requires { length scope.now.variables.now ≤ variable_limit }
    ensures { IfOk result (λ all. all ≡ statements_of (variable_names scope.now.variables.now) texts.now) }
{
    let mut all = Items::new(alloc);
    for text in texts {
        all.push(statement(alloc, scope, text)?)?;
    }
    Ok(all)
}

#[cycle(resolving)]
#[tactic(auto, using(crate::proofs::Looking::of_assign, crate::proofs::Looking::of_label, crate::proofs::Looking::of_goto, crate::proofs::Looking::of_pause, crate::proofs::Looking::of_if, crate::proofs::Looking::of_fork))]
fn statement(alloc: Global, scope: &Scope, text: &TextStatement) -> Result<Statement, AllocError>
    requires { length scope.now.variables.now ≤ variable_limit }
    ensures { IfOk result (λ one. one ≡ statement_of (variable_names scope.now.variables.now) text.now) }
{
    match text {
        TextStatement::Assign { target, value } => {
            let value = scope.resolved(alloc, value)?;
            Ok(Statement::Assign {
                variable: scope.number(target.name),
                value,
            })
        }
        TextStatement::Label(label) => Ok(Statement::Label(label.name)),
        TextStatement::Goto(label) => Ok(Statement::Goto(label.name)),
        TextStatement::Pause { at: _ } => Ok(Statement::Pause),
        TextStatement::If {
            at: _,
            test,
            first,
            second,
        } => {
            let test = scope.resolved(alloc, test)?;
            let first = statements(alloc, scope, first.as_slice())?;
            let second = statements(alloc, scope, second.as_slice())?;
            Ok(Statement::If {
                test,
                first,
                second,
            })
        }
        TextStatement::Fork { branches, join: _ } => {
            let mut all = Items::new(alloc);
            for branch in branches.as_slice() {
                all.push(statements(alloc, scope, branch.1.as_slice())?)?;
            }
            Ok(Statement::Fork { branches: all })
        }
    }
}
