//! What is told of the flaws of variables and expressions.

ghost use Rattle.std.specs.Prelude.{◌≡◌, ◌&&◌, OnOk};
ghost use Rattle.sc_graph.specs.Limits.{variable_limit, output_limit};
ghost use Rattle.sc_graph.specs.Size.{is_output};
ghost use Rattle.sc_text.specs.declared.read_fault.FaultKind.TheVariants as broken;
ghost use Rattle.sc_text.specs.Flaws.{assigned_flaws, expression_flaws, flaw_if, is_among, is_full};
ghost use Rattle.sc_text.specs.Flaws.{is_repeated, unknown_names, unknown_one, variable_flaws, variable_named};
ghost use Rattle.sc_text.specs.Flaws.{variable_names};
ghost use Rattle.sc_text.specs.Told.{told_behind};

use crate::drafts::flaw::{Flaw, is_full};
use crate::drafts::heights::passes_limits;
use crate::drafts::parts::{Declaration, Named, TextExpression};
use crate::drafts::scope::{Scope, is_input};
use crate::drafts::told::note_told;
use crate::{FaultKind, TextOperation};
use sc_graph::{OUTPUT_LIMIT, VARIABLE_LIMIT};
use sc_values::Kind;
use sqlite_items::Items;
use std::alloc::{AllocError, Global};

impl<'a> Scope<'a> {
    /// Tells the flaws of the variables themselves: names that stand twice, and variables and outputs past their
    /// limits. Err: memory was refused.
    #[tactic(auto, using(crate::proofs::ToldFlaws::variable_step, crate::proofs::ToldFlaws::variables_over))]
    pub fn tell_declarations(
        &self,
        alloc: Global,
        found: &mut Items<Flaw>,
    ) -> Result<(), AllocError>
        ensures { OnOk result (found.new ≡ told_behind found.old (variable_flaws
            (variable_names self.now.variables.now) 0 0 self.now.variables.now)) }
    {
        let mut outputs: usize = 0;
        for (at, variable) in self.variables.iter().enumerate() {
            self.tell_declaration(alloc, at, outputs, variable, found)?;
            if variable.role.is_output() {
                outputs += 1;
            }
        }
        Ok(())
    }

    // The flaws of the variable at this place, before which stand so many outputs.
    fn tell_declaration(
        &self,
        alloc: Global,
        at: usize,
        outputs: usize,
        variable: &Declaration,
        found: &mut Items<Flaw>,
    ) -> Result<(), AllocError>
        ensures { OnOk result (found.new ≡ told_behind (told_behind (told_behind found.old
            (flaw_if (is_repeated (variable_names self.now.variables.now) at variable.now.named.name)
            broken.Repeated variable.now.named.at))
            (flaw_if (is_full variable_limit at) broken.Limit variable.now.named.at))
            (flaw_if (is_output variable.now.role && is_full output_limit outputs) broken.Limit
            variable.now.named.at)) }
    {
        let named = variable.named;
        let is_repeated = self.index.is_repeated(at, named.name);
        note_told(alloc, found, is_repeated, FaultKind::Repeated, named.at)?;
        let is_past = is_full(VARIABLE_LIMIT, at);
        note_told(alloc, found, is_past, FaultKind::Limit, named.at)?;
        let is_past = variable.role.is_output() && is_full(OUTPUT_LIMIT, outputs);
        note_told(alloc, found, is_past, FaultKind::Limit, named.at)
    }

    /// Tells the flaws of an expression where one of this kind is wanted; None: of any kind. Err: memory was refused.
    #[tactic(auto, using(crate::proofs::ToldFlaws::expression_told))]
    pub fn tell_expression(
        &self,
        alloc: Global,
        wanted: Option<Kind>,
        expression: &TextExpression,
        found: &mut Items<Flaw>,
    ) -> Result<(), AllocError>
        ensures { OnOk result (found.new ≡ told_behind found.old
            (expression_flaws self.now.variables.now wanted expression.now)) }
    {
        let operations = expression.operations.as_slice();
        self.tell_unknown_names(alloc, operations, found)?;
        let is_other = self.is_of_other_kind(alloc, wanted, operations)?;
        note_told(alloc, found, is_other, FaultKind::Kind, expression.start)?;
        let is_past = passes_limits(operations);
        note_told(alloc, found, is_past, FaultKind::Limit, expression.start)?;
        Ok(())
    }

    /// Tells the flaws of an assignment to the variable of this name. Err: memory was refused.
    #[tactic(auto, using(crate::proofs::ToldInOrder::told_both))]
    pub fn tell_assignment(
        &self,
        alloc: Global,
        target: Named,
        value: &TextExpression,
        found: &mut Items<Flaw>,
    ) -> Result<(), AllocError>
        ensures { OnOk result (found.new ≡ told_behind found.old
            (assigned_flaws self.now.variables.now
            (variable_named self.now.variables.now target.name) target value.now)) }
    {
        match self.variable(target.name) {
            Some(variable) => {
                let is_written = is_input(variable.role);
                note_told(alloc, found, is_written, FaultKind::Rule, target.at)?;
                self.tell_expression(alloc, Some(variable.kind), value, found)
            }
            None => {
                note_told(alloc, found, true, FaultKind::Unknown, target.at)?;
                self.tell_expression(alloc, None, value, found)
            }
        }
    }

    #[tactic(auto, using(crate::proofs::ToldFlaws::unknown_step, crate::proofs::ToldFlaws::unknown_over))]
    fn tell_unknown_names(
        &self,
        alloc: Global,
        operations: &[TextOperation],
        found: &mut Items<Flaw>,
    ) -> Result<(), AllocError>
        ensures { OnOk result (found.new ≡ told_behind found.old (unknown_names
            (is_among (variable_names self.now.variables.now)) operations.now)) }
    {
        for operation in operations {
            self.tell_unknown_name(alloc, operation, found)?;
        }
        Ok(())
    }

    fn tell_unknown_name(
        &self,
        alloc: Global,
        operation: &TextOperation,
        found: &mut Items<Flaw>,
    ) -> Result<(), AllocError>
        ensures { OnOk result (found.new ≡ told_behind found.old (unknown_one
            (is_among (variable_names self.now.variables.now)) operation.now)) }
    {
        match operation {
            TextOperation::Load(name, at) => {
                let is_unknown = !self.is_known(*name);
                note_told(alloc, found, is_unknown, FaultKind::Unknown, *at)
            }
            _ => Ok(()),
        }
    }
}
