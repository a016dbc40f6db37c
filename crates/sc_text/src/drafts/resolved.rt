//! Expressions and variables of a draft, with names looked up.

ghost use Rattle.std.specs.Prelude.{◌≡◌, ◌≤◌, IfOk, length};
ghost use Rattle.sc_graph.specs.Limits.{variable_limit};
ghost use Rattle.sc_text.specs.Flaws.{variable_names};
ghost use Rattle.sc_text.specs.Resolved.{number_of, operation_of, expression_of, variables_of};

use crate::TextOperation;
use crate::drafts::parts::{Declaration, TextExpression};
use crate::drafts::scope::Scope;
use crate::drafts::trees::only;
use sc_graph::{Variable, VariableId};
use sc_values::{Expr, Name, Operation, Value, grow_trees};
use sqlite_items::Items;
use std::alloc::{AllocError, Global};

impl<'a> Scope<'a> {
    /// The number of the variable of this name, or 0 where there is none.
    #[tactic(auto, using(crate::proofs::Resolving::number_fits))]
    pub fn number(&self, name: Name) -> VariableId
        requires { length self.now.variables.now ≤ variable_limit }
        ensures { result ≡ number_of (variable_names self.now.variables.now) name }
    {
        match self.index.place(name) {
            Some(at) => at as u16,
            None => 0,
        }
    }

    fn operation(&self, operation: &TextOperation) -> Operation
        requires { length self.now.variables.now ≤ variable_limit }
        ensures { result ≡ operation_of (variable_names self.now.variables.now) operation.now }
    {
        match operation {
            TextOperation::Literal(value) => Operation::Literal(*value),
            TextOperation::Load(name, _) => Operation::Load(self.number(*name)),
            TextOperation::Unary(f) => Operation::Unary(*f),
            TextOperation::Binary(f) => Operation::Binary(*f),
        }
    }

    /// The expression with its names looked up, or `false` where it spells no tree. Err: memory was refused.
    pub fn resolved(&self, alloc: Global, expression: &TextExpression) -> Result<Expr, AllocError>
        requires { length self.now.variables.now ≤ variable_limit }
        ensures { IfOk result
            (λ tree. tree ≡ expression_of (variable_names self.now.variables.now) expression.now.operations) }
    {
        let mut trees = Items::new(alloc);
        for operation in expression.operations.as_slice() {
            if !grow_trees(alloc, self.operation(operation), &mut trees)? {
                return Ok(Expr::Literal(Value::Bool(false)));
            }
        }
        Ok(only(&mut trees))
    }
}

/// The variables of a draft. Err: memory was refused.
pub fn variables(alloc: Global, declarations: &[Declaration]) -> Result<Items<Variable>, AllocError>
    ensures { IfOk result (λ variables. variables ≡ variables_of declarations.now) }
{
    let mut variables = Items::new(alloc);
    for declaration in declarations {
        variables.push(Variable {
            name: declaration.named.name,
            kind: declaration.kind,
            role: declaration.role,
        })?;
    }
    Ok(variables)
}
