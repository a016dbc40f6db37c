//! The variables of a draft by their names, and the kinds of its expressions.

ghost use Rattle.std.specs.Prelude.{◌≡◌, ◌∷◌, IfOk, option_map};
ghost use Rattle.std.specs.List.{list_all};
ghost use Rattle.sc_text.specs.Flaws.{variable_named, variable_names, is_among, has_known_name};
ghost use Rattle.sc_text.specs.Flaws.{kind_named, kinds_behind, is_of_kind, is_of_other_kind, is_input};
ghost use Rattle.sc_values.specs.Code.{some_if};
ghost use Rattle.sc_text.specs.Index.{IsIndex};

use crate::TextOperation;
use crate::drafts::index::Index;
use crate::drafts::kinds::Kinds;
use crate::drafts::parts::Declaration;
use sc_graph::Role;
use sc_values::{Kind, Name};
use sqlite_items::Items;
use std::alloc::{AllocError, Global};

/// What the parts of a draft are held against: its variables, and a table of their places by name.
#[derive(Drop)]
pub struct Scope<'a> {
    pub variables: &'a [Declaration],
    pub(crate) index: Index,
    ghost same: { IsIndex (variable_names variables.now) index },
}

impl<'a> Scope<'a> {
    /// The scope of these variables. Err: memory was refused.
    pub fn of(alloc: Global, variables: &'a [Declaration]) -> Result<Scope<'a>, AllocError>
        ensures { IfOk result (λ scope. scope.variables.now ≡ variables.now) }
    {
        let names = variable_names(alloc, variables)?;
        let index = Index::of(alloc, names.as_slice())?;
        Ok(Scope { variables, index })
    }

    /// The variable of this name. None: there is none.
    pub fn variable(&self, name: Name) -> Option<Declaration>
        ensures { result ≡ variable_named self.now.variables.now name }
    {
        match self.index.place(name) {
            Some(at) => match self.variables.get(at) {
                Some(variable) => Some(*variable),
                None => None,
            },
            None => None,
        }
    }

    /// Whether a variable has this name.
    pub(crate) fn is_known(&self, name: Name) -> bool
        ensures { result ≡ is_among (variable_names self.now.variables.now) name }
    {
        self.index.has(name)
    }

    #[tactic(auto, using(crate::proofs::KnownNames::known_step))]
    fn are_known(&self, operations: &[TextOperation]) -> bool
        ensures { result ≡ list_all (has_known_name (is_among (variable_names self.now.variables.now))) operations.now }
    {
        for operation in operations {
            if !self.has_known_name(operation) {
                return false;
            }
        }
        true
    }

    fn has_known_name(&self, operation: &TextOperation) -> bool
        ensures { result ≡ has_known_name (is_among (variable_names self.now.variables.now)) operation.now }
    {
        match operation {
            TextOperation::Load(name, _) => self.is_known(*name),
            _ => true,
        }
    }

    /// Whether the names are all known, and the expression is of another kind than the one that is wanted.
    pub(crate) fn is_of_other_kind(
        &self,
        alloc: Global,
        wanted: Option<Kind>,
        operations: &[TextOperation],
    ) -> Result<bool, AllocError>
        ensures { IfOk result (λ other. other ≡ is_of_other_kind self.now.variables.now wanted operations.now) }
    {
        match wanted {
            Some(kind) => {
                if !self.are_known(operations) {
                    return Ok(false);
                }
                let is_wanted = self.is_of_kind(alloc, kind, operations)?;
                Ok(!is_wanted)
            }
            None => Ok(false),
        }
    }

    fn is_of_kind(
        &self,
        alloc: Global,
        wanted: Kind,
        operations: &[TextOperation],
    ) -> Result<bool, AllocError>
        ensures { IfOk result (λ is. is ≡ is_of_kind (kind_named self.now.variables.now) wanted operations.now) }
    {
        let mut stack = Kinds::new(alloc);
        for operation in operations {
            if !self.acts(operation, &mut stack)? {
                return Ok(false);
            }
        }
        Ok(stack.is_alone(wanted))
    }

    // Does to the kinds what the operation does to its operands. False: it can't.
    fn acts(&self, operation: &TextOperation, stack: &mut Kinds) -> Result<bool, AllocError>
        ensures { IfOk result (λ can. kinds_behind (kind_named self.now.variables.now) operation.now stack.old
            ≡ some_if can stack.new) }
    {
        match self.kind_left(operation, stack) {
            Some(kind) => {
                stack.push(kind)?;
                Ok(true)
            }
            None => Ok(false),
        }
    }

    // The kind of what an operation leaves for its operands, which it takes off the kinds.
    fn kind_left(&self, operation: &TextOperation, stack: &mut Kinds) -> Option<Kind>
        ensures { kinds_behind (kind_named self.now.variables.now) operation.now stack.old ≡ option_map
            (λ k. k ∷ stack.new) result }
    {
        match operation {
            TextOperation::Literal(value) => Some(value.kind()),
            TextOperation::Load(name, _) => self.kind_named(*name),
            TextOperation::Unary(f) => match stack.pop() {
                Some(operand) => f.kind(operand),
                None => None,
            },
            TextOperation::Binary(f) => match (stack.pop(), stack.pop()) {
                (Some(right), Some(left)) => f.kind(left, right),
                _ => None,
            },
        }
    }

    fn kind_named(&self, name: Name) -> Option<Kind>
        ensures { result ≡ kind_named self.now.variables.now name }
    {
        match self.variable(name) {
            Some(variable) => Some(variable.kind),
            None => None,
        }
    }
}

fn variable_names(alloc: Global, variables: &[Declaration]) -> Result<Items<Name>, AllocError>
    ensures { IfOk result (λ names. names ≡ variable_names variables.now) }
{
    let mut names = Items::new(alloc);
    for variable in variables {
        names.push(variable.named.name)?;
    }
    Ok(names)
}

/// Whether a variable is given its values from outside.
pub(crate) fn is_input(role: Role) -> bool
    ensures { result ≡ is_input role }
{
    match role {
        Role::Input => true,
        Role::Output | Role::Local => false,
    }
}
