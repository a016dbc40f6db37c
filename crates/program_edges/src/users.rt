//! The nodes that use each variable: those that initialize it, those that update it, and those that
//! read it.

ghost use Rattle.std.specs.Prelude.{◌≡◌, ◌↔◌, ℕ, IfOk, OnOk, Some, Contains, length};
ghost use Rattle.sc_values.specs.Access.{Reads};
ghost use Rattle.sc_values.specs.Code.{loads, loaded};
ghost use Rattle.sc_graph.specs.Accesses.{access_of};
ghost use Rattle.program_edges.specs.Users.{InitsAt, ReadsAt, UpdatesAt, Gains, ListsEach, UsersOf, UsesAt};

use crate::node_lists::NodeLists;
use sc_graph::{NodeId, Program, Step};
use sc_values::{Code, Operation};
use std::alloc::{AllocError, Global};

/// A way to use a variable.
#[derive(Clone, Copy)]
pub enum Use {
    Init,
    Update,
    Read,
}

/// The nodes that use each variable, in each of the three ways.
#[derive(Drop)]
pub struct Users {
    pub inits: NodeLists,
    pub updates: NodeLists,
    pub reads: NodeLists,
}

impl Users {
    /// The users of the variables of a program. Err: memory was refused.
    pub fn of(alloc: Global, program: &Program) -> Result<Users, AllocError>
        ensures { IfOk result (UsersOf program.now) }
    {
        Ok(Users {
            inits: NodeLists::using(alloc, program, Use::Init)?,
            updates: NodeLists::using(alloc, program, Use::Update)?,
            reads: NodeLists::using(alloc, program, Use::Read)?,
        })
    }
}

impl NodeLists {
    /// The nodes that use each variable in a way, found in one pass over the nodes.
    pub fn using(alloc: Global, program: &Program, way: Use) -> Result<NodeLists, AllocError>
        ensures { IfOk result (ListsEach (length program.now.variables) (UsesAt program.now way)) }
    {
        let mut users = NodeLists::none(alloc, program.variable_count())?;
        for n in 0..program.node_count() {
            users.note_use(program, n, way)?;
        }
        Ok(users)
    }

    // Puts a node into the list of each variable that it uses in a way.
    fn note_use(&mut self, program: &Program, n: NodeId, way: Use) -> Result<(), AllocError>
        ensures { OnOk result (Gains self.old self.new n (λ x. UsesAt program.now way x n)) }
    {
        match way {
            Use::Init => self.note_init(program, n),
            Use::Update => self.note_update(program, n),
            Use::Read => self.note_reads(program, n),
        }
    }

    // Puts a node into the list of the variable that it initializes.
    fn note_init(&mut self, program: &Program, n: NodeId) -> Result<(), AllocError>
        ensures { OnOk result (Gains self.old self.new n (λ x. InitsAt program.now x n)) }
    {
        match program.step(n) {
            Some(Step::Assign { variable, .. }) => self.note(*variable, n),
            _ => Ok(()),
        }
    }

    // Puts a node into the list of the variable that it updates.
    fn note_update(&mut self, program: &Program, n: NodeId) -> Result<(), AllocError>
        ensures { OnOk result (Gains self.old self.new n (λ x. UpdatesAt program.now x n)) }
    {
        match program.step(n) {
            Some(Step::Update { variable, .. }) => self.note(*variable, n),
            _ => Ok(()),
        }
    }

    // Puts a node into the list of each variable that it reads.
    fn note_reads(&mut self, program: &Program, n: NodeId) -> Result<(), AllocError>
        ensures { OnOk result (Gains self.old self.new n (λ x. ReadsAt program.now x n)) }
    {
        match program.step(n) {
            Some(step) => self.note_reads_of(step, n),
            None => Ok(()),
        }
    }

    fn note_reads_of(&mut self, step: &Step, n: NodeId) -> Result<(), AllocError>
        ensures { OnOk result (Gains self.old self.new n (Reads (access_of step.now))) }
    {
        match step {
            Step::Assign { code, .. } | Step::Update { code, .. } | Step::Cond { code, .. } => {
                self.note_loads(code, n)
            }
            _ => Ok(()),
        }
    }

    // Puts a node into the list of each variable that its code loads.
    fn note_loads(&mut self, code: &Code, n: NodeId) -> Result<(), AllocError>
        ensures { OnOk result (Gains self.old self.new n (Contains (loads code.now))) }
    {
        for operation in code.operations() {
            self.note_load(*operation, n)?;
        }
        Ok(())
    }

    fn note_load(&mut self, operation: Operation, n: NodeId) -> Result<(), AllocError>
        ensures { OnOk result (Gains self.old self.new n (λ x. loaded operation ≡ Some x)) }
    {
        match operation {
            Operation::Load(variable) => self.note(variable, n),
            _ => Ok(()),
        }
    }
}
