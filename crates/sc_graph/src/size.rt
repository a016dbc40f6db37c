//! The size and range rule.

ghost use Rattle.std.specs.Prelude.{◌≡◌, ◌≢◌, ◌≤◌, ◌<◌, ◌+◌, ◌↔◌, ℕ, IsTrue, Some, MatchOption, All, Contains, ⊤};
ghost use Rattle.std.specs.Prelude.{length, slice_get, take, count_by};
ghost use Rattle.sc_values.specs.Code.{loaded};
ghost use Rattle.sc_graph.specs.declared.program.Variable.{Variable};
ghost use Rattle.sc_graph.specs.Limits.{output_limit, ancestor_limit};
ghost use Rattle.sc_graph.specs.Size.{is_output, CountsFit, VariableFits, ParentFits, ThreadFits, InNodes, InVariables};
ghost use Rattle.sc_graph.specs.Size.{LoadsFit, AreDistinct, ChildrenFit, StepFits, NodeFits, ProgramFitsAt};
ghost use Rattle.sc_graph.specs.Threads.{Descends};
ghost use Rattle.sc_graph.specs.Program.{owner_of};
ghost use Rattle.sc_graph.specs.Inside.Lookups.{name_at, HasNoAncestor};

use crate::limits::{
    ANCESTOR_LIMIT, CHILD_LIMIT, NODE_LIMIT, OUTPUT_LIMIT, THREAD_LIMIT, VARIABLE_LIMIT,
};
use crate::place::Place;
use crate::program::{NodeId, Program, Role, Step, Thread, ThreadId, Variable, VariableId};
use sc_values::{Code, Name, Operation};

impl Program {
    /// A place where the program breaks the size and range rule, the budget aside. None: it keeps
    /// the rule.
    pub fn size_fault(&self) -> Option<Place>
        ensures { MatchOption result ((at : Place) → ProgramFitsAt self.now at) (λ at. ¬ ProgramFitsAt self.now at) }
    {
        if !self.counts_fit() {
            return Some(Place::Image);
        }
        if let Some(variable) = self.unfit_variable() {
            return Some(Place::Variable(variable));
        }
        if let Some(thread) = self.unfit_thread() {
            return Some(Place::Thread(thread));
        }
        match self.unfit_node() {
            Some(node) => Some(Place::Node(node)),
            None => None,
        }
    }

    fn counts_fit(&self) -> bool
        ensures { IsTrue result ↔ CountsFit self.now }
    {
        let variables = self.variables().len();
        let threads = self.threads().len();
        let nodes = self.nodes().len();
        variables <= VARIABLE_LIMIT
            && 1 <= threads
            && threads <= THREAD_LIMIT
            && 1 <= nodes
            && nodes <= NODE_LIMIT
    }

    fn unfit_variable(&self) -> Option<VariableId>
        ensures { MatchOption result ((x : ℕ) → ProgramFitsAt self.now (Place.Variable x))
            (λ x. ¬ ProgramFitsAt self.now (Place.Variable x)) }
    {
        for variable in 0..self.variable_count() {
            if !self.variable_fits(variable) {
                return Some(variable);
            }
        }
        None
    }

    fn unfit_thread(&self) -> Option<ThreadId>
        ensures { MatchOption result ((t : ℕ) → ProgramFitsAt self.now (Place.Thread t))
            (λ t. ¬ ProgramFitsAt self.now (Place.Thread t)) }
    {
        for thread in 0..self.thread_count() {
            if !self.thread_fits(thread) {
                return Some(thread);
            }
        }
        None
    }

    fn unfit_node(&self) -> Option<NodeId>
        ensures { MatchOption result ((n : ℕ) → ProgramFitsAt self.now (Place.Node n))
            (λ n. ¬ ProgramFitsAt self.now (Place.Node n)) }
    {
        for node in 0..self.node_count() {
            if !self.node_fits(node) {
                return Some(node);
            }
        }
        None
    }

    fn variable_fits(&self, variable: VariableId) -> bool
        ensures { IsTrue result ↔ ProgramFitsAt self.now (Place.Variable variable) }
    {
        match self.variables().get(variable as usize) {
            None => true,
            Some(found) => self.is_fit_variable(variable, found),
        }
    }

    fn is_fit_variable(&self, variable: VariableId, found: &Variable) -> bool
        requires { variable < length self.now.variables }
        ensures { IsTrue result ↔ VariableFits self.now variable found.now }
    {
        self.is_new_name(variable, &found.name) && self.has_room_for(variable, found.role)
    }

    // Whether a variable of this role is no output past the limit.
    fn has_room_for(&self, variable: VariableId, role: Role) -> bool
        requires { variable < length self.now.variables }
        ensures { IsTrue result ↔ (role ≡ Role.Output → count_by (λ b. is_output b.role)
            (take (variable + 1) self.now.variables) ≤ output_limit) }
    {
        !role.is_output() || self.outputs_up_to(variable) <= OUTPUT_LIMIT
    }

    // Whether no variable of smaller number has the name.
    fn is_new_name(&self, variable: VariableId, name: &Name) -> bool
        ensures { IsTrue result ↔ ((y : ℕ) (b : Variable) → y < variable → slice_get self.now.variables y ≡ Some b
            → b.name ≢ name.now) }
    {
        for earlier in 0..variable {
            if self.has_name(earlier, name) {
                return false;
            }
        }
        true
    }

    fn has_name(&self, variable: VariableId, name: &Name) -> bool
        ensures { IsTrue result ↔ (name_at self.now variable ≡ Some name.now) }
    {
        match self.variables().get(variable as usize) {
            Some(found) => found.name == *name,
            None => false,
        }
    }

    // How many of the variables up to this one are outputs.
    fn outputs_up_to(&self, variable: VariableId) -> usize
        requires { variable < length self.now.variables }
        ensures { result ≡ count_by (λ b. is_output b.role) (take (variable + 1) self.now.variables) }
    {
        self.variables()[..=variable as usize]
            .iter()
            .filter(|found| found.role.is_output())
            .count()
    }

    fn thread_fits(&self, thread: ThreadId) -> bool
        ensures { IsTrue result ↔ ProgramFitsAt self.now (Place.Thread thread) }
    {
        match self.threads().get(thread as usize) {
            None => true,
            Some(found) => self.is_fit_thread(thread, found),
        }
    }

    fn is_fit_thread(&self, thread: ThreadId, found: &Thread) -> bool
        ensures { IsTrue result ↔ ThreadFits self.now thread found.now }
    {
        parent_fits(thread, found.parent)
            && self.has_few_ancestors(thread)
            && self.is_owner(thread, found.entry)
    }

    fn has_few_ancestors(&self, thread: ThreadId) -> bool
        ensures { IsTrue result ↔ HasNoAncestor self.now (ancestor_limit + 1) thread }
    {
        self.ancestor(ANCESTOR_LIMIT + 1, thread).is_none()
    }

    fn is_owner(&self, thread: ThreadId, node: NodeId) -> bool
        ensures { IsTrue result ↔ (owner_of self.now node ≡ Some thread) }
    {
        self.owner(node) == Some(thread)
    }

    // The thread so many generations above a thread.
    fn ancestor(&self, generations: u16, thread: ThreadId) -> Option<ThreadId>
        ensures { MatchOption result (HasNoAncestor self.now generations thread)
            (λ u. Descends self.now generations thread u) }
    {
        let mut at = thread;
        for _ in 0..generations {
            match self.parent(at) {
                Some(parent) => at = parent,
                None => return None,
            }
        }
        Some(at)
    }

    fn node_fits(&self, node: NodeId) -> bool
        ensures { IsTrue result ↔ ProgramFitsAt self.now (Place.Node node) }
    {
        match self.nodes().get(node as usize) {
            None => true,
            Some(found) => self.has_thread(found.owner) && self.step_fits(&found.step),
        }
    }

    fn step_fits(&self, step: &Step) -> bool
        ensures { IsTrue result ↔ StepFits self.now step.now }
    {
        match step {
            Step::Assign {
                variable,
                code,
                next,
            } => self.has_variable(*variable) && self.loads_fit(code) && self.has_node(*next),
            Step::Update {
                variable,
                combine: _,
                code,
                next,
            } => self.has_variable(*variable) && self.loads_fit(code) && self.has_node(*next),
            Step::Cond { code, then, other } => {
                self.loads_fit(code) && self.has_node(*then) && self.has_node(*other)
            }
            Step::Fork { children, join } => {
                self.children_fit(children.as_slice()) && self.has_node(*join)
            }
            Step::Join { next } => self.has_node(*next),
            Step::Surf { depth } => self.has_node(*depth),
            Step::Depth { next } => self.has_node(*next),
            Step::Exit => true,
        }
    }

    fn has_variable(&self, variable: VariableId) -> bool
        ensures { IsTrue result ↔ InVariables self.now variable }
    {
        (variable as usize) < self.variables().len()
    }

    fn has_thread(&self, thread: ThreadId) -> bool
        ensures { IsTrue result ↔ (thread < length self.now.threads) }
    {
        (thread as usize) < self.threads().len()
    }

    fn has_node(&self, node: NodeId) -> bool
        ensures { IsTrue result ↔ InNodes self.now node }
    {
        (node as usize) < self.nodes().len()
    }

    // Whether each variable that a code loads is there.
    fn loads_fit(&self, code: &Code) -> bool
        ensures { IsTrue result ↔ LoadsFit self.now code.now }
    {
        for operation in code.operations() {
            if !self.load_fits(*operation) {
                return false;
            }
        }
        true
    }

    fn load_fits(&self, operation: Operation) -> bool
        ensures { IsTrue result ↔ MatchOption (loaded operation) ⊤ (InVariables self.now) }
    {
        match operation {
            Operation::Load(variable) => self.has_variable(variable),
            _ => true,
        }
    }

    fn children_fit(&self, children: &[ThreadId]) -> bool
        ensures { IsTrue result ↔ ChildrenFit self.now children.now }
    {
        !children.is_empty()
            && children.len() <= CHILD_LIMIT
            && self.has_threads(children)
            && are_distinct(children)
    }

    fn has_threads(&self, threads: &[ThreadId]) -> bool
        ensures { IsTrue result ↔ All (λ k. k < length self.now.threads) threads.now }
    {
        for thread in threads {
            if !self.has_thread(*thread) {
                return false;
            }
        }
        true
    }
}

impl Role {
    /// Whether this is an output's role.
    pub fn is_output(self) -> bool
        ensures { result ≡ is_output self }
    {
        match self {
            Role::Output => true,
            _ => false,
        }
    }
}

// The root has no parent, and every other thread one of smaller number.
fn parent_fits(thread: ThreadId, parent: Option<ThreadId>) -> bool
    ensures { IsTrue result ↔ ParentFits thread parent }
{
    match parent {
        None => thread == 0,
        Some(parent) => parent < thread,
    }
}

// Whether no number stands twice.
fn are_distinct(threads: &[ThreadId]) -> bool
    ensures { IsTrue result ↔ AreDistinct threads.now }
{
    for (i, thread) in threads.iter().enumerate() {
        if is_among(&threads[..i], *thread) {
            return false;
        }
    }
    true
}

fn is_among(threads: &[ThreadId], thread: ThreadId) -> bool
    ensures { IsTrue result ↔ Contains threads.now thread }
{
    threads.contains(&thread)
}
