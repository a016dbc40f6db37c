//! Look-ups in a program, which give nothing past its ends.

ghost use Rattle.std.specs.Prelude.{◌≡◌, ◌&&◌};
ghost use Rattle.std.specs.Option.{option_copied};
ghost use Rattle.sc_graph.specs.Program.{step_at, owner_of, parent_of, entry_of, kind_at, role_at, owns, is_join};
ghost use Rattle.sc_graph.specs.Program.{is_depth, is_target, is_join_step, is_depth_step, is_ordinary_step};

use crate::program::{NodeId, Program, Role, Step, ThreadId, VariableId};
use sc_values::Kind;

impl Program {
    /// The step at a node. None: there is no such node.
    pub fn step(&self, node: NodeId) -> Option<&Step>
        ensures { option_copied result ≡ step_at self.now node }
    {
        match self.nodes().get(node as usize) {
            Some(found) => Some(&found.step),
            None => None,
        }
    }

    /// The thread that owns a node. None: there is no such node.
    pub fn owner(&self, node: NodeId) -> Option<ThreadId>
        ensures { result ≡ owner_of self.now node }
    {
        match self.nodes().get(node as usize) {
            Some(found) => Some(found.owner),
            None => None,
        }
    }

    /// The parent of a thread. None: it has none, or there is no such thread.
    pub fn parent(&self, thread: ThreadId) -> Option<ThreadId>
        ensures { result ≡ parent_of self.now thread }
    {
        match self.threads().get(thread as usize) {
            Some(found) => found.parent,
            None => None,
        }
    }

    /// The node where a thread begins. None: there is no such thread.
    pub fn entry(&self, thread: ThreadId) -> Option<NodeId>
        ensures { result ≡ entry_of self.now thread }
    {
        match self.threads().get(thread as usize) {
            Some(found) => Some(found.entry),
            None => None,
        }
    }

    /// The kind of a variable. None: there is no such variable.
    pub fn kind(&self, variable: VariableId) -> Option<Kind>
        ensures { result ≡ kind_at self.now variable }
    {
        match self.variables().get(variable as usize) {
            Some(found) => Some(found.kind),
            None => None,
        }
    }

    /// The role of a variable. None: there is no such variable.
    pub fn role(&self, variable: VariableId) -> Option<Role>
        ensures { result ≡ role_at self.now variable }
    {
        match self.variables().get(variable as usize) {
            Some(found) => Some(found.role),
            None => None,
        }
    }

    /// Whether a thread owns a node.
    pub fn owns(&self, thread: ThreadId, node: NodeId) -> bool
        ensures { result ≡ owns self.now thread node }
    {
        match self.owner(node) {
            Some(owner) => owner == thread,
            None => false,
        }
    }

    /// Whether a node is a join of a thread.
    pub fn is_join(&self, thread: ThreadId, node: NodeId) -> bool
        ensures { result ≡ is_join self.now thread node }
    {
        self.owns(thread, node) && is_join_step_at(self.step(node))
    }

    /// Whether a node is a depth of a thread.
    pub fn is_depth(&self, thread: ThreadId, node: NodeId) -> bool
        ensures { result ≡ is_depth self.now thread node }
    {
        self.owns(thread, node) && is_depth_step_at(self.step(node))
    }

    /// Whether a node is one of a thread to which a step may go: no join and no depth.
    pub fn is_target(&self, thread: ThreadId, node: NodeId) -> bool
        ensures { result ≡ is_target self.now thread node }
    {
        self.owns(thread, node) && is_ordinary_step_at(self.step(node))
    }
}

fn is_join_step_at(step: Option<&Step>) -> bool
    ensures { result ≡ is_join_step (option_copied step.entry) }
{
    match step {
        Some(Step::Join { next: _ }) => true,
        _ => false,
    }
}

fn is_depth_step_at(step: Option<&Step>) -> bool
    ensures { result ≡ is_depth_step (option_copied step.entry) }
{
    match step {
        Some(Step::Depth { next: _ }) => true,
        _ => false,
    }
}

fn is_ordinary_step_at(step: Option<&Step>) -> bool
    ensures { result ≡ is_ordinary_step (option_copied step.entry) }
{
    match step {
        None => false,
        Some(Step::Join { next: _ }) => false,
        Some(Step::Depth { next: _ }) => false,
        Some(_) => true,
    }
}
