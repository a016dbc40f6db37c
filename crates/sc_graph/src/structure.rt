//! The structure rule.

ghost use Rattle.std.specs.Prelude.{◌≡◌, ◌↔◌, ◌<◌, ℕ, IsTrue, IsSome, IfSome, MatchOption, Some, All, length};
ghost use Rattle.std.specs.Option.{option_copied};
ghost use Rattle.sc_graph.specs.Program.{parent_of};
ghost use Rattle.sc_graph.specs.Structure.{StepStays, ForksChild, ExactlyOne, BelongsToOne, IsForkedOnce, StructureAt};
ghost use Rattle.sc_graph.specs.Links.{Tells};
ghost use Rattle.sc_graph.specs.Inside.Links.{IsInRange, IsLink};
ghost use Rattle.sc_graph.specs.Valid.{IsFormed};

use crate::links::{Link, Links};
use crate::place::Place;
use crate::program::{NodeId, Program, Step, ThreadId};

impl Program {
    /// Whether the program keeps the size and range rule, the budget aside, and the structure rule.
    pub fn formed(&self) -> bool
        ensures { IsTrue result ↔ IsFormed self.now }
    {
        self.size_fault().is_none() && self.structure_fault().is_none()
    }

    /// As `formed`, by the links of the program: in one pass over its nodes.
    pub fn formed_with(&self, links: &Links) -> bool
        requires { Tells self.now links.now }
        ensures { IsTrue result ↔ IsFormed self.now }
    {
        self.size_fault().is_none() && self.structure_fault_with(links).is_none()
    }

    /// A place where the program breaks the structure rule. None: it keeps the rule.
    pub fn structure_fault(&self) -> Option<Place>
        ensures { MatchOption result ((at : Place) → StructureAt self.now at) (λ at. ¬ StructureAt self.now at) }
    {
        self.structure_fault_by(None)
    }

    /// As `structure_fault`, by the links of the program: in one pass over its nodes.
    pub fn structure_fault_with(&self, links: &Links) -> Option<Place>
        requires { Tells self.now links.now }
        ensures { MatchOption result ((at : Place) → StructureAt self.now at) (λ at. ¬ StructureAt self.now at) }
    {
        self.structure_fault_by(Some(links))
    }

    // By the links, or by a search of all nodes for each link.
    fn structure_fault_by(&self, links: Option<&Links>) -> Option<Place>
        requires { IfSome (option_copied links) (Tells self.now) }
        ensures { MatchOption result ((at : Place) → StructureAt self.now at) (λ at. ¬ StructureAt self.now at) }
    {
        if let Some(thread) = self.misplaced_thread(links) {
            return Some(Place::Thread(thread));
        }
        match self.misplaced_node(links) {
            Some(node) => Some(Place::Node(node)),
            None => None,
        }
    }

    fn misplaced_thread(&self, links: Option<&Links>) -> Option<ThreadId>
        requires { IfSome (option_copied links) (Tells self.now) }
        ensures { MatchOption result ((t : ℕ) → StructureAt self.now (Place.Thread t))
            (λ t. ¬ StructureAt self.now (Place.Thread t)) }
    {
        for thread in 0..self.thread_count() {
            if !self.thread_stands(thread, links) {
                return Some(thread);
            }
        }
        None
    }

    fn misplaced_node(&self, links: Option<&Links>) -> Option<NodeId>
        requires { IfSome (option_copied links) (Tells self.now) }
        ensures { MatchOption result ((n : ℕ) → StructureAt self.now (Place.Node n))
            (λ n. ¬ StructureAt self.now (Place.Node n)) }
    {
        for node in 0..self.node_count() {
            if !self.node_stands(node, links) {
                return Some(node);
            }
        }
        None
    }

    fn thread_stands(&self, thread: ThreadId, links: Option<&Links>) -> bool
        requires { IfSome (option_copied links) (Tells self.now) }
        ensures { IsTrue result ↔ StructureAt self.now (Place.Thread thread) }
    {
        match self.threads().get(thread as usize) {
            None => true,
            Some(found) => {
                self.is_target(thread, found.entry) && self.is_forked_once(thread, links)
            }
        }
    }

    // Whether a thread, unless it is the root, is a child of exactly one fork.
    fn is_forked_once(&self, thread: ThreadId, links: Option<&Links>) -> bool
        requires links { IfSome (option_copied links) (Tells self.now) }
        requires within { thread < length self.now.threads }
        ensures { IsTrue result ↔ IsForkedOnce self.now thread }
    {
        thread == 0 || self.only_node(Link::Child(thread), links).is_some()
    }

    /// The only fork of which a thread is a child. None: there is no such fork, or more than one.
    pub fn fork_of(&self, child: ThreadId) -> Option<NodeId>
        ensures once { IsSome result ↔ ExactlyOne (ForksChild self.now child) }
        ensures fork { IfSome result (λ n. ForksChild self.now child n) }
    {
        self.searched_node(Link::Child(child))
    }

    fn node_stands(&self, node: NodeId, links: Option<&Links>) -> bool
        requires { IfSome (option_copied links) (Tells self.now) }
        ensures { IsTrue result ↔ StructureAt self.now (Place.Node node) }
    {
        match self.nodes().get(node as usize) {
            None => true,
            Some(found) => {
                self.step_stays(found.owner, &found.step)
                    && self.belongs_to_one(node, &found.step, links)
            }
        }
    }

    // Whether a step of a thread goes on at nodes of its own, of the right sort.
    fn step_stays(&self, thread: ThreadId, step: &Step) -> bool
        ensures { IsTrue result ↔ StepStays self.now thread step.now }
    {
        match step {
            Step::Assign {
                variable: _,
                code: _,
                next,
            } => self.is_target(thread, *next),
            Step::Update {
                variable: _,
                combine: _,
                code: _,
                next,
            } => self.is_target(thread, *next),
            Step::Cond {
                code: _,
                then,
                other,
            } => self.is_target(thread, *then) && self.is_target(thread, *other),
            Step::Fork { children, join } => {
                self.is_join(thread, *join) && self.have_parent(children.as_slice(), thread)
            }
            Step::Join { next } => self.is_target(thread, *next),
            Step::Surf { depth } => self.is_depth(thread, *depth),
            Step::Depth { next } => self.is_target(thread, *next),
            Step::Exit => true,
        }
    }

    // Whether all children have this parent.
    fn have_parent(&self, children: &[ThreadId], parent: ThreadId) -> bool
        ensures { IsTrue result ↔ All (λ k. parent_of self.now k ≡ Some parent) children.now }
    {
        for child in children {
            if self.parent(*child) != Some(parent) {
                return false;
            }
        }
        true
    }

    // Whether a join belongs to one fork, and a depth to one pause.
    fn belongs_to_one(&self, node: NodeId, step: &Step, links: Option<&Links>) -> bool
        requires links { IfSome (option_copied links) (Tells self.now) }
        requires within { node < length self.now.nodes }
        ensures { IsTrue result ↔ BelongsToOne self.now node step.now }
    {
        match step {
            Step::Join { next: _ } => self.only_node(Link::Join(node), links).is_some(),
            Step::Depth { next: _ } => self.only_node(Link::Depth(node), links).is_some(),
            _ => true,
        }
    }

    // The only node that is such a link, by the links where they are given.
    fn only_node(&self, link: Link, links: Option<&Links>) -> Option<NodeId>
        requires links { IfSome (option_copied links) (Tells self.now) }
        requires within { IsInRange self.now link }
        ensures once { IsSome result ↔ ExactlyOne (IsLink self.now link) }
        ensures link { IfSome result (λ n. IsLink self.now link n) }
    {
        match links {
            Some(links) => links.only(link),
            None => self.searched_node(link),
        }
    }

    // The only node that is such a link, by a search of all nodes.
    fn searched_node(&self, link: Link) -> Option<NodeId>
        ensures once { IsSome result ↔ ExactlyOne (IsLink self.now link) }
        ensures link { IfSome result (λ n. IsLink self.now link n) }
    {
        let mut found = None;
        for node in 0..self.node_count() {
            if self.is_link(link, node) {
                if found.is_some() {
                    return None;
                }
                found = Some(node);
            }
        }
        found
    }

    fn is_link(&self, link: Link, node: NodeId) -> bool
        ensures { IsTrue result ↔ IsLink self.now link node }
    {
        match (link, self.step(node)) {
            (Link::Child(child), Some(Step::Fork { children, join: _ })) => {
                children.as_slice().contains(&child)
            }
            (Link::Join(target), Some(Step::Fork { children: _, join })) => *join == target,
            (Link::Depth(target), Some(Step::Surf { depth })) => *depth == target,
            _ => false,
        }
    }
}
