//! Whether two threads are concurrent, and which thread forks them apart.

ghost use Rattle.std.specs.Prelude.{◌≡◌, ◌<◌, ◌↔◌, ℕ, IsTrue, IsSome, IfSome, MatchOption, length};
ghost use Rattle.sc_graph.specs.Links.{Tells};
ghost use Rattle.sc_graph.specs.Threads.{ForkedApart, AreConcurrent};
ghost use Rattle.sc_graph.specs.Inside.Parting.{PartAt, OneFork};
ghost use Rattle.sc_graph.specs.Valid.{IsFormed};

use crate::links::Links;
use crate::program::{Program, ThreadId};

/// Whether two threads of a formed program are concurrent: they are, or descend from, two different
/// children of one fork.
pub fn concurrent(program: &Program, first: ThreadId, second: ThreadId) -> bool
    requires { IsFormed program.now }
    ensures { IsTrue result ↔ AreConcurrent program.now first second }
{
    lca(program, first, second).is_some()
}

/// The thread whose fork forks two threads of a formed program apart. None: they are not
/// concurrent.
pub fn lca(program: &Program, first: ThreadId, second: ThreadId) -> Option<ThreadId>
    requires { IsFormed program.now }
    ensures concurrent { IsSome result ↔ AreConcurrent program.now first second }
    ensures apart { IfSome result (λ t. ForkedApart program.now first second t) }
{
    match parting(program, first, second) {
        Some((left, right)) => {
            if have_one_fork(program, left, right) {
                program.parent(left)
            } else {
                None
            }
        }
        None => None,
    }
}

impl Links {
    /// Whether two threads of the formed program whose links these are are concurrent. It costs one
    /// step for each thread above them, up to where they part.
    pub fn are_concurrent(&self, program: &Program, first: ThreadId, second: ThreadId) -> bool
        requires formed { IsFormed program.now }
        requires links { Tells program.now self.now }
        ensures { IsTrue result ↔ AreConcurrent program.now first second }
    {
        match parting(program, first, second) {
            Some((left, right)) => self.have_one_fork(program, left, right),
            None => false,
        }
    }

    fn have_one_fork(&self, program: &Program, left: ThreadId, right: ThreadId) -> bool
        requires formed { IsFormed program.now }
        requires links { Tells program.now self.now }
        requires left { left < length program.now.threads }
        requires right { right < length program.now.threads }
        ensures { IsTrue result ↔ OneFork program.now left right }
    {
        match (self.fork_of(left), self.fork_of(right)) {
            (Some(fork), Some(other)) => fork == other,
            _ => false,
        }
    }
}

fn have_one_fork(program: &Program, left: ThreadId, right: ThreadId) -> bool
    requires { IsFormed program.now }
    ensures { IsTrue result ↔ OneFork program.now left right }
{
    match (program.fork_of(left), program.fork_of(right)) {
        (Some(first), Some(second)) => first == second,
        _ => false,
    }
}

// The two different children of one thread from which two threads descend.
fn parting(program: &Program, first: ThreadId, second: ThreadId) -> Option<(ThreadId, ThreadId)>
    requires { IsFormed program.now }
    ensures { MatchOption result ((l r a : ℕ) → ¬ PartAt program.now first second l r a)
        (λ s. (a : ℕ) × PartAt program.now first second s.0 s.1 a) }
{
    let mut left = first;
    let mut right = second;
    while left != right {
        match (program.parent(left), program.parent(right)) {
            (Some(over_left), Some(over_right)) => {
                if over_left == over_right {
                    return Some((left, right));
                }
                if over_left > over_right {
                    left = over_left;
                } else {
                    right = over_right;
                }
            }
            _ => return None,
        }
    }
    None
}
