//! The queue of claims.

ghost use Rattle.std.specs.Prelude.{◌≡◌, ◌≤◌, ◌<◌, ◌++◌, ◌∷◌, [], All, IfOk, MatchOption, MatchResult, length};
ghost use Rattle.crossbeam_queue.specs.Fifo.{Held};
ghost use Rattle.crossbeam_queue.specs.Passes.{IsSamePass};
ghost use Rattle.ready_queue.specs.Order.{hand, Stands, PutBehind, TakenFirst};
ghost use Rattle.ready_queue.specs.Rule.{hand_of, IsPassOf, places_of};

use crossbeam_queue::RuledArrayQueue;
use crossbeam_queue::protocol::{Lesson, Outcome, Protocol, Split};
use std::alloc::{AllocError, Global};
use std::collections::LinkedList;
use std::sync::Wait;
use tick_core::Claim;
use verifier::Verified;

/// How many passes a queue has: for the caller, and for eight workers.
const PASSES: usize = 9;

/// What a pass has put and taken. It stands in the proofs alone: no value of it is made.
pub struct Hand<'a> {
    pub put: LinkedList<Claim<'a>>,
    pub taken: LinkedList<Claim<'a>>,
}

/// The rule of the queue, which each step keeps.
pub struct InOrder;

impl<'a> Protocol<Claim<'a>, Hand<'a>> for InOrder {
    ghost use Rattle.std.specs.Prelude.{[]};
    ghost use Rattle.ready_queue.specs.Order.{hand, Keeps};

    ghost holds = { Keeps };

    ghost first = { hand [] [] };
}

struct Puts;

impl<'a> Outcome<Claim<'a>, Hand<'a>> for Puts {
    ghost use Rattle.ready_queue.specs.Order.{PutBehind};

    ghost then = { PutBehind };
}

impl<'a> Lesson<Claim<'a>, Hand<'a>> for Puts {
    ghost use Rattle.ready_queue.specs.Order.{Stands};

    ghost fact = { Stands };
}

struct Takes;

impl<'a> Outcome<Claim<'a>, Hand<'a>> for Takes {
    ghost use Rattle.ready_queue.specs.Order.{TakenFirst};

    ghost then = { TakenFirst };
}

impl<'a> Lesson<Claim<'a>, Hand<'a>> for Takes {
    ghost use Rattle.ready_queue.specs.Order.{Stands};

    ghost fact = { Stands };
}

// A new pass has put and taken nothing.
struct Cut;

impl<'a> Split<Hand<'a>> for Cut {
    ghost use Rattle.std.specs.Prelude.{[]};
    ghost use Rattle.ready_queue.specs.Order.{hand};

    ghost left = { λ v. v };

    ghost right = { λ v. hand [] [] };
}

type Line<'a> = RuledArrayQueue<Claim<'a>, Hand<'a>, InOrder>;

/// What a thread needs to use a queue. It has no bytes.
pub type Pass<'a> = crossbeam_queue::Pass<Claim<'a>, Hand<'a>>;

/// A queue of claims, first in, first out, for any threads that have a pass.
#[derive(Drop)]
pub struct ReadyQueue<'a> {
    line: Line<'a>,
}

impl<'a> ReadyQueue<'a> {
    /// An empty queue with as many places as the image has threads, and its nine passes, that have put and taken
    /// nothing. Err: memory was refused.
    pub fn open(
        alloc: Global,
        verified: &'a Verified,
    ) -> Result<(ReadyQueue<'a>, Vec<Pass<'a>>), AllocError>
        ensures places { IfOk result (λ r. places_of r.0 ≡ length verified.entry.now.program.threads) }
        ensures passes { IfOk result (λ r. (length r.1.items ≡ 9)
            × All (λ p. IsPassOf r.0 p × (hand_of p ≡ hand [] [])) r.1.items) }
    {
        let places = verified.image().program().threads().len();
        let (line, first): (Line<'a>, Pass<'a>) = Line::<'a>::ruled(alloc, places)?;
        let queue = ReadyQueue { line };
        let passes = queue.passes(alloc, first)?;
        Ok((queue, passes))
    }

    // The first pass and the other ones.
    fn passes(&self, alloc: Global, first: Pass<'a>) -> Result<Vec<Pass<'a>>, AllocError>
        requires { IsPassOf self.now first × (hand_of first ≡ hand [] []) }
        ensures { IfOk result (λ all. (length all.items ≡ 9)
            × All (λ p. IsPassOf self.now p × (hand_of p ≡ hand [] [])) all.items) }
    {
        let mut first = first;
        let mut all = Vec::new(alloc);
        for _ in 1..PASSES {
            all.push(self.line.another::<Cut>(&mut first))?;
        }
        all.push(first)?;
        Ok(all)
    }

    /// Puts a claim behind all others, in one step. The claim comes back only if the queue was full at one moment of
    /// the call.
    pub fn put<R: Wait>(
        &self,
        rt: &R,
        pass: &mut Pass<'a>,
        claim: Claim<'a>,
    ) -> Result<(), Claim<'a>>
        requires { IsPassOf self.now pass.old }
        ensures pass { IsSamePass pass.old pass.new }
        ensures put { MatchResult result
            (λ _. PutBehind (hand_of pass.old) claim.entry (hand_of pass.new))
            (λ back. (back ≡ claim.entry) × (hand_of pass.new ≡ hand_of pass.old)
            × Held (places_of self.now) (Stands (hand_of pass.old))) }
    {
        self.line.push_as::<Puts, R>(rt, pass, claim)
    }

    /// Takes the claim before all others, in one step. None only if the queue was empty at one moment of the call.
    pub fn take<R: Wait>(&self, rt: &R, pass: &mut Pass<'a>) -> Option<Claim<'a>>
        requires { IsPassOf self.now pass.old }
        ensures pass { IsSamePass pass.old pass.new }
        ensures taken { MatchOption result
            ((hand_of pass.new ≡ hand_of pass.old) × Held 0 (Stands (hand_of pass.old)))
            (λ claim. TakenFirst (hand_of pass.old) claim (hand_of pass.new)) }
    {
        self.line.pop_as::<Takes, R>(rt, pass)
    }
}
