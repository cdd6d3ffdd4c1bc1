//! The queue and its passes. A new queue has one pass, the whole one. The caller splits off a fraction of this pass for each thread, and joins the fractions
//! again before it closes the queue.

ghost use Rattle.std.specs.Prelude.{◌≡◌, ◌≤◌, ◌+◌, ℕ, List, length, IfOk, IfErr, IfSome, IfNone, OnOk, MatchResult, MatchOption};
ghost use Rattle.crossbeam_queue.specs.Passes.{view};
ghost use Rattle.llb_ready.specs.PassKnowledge.{HasPart, SamePart, first_hand, with_put, with_taken, halved, other_half, together};
ghost use Rattle.llb_ready.specs.Conservation.{times, IsConserved, HasRoom, HasNoRoom, HasTakenAll, HasLeft};

use crate::fault::{Full, ReadyFault};
use crate::pass_knowledge::Hand;
use crate::queue_invariant::{Fair, Halves, Joins, Learns, Puts, Takes, Widens};
use crossbeam_queue::{Pass, RuledArrayQueue};
use std::alloc::Global;
use std::sync::Wait;

/// A queue of numbers that threads share by `&`, with room for 1 to 65,536 numbers.
#[derive(Drop)]
pub struct ReadyQueue {
    queue: RuledArrayQueue<u32, Hand, Fair>,
}

/// The right to put and take, held by one thread. A pass takes no memory; contracts see its fraction of the whole, and the numbers that were put and taken
/// with it.
#[derive(Drop)]
pub struct ReadyPass {
    pass: Pass<u32, Hand>,
    ghost part: { HasPart (view pass) },
}

impl ReadyQueue {
    ghost use Rattle.llb_ready.specs.QueuePasses.{hand_of, IsReadyPassOf, capacity_of, IsWhole};

    /// Makes a queue with room for `n` numbers, 1 to 65,536, and its whole pass (fraction 1/1), which has put and taken nothing.
    /// Fails with 145 `Memory` alone.
    pub fn new(alloc: Global, n: u32) -> Result<(ReadyQueue, ReadyPass), ReadyFault>
        requires { (1 ≤ n) × (n ≤ 65536) }
        ensures capacity { IfOk result (λ r. capacity_of r.0 ≡ n) }
        ensures pass { IfOk result (λ r. IsReadyPassOf r.0 r.1) }
        ensures hand { IfOk result (λ r. hand_of r.1 ≡ first_hand n) }
    {
        let (queue, whole) = RuledArrayQueue::ruled(alloc, n as usize)?;
        let mut pass = whole;
        // By `Fair`, the pass of a new queue has room 0. Each of the `n` rounds adds 1 to this room, in contracts alone: the queue has all its room already.
        for _i in 0..n {
            drop(queue.another::<Widens>(&mut pass));
        }
        Ok((ReadyQueue { queue }, ReadyPass { pass }))
    }

    /// Splits a pass into halves. The first half keeps the numbers that the pass put and took; the second has put and taken nothing.
    pub fn split(&self, pass: ReadyPass) -> (ReadyPass, ReadyPass)
        requires { IsReadyPassOf self.now pass }
        ensures passes { IsReadyPassOf self.now result.0 × IsReadyPassOf self.now result.1 }
        ensures hands { (hand_of result.0 ≡ halved (hand_of pass)) × (hand_of result.1 ≡ other_half (hand_of pass)) }
    {
        let ReadyPass { pass } = pass;
        let mut first = pass;
        let second = self.queue.another::<Halves>(&mut first);
        (ReadyPass { pass: first }, ReadyPass { pass: second })
    }

    /// Joins two passes: their fractions are added, and the numbers that the first pass put and took are followed by the numbers that the other one put and
    /// took.
    pub fn join(&self, pass: ReadyPass, other: ReadyPass) -> ReadyPass
        requires { IsReadyPassOf self.now pass × IsReadyPassOf self.now other }
        ensures pass { IsReadyPassOf self.now result }
        ensures hand { hand_of result ≡ together (hand_of pass) (hand_of other) }
    {
        let ReadyPass { pass } = pass;
        let ReadyPass { pass: other } = other;
        let mut first = pass;
        self.queue.absorb::<Joins>(&mut first, other);
        ReadyPass { pass: first }
    }

    /// Puts a number at the end. Fails with 146 `Full`, which holds the number, if the queue was full at one moment of the call; then nothing was put.
    pub fn put<R: Wait>(&self, rt: &R, pass: &mut ReadyPass, v: u32) -> Result<(), Full>
        requires { IsReadyPassOf self.now pass.old }
        ensures pass { IsReadyPassOf self.now pass.new }
        ensures part { SamePart (hand_of pass.old) (hand_of pass.new) }
        ensures ok { OnOk result (hand_of pass.new ≡ with_put (hand_of pass.old) v) }
        ensures full { IfErr result (λ e. (e.0 ≡ v) × (hand_of pass.new ≡ hand_of pass.old)) }

        // With the whole pass the call fails exactly if the queue is full: the count of puts is then the count of takes plus the room of the queue.
        ensures whole { let before = hand_of pass.old in IsWhole pass.old → MatchResult result (λ _. HasRoom before) (λ _. HasNoRoom before) }
    {
        let ReadyPass { pass } = pass;
        match self.queue.push_as::<Puts, R>(rt, pass, v) {
            Ok(()) => Ok(()),
            Err(x) => Err(Full(x)),
        }
    }

    /// Takes the number at the start. `None`: at one moment of the call the queue was empty.
    pub fn take<R: Wait>(&self, rt: &R, pass: &mut ReadyPass) -> Option<u32>
        requires { IsReadyPassOf self.now pass.old }
        ensures pass { IsReadyPassOf self.now pass.new }
        ensures part { SamePart (hand_of pass.old) (hand_of pass.new) }
        ensures some { IfSome result (λ v. hand_of pass.new ≡ with_taken (hand_of pass.old) v) }
        ensures none { IfNone result (hand_of pass.new ≡ hand_of pass.old) }

        // With the whole pass, `None` is returned exactly if all numbers that were put were taken; and a number that is returned was put more often than it was
        // taken before this call.
        ensures whole { let before = hand_of pass.old in IsWhole pass.old → MatchOption result (HasTakenAll before) (HasLeft before) }
    {
        let ReadyPass { pass } = pass;
        self.queue.pop_as::<Takes, R>(rt, pass)
    }

    /// Takes the whole pass, and drops the queue with the numbers that are still in it. For each number, how often it was put is how often it was taken plus
    /// how often it is still in the queue.
    pub fn close(self, pass: ReadyPass)
        requires pass { IsReadyPassOf self pass }
        requires whole { IsWhole pass }
        ensures conserved { (present : List ℕ) × IsConserved (hand_of pass) present × (length present ≤ capacity_of self) }
        ensures taken { (x : ℕ) → times x (hand_of pass).taken ≤ times x (hand_of pass).put }
        ensures within { let v = hand_of pass in (length v.taken ≤ length v.put) × (length v.put ≤ length v.taken + capacity_of self) }
    {
        let ReadyPass { pass } = pass;
        let mut whole = pass;
        self.queue.learn_as::<Learns>(&mut whole);
        drop(whole);
        drop(self);
    }
}
