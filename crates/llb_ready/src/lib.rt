//! A queue of numbers that threads share. A thread needs a pass to put and take numbers. For each pass, contracts know which numbers it has put and taken.
//! Each pass is a fraction of one whole. The crate is built on the array queue of `crossbeam_queue`; every step of that queue keeps the invariant in `rule.rt`.
//!
//! Types: `ReadyQueue`, `ReadyPass` (the right to put and take, whole or a fraction of the whole), `Full` and `ReadyFault`.
//! Promise: `ReadyQueue::close` (`conserved`): for each number, how often it was put is how often it was taken plus how often it is still in the queue.
//! With the whole pass, `ReadyQueue::put` (`full`, `whole`) returns `Full` only if the queue is full. The order of the numbers is not proved, only tested.
//!
//! A caller:
//!
//!     let (queue, mut pass) = ReadyQueue::new(alloc, 2).ok()?;
//!     queue.put(rt, &mut pass, 7).ok()?;
//!     let next = queue.take(rt, &mut pass);
//!     queue.close(pass);
//!     next // Some(7)
#![tactic(auto)]

mod fault;
mod pass_knowledge;
mod queue;
mod queue_invariant;

pub use fault::{Full, ReadyFault};
pub use pass_knowledge::Hand;
pub use queue::{ReadyPass, ReadyQueue};
