//! Lets workers that find no number in the queue wait, and wakes them. Nothing in this module knows about the board or its lock.
//!
//! Before a worker waits it does four things, in this order: it reads the word `wakes`, sees that the run is not over, finds the queue empty, and
//! reports so at the lock, where it is told to wait unless all others wait (`Watch`). It then parks on `wakes`; parking returns at once if `wakes`
//! has changed since the worker read it. So the worker sleeps only if there was no wake since it read `wakes`, and no later wake misses the worker:
//! a wake first changes `wakes` and then reads `sleepers`, and the worker adds itself to `sleepers` before it parks.
//!
//! A worker that puts numbers into the queue wakes one sleeper for each number, or one sleeper less if it takes a number itself right afterwards. So while
//! a worker sleeps, as many workers are about to take a number as there are numbers in the queue, and no number stays there. A worker that sees the run end
//! wakes all sleepers. If a claim was refused because another vertex holds the key of a locked cache, the number of the refused vertex is not in the queue.
//! The worker that ends the holding vertex puts such a number back, with the numbers of the vertices that have become ready. So after every settled vertex
//! a worker is awake, and goes on or ends the run.

use std::sync::Wait;
use std::sync::atomic::{AtomicU64, Ordering};

/// The state by which idle workers wait and are woken: the number of wakes, the number of sleepers, and whether the run is over.
#[derive(Drop)]
pub(crate) struct Idle {
    // How many wakes there were; the low 32 bits of this number are compared when a worker parks.
    wakes: AtomicU64,
    // How many workers are about to park, are parked, or were woken just now.
    sleepers: AtomicU64,
    // 1 once the run is over, else 0.
    over: AtomicU64,
}

impl Idle {
    /// Makes the state at the start of a run: there were no wakes, there are no sleepers, and the run is not over.
    pub(crate) fn new() -> Idle {
        Idle {
            wakes: AtomicU64::new(0),
            sleepers: AtomicU64::new(0),
            over: AtomicU64::new(0),
        }
    }

    /// Returns the argument for `wait`: the low 32 bits of the number of wakes. A worker must call this before it looks into the queue.
    pub(crate) fn wakes(&self) -> u32 {
        (self.wakes.load(Ordering::SeqCst) & 0xffff_ffff) as u32
    }

    /// Returns whether the run is over.
    pub(crate) fn is_over(&self) -> bool {
        self.over.load(Ordering::SeqCst) != 0
    }

    /// Waits until there is a wake after `seen` was read. The call may also return without such a wake.
    pub(crate) fn wait<R: Wait>(&self, rt: &R, seen: u32) {
        self.sleepers.fetch_add(1, Ordering::SeqCst);
        self.wakes.park(rt, seen);
        self.sleepers.fetch_sub(1, Ordering::SeqCst);
    }

    /// Wakes at most `count` sleepers. The numbers for which they are woken must be in the queue already.
    pub(crate) fn wake(&self, count: usize) {
        if count == 0 {
            return;
        }
        self.wakes.fetch_add(1, Ordering::SeqCst);
        let sleepers = self.sleepers.load(Ordering::SeqCst);
        for _i in 0..sleepers.min(count as u64) {
            self.wakes.wake_one();
        }
    }

    /// Notes that the run is over, and wakes all sleepers.
    pub(crate) fn end(&self) {
        self.over.store(1, Ordering::SeqCst);
        self.wakes.fetch_add(1, Ordering::SeqCst);
        self.wakes.wake_all();
    }
}
