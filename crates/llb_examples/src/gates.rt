//! Gates that let every worker pass.

use llb_board::{Gate, Stopped};
use std::sync::atomic::{AtomicU64, Ordering};
use std::thread;

pub(crate) struct Open;

impl Gate for Open {
    ghost use Rattle.std.specs.Prelude.{false};

    ghost may_stop = { λ _ _. false };

    fn pass(&self, _w: u32, _v: u32) -> Result<(), Stopped> {
        Ok(())
    }
}

/// Counts how often workers pass the gate at the vertices below `from`, and how often at the other vertices. A worker that passes at vertex 0 yields to other
/// threads for a while.
#[derive(Drop)]
pub(crate) struct Counting {
    from: u32,
    below: AtomicU64,
    others: AtomicU64,
}

impl Counting {
    pub(crate) fn new(from: u32) -> Counting {
        Counting {
            from,
            below: AtomicU64::new(0),
            others: AtomicU64::new(0),
        }
    }

    /// Returns how often the gate has let a worker pass for a vertex with a number below `from`, and how often for any other vertex.
    pub(crate) fn passed(&self) -> (u64, u64) {
        let below = self.below.load(Ordering::SeqCst);
        (below, self.others.load(Ordering::SeqCst))
    }
}

impl Gate for Counting {
    ghost use Rattle.std.specs.Prelude.{false};

    ghost may_stop = { λ _ _. false };

    fn pass(&self, _w: u32, v: u32) -> Result<(), Stopped> {
        if v < self.from {
            self.below.fetch_add(1, Ordering::SeqCst);
        } else {
            self.others.fetch_add(1, Ordering::SeqCst);
        }
        let turns = if v == 0 { 1_000u32 } else { 0 };
        for _turn in 0..turns {
            thread::yield_now();
        }
        Ok(())
    }
}
