//! The gate: before a worker works on a vertex, the worker passes the gate once, and the gate may stop the worker there.

ghost use Rattle.std.specs.Prelude.{ℕ, Bool, IfErr, IsTrue};

use thiserror::Error;

/// 143: the gate let no work begin.
#[derive(Clone, Copy, Debug, Error)]
#[error("143")]
pub struct Stopped;

/// What a worker passes before it works on a vertex.
pub trait Gate {
    /// Whether the gate may stop this worker at this vertex.
    ghost may_stop: { ℕ → ℕ → Bool };

    /// Lets worker `w` work on vertex `v`, or fails with 143 `Stopped`. The call may wait in a loop, but it returns after a bounded number of rounds.
    fn pass(&self, w: u32, v: u32) -> Result<(), Stopped>
        ensures { IfErr result (λ _. IsTrue (may_stop w v)) };
}
