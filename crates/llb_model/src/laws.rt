//! The law that no rule of the table refuses an event for want of memory.

ghost use Rattle.std.specs.Prelude.{◌≡◌, ℕ, false, IfErr};
ghost use Rattle.llb_events.specs.Faults.{claim_memory, step_memory};
ghost use Rattle.llb_model.specs.Program.{Build};
ghost use Rattle.llb_model.specs.State.{State};
ghost use Rattle.llb_model.specs.Table.{claim_grant, step_grant};

/// Proves that the table refuses no claim and no step for want of memory; only calls of code fail for that reason. Settles and cancels need no memory.
pub fn rules_want_no_memory()
    ensures claim { (b : Build) (s : State) (w v : ℕ) → IfErr (claim_grant b s w v) (λ e. claim_memory e ≡ false) }
    ensures step { (b : Build) (s : State) (w : ℕ) → IfErr (step_grant b s w) (λ e. step_memory e ≡ false) }
{}
