//! Does the remaining micro-steps of a vertex on a workspace, up to and with the first that has a fault. `Workspace::step` does each micro-step.

ghost use Rattle.std.specs.Prelude.{◌≡◌, ◌+◌, ◌<◌, ◌^◌, length, IfOk, None};
ghost use Rattle.std.specs.List.{All};
ghost use Rattle.llb_model.specs.Caches.{Distinct};
ghost use Rattle.llb_model.specs.Landing.{AreLeft, further};
ghost use Rattle.llb_execution.specs.ModelValues.{left_with, mounts_in, shown_in};

use crate::steps::Steps;
use crate::workspace::Workspace;
use llb_events::VertexFault;
use llb_tree::Tree;
use llb_wire::Memory;
use std::alloc::Global;

/// How many micro-steps were done, and the fault of the last one, if this micro-step has a fault.
#[derive(Clone, Copy)]
pub struct Further {
    pub count: u32,
    pub fault: Option<VertexFault>,
}

/// Does the micro-steps from number `done` up, until one has a fault or the last one is done. `trees` has the trees of the cache instances, in the order of the
/// mounts that show these instances. Fails with 5 `Memory` alone; some of the micro-steps may have been done before.
pub fn do_further(
    alloc: Global,
    steps: &Steps,
    done: u32,
    workspace: &mut Workspace,
    trees: &mut Vec<Tree>,
) -> Result<Further, Memory>
    requires few { length steps.now < 2 ^ 32 }
    requires apart { Distinct (shown_in workspace.old) }
    requires within { All (λ n. n < mounts_in workspace.old) (shown_in workspace.old) }
    requires count { length trees.old.items ≡ length (shown_in workspace.old) }
    ensures all { IfOk result (λ f. AreLeft steps.now done (left_with workspace.old trees.old.items None) f.count) }
    ensures left { IfOk result (λ f. left_with workspace.new trees.new.items f.fault
        ≡ further steps.now done (left_with workspace.old trees.old.items None) f.count) }
    ensures few { IfOk result (λ f. done + f.count < 2 ^ 32) }
    ensures mounts { IfOk result (λ _. mounts_in workspace.new ≡ mounts_in workspace.old) }
    ensures shown { IfOk result (λ _. shown_in workspace.new ≡ shown_in workspace.old) }
{
    for k in done..u32::MAX {
        let Some(step) = steps.get(k) else {
            let count = k - done;
            return Ok(Further { count, fault: None });
        };
        let fault = workspace.step(alloc, k, step, trees)?;
        if fault.is_some() {
            let count = k + 1 - done;
            return Ok(Further { count, fault });
        }
    }
    let count = u32::MAX - done;
    Ok(Further { count, fault: None })
}
