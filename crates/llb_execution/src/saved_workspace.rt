//! Copies of what a micro-step can change in a workspace, made before the micro-step and put back to undo the micro-step.

ghost use Rattle.std.specs.Prelude.{◌≡◌, IfOk};
ghost use Rattle.llb_execution.specs.SavedWorkspaces.{saved_in, saved_of, put_back, PutsBack};
ghost use Rattle.llb_execution.specs.ModelValues.{own_of};

use crate::workspace::{WorkState, Workspace};
use llb_mount::View as Mounts;
use llb_tree::Tree;
use llb_wire::Memory;
use std::marker::Model;

/// A copy of what a micro-step can change in a workspace: for a source nothing, for a file op how many results there are, for a merge what
/// is laid so far, for an exec its mounts and its last status.
#[derive(Drop)]
pub struct Saved {
    was: StateBefore,
}

// What a workspace had before a micro-step, by the kind of workspace.
#[derive(Drop)]
pub(crate) enum StateBefore {
    Nothing,
    Results(usize),
    Laid(Tree),
    Mounts(Mounts, u32),
}

impl Model for Saved {
    ghost use Rattle.std.specs.Coded.{codes};
    ghost use Rattle.llb_tree.specs.CodedTrees.{coded_tree};
    ghost use Rattle.llb_execution.specs.SavedWorkspaces.{Saved as SavedValue, saved_in};

    ghost Value = { SavedValue };

    ghost coded = { Prim.hlevel (codes, coded_tree) };

    ghost view = { λ m. saved_in m.was };
}

impl Workspace {
    /// Copies what a micro-step can change in the workspace; the inputs of a file op or of a merge are not copied. The copy shares its
    /// trees with the workspace. Fails with 5 `Memory` alone.
    pub fn save(&self) -> Result<Saved, Memory>
        ensures is { IfOk result (λ m. m ≡ saved_of self.now) }
        ensures back { IfOk result (λ m. PutsBack self.now m) }
    {
        let held = was_in(&self.own)?;
        Ok(Saved { was: held })
    }

    /// Puts back what was saved of the workspace; what was saved of another kind of workspace changes nothing. Does not allocate.
    pub fn put_back(&mut self, saved: Saved)
        ensures { self.new ≡ put_back saved self.old }
    {
        match saved.was {
            StateBefore::Nothing => {}
            StateBefore::Results(count) => self.keep_results(count),
            StateBefore::Laid(tree) => self.put_laid(tree),
            StateBefore::Mounts(mounts, last) => self.put_mounts(mounts, last),
        }
    }
}

// Copies what a micro-step can change in a workspace's data.
fn was_in(own: &WorkState) -> Result<StateBefore, Memory>
    ensures { IfOk result (λ w. saved_in w ≡ saved_of (own_of own.now)) }
{
    match own {
        WorkState::Local(_) => Ok(StateBefore::Nothing),
        WorkState::Files(_, results) => Ok(StateBefore::Results(results.len())),
        WorkState::Layers(_, laid) => Ok(StateBefore::Laid(laid.copy()?)),
        WorkState::Mounted(mounts, _, last) => Ok(StateBefore::Mounts(mounts.copy()?, *last)),
    }
}
