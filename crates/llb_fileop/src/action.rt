//! What an action does to a tree. The action works on a copy, so a fault leaves the given tree unchanged.

ghost use Rattle.std.specs.Prelude.{option_map, unwrap_or};
ghost use Rattle.llb_tree.specs.Tree.{empty_tree};
ghost use Rattle.llb_fileop.specs.CallResults.{Gives};
ghost use Rattle.llb_fileop.specs.FileActions.{act};

use crate::copying::copy;
use crate::fault::ActFault;
use crate::making::{mkdir, mkfile};
use crate::removing::rm;
use llb_ops::{Action, ActionKind};
use llb_tree::Tree;
use std::alloc::Global;

/// Returns the tree after an action on the tree `base`, by the rules of file actions. A copy reads the second tree, or the empty tree if
/// there is none; other actions ignore the second tree. Fails with 51 `File` and the first fault of the tree (21 to 26), with 52
/// `BadPattern` if a text is not a pattern, or with 53 `Memory` if memory is refused. The base is not changed.
pub fn act(
    alloc: Global,
    action: &Action,
    base: &Tree,
    second: Option<&Tree>,
) -> Result<Tree, ActFault>
    ensures { Gives (λ t. t) result (act action.now.kind base.now (unwrap_or (option_map (λ t. t.now) second.entry) empty_tree)) }
{
    match &action.kind {
        Some(ActionKind::MkFile(make)) => Ok(mkfile(alloc, make, base)?),
        Some(ActionKind::MkDir(make)) => Ok(mkdir(alloc, make, base)?),
        Some(ActionKind::Copy(copied)) => match second {
            Some(second) => copy(alloc, copied, base, second),
            None => copy(alloc, copied, base, &Tree::empty(alloc)?),
        },
        Some(ActionKind::Rm(remove)) => rm(alloc, remove, base),
        None => Ok(base.copy()?),
    }
}
