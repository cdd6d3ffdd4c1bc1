//! A law about copies that are not refused. Its function does nothing at run time.

ghost use Rattle.llb_fileop.specs.CopyLaws.{CopiesOne};

use llb_ops::CopyFile;
use llb_tree::{Path, Tree};

/// Proves that a copy of one source that is not refused puts each entry at or below the source at its new path: the target, and then the names that the
/// entry's path has after the source. A file keeps its content. Each entry gets the mode and the owner of the action, or keeps its own if the action gives
/// none; but if a directory is copied onto a directory of the base, that directory of the base keeps its mode and owner. Nothing else changes, except that
/// missing parents of the target may be made.
pub fn copies_one(
    action: &CopyFile,
    dest: &Path,
    inside: bool,
    base: &Tree,
    second: &Tree,
    source: &Path,
)
    ensures { CopiesOne action.now (dest.now, inside) base.now second.now source.now }
{
    let _ = action;
}
