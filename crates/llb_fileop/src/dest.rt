//! Resolves a destination text to a path.

ghost use Rattle.std.specs.Prelude.{◌≡◌};
ghost use Rattle.llb_fileop.specs.CallResults.{Gives, MemoryLast, on_tree};
ghost use Rattle.llb_fileop.specs.Copying.{resolved};

use crate::fault::ActFault;
use llb_tree::Path;
use std::alloc::Global;

/// Returns the path that a text is read as, from the root, and whether the text ends in `/`. Fails with 51 `File` and 26 `BadName` if the
/// text is no path; otherwise fails with 53 `Memory` alone.
pub fn resolve(alloc: Global, text: &str) -> Result<(Path, bool), ActFault>
    ensures gives { Gives (λ r. r) result (on_tree (resolved text.now)) }
    ensures last { MemoryLast result (on_tree (resolved text.now)) }
{
    let path = Path::read(alloc, text)?;
    let ends = text.as_bytes().ends_with(b"/".as_slice());
    Ok((path, ends))
}
