//! Why an action is refused, in terms of its texts and of the trees: what is wrong, and at which path.

ghost use Rattle.std.specs.Prelude.{◌≡◌, Some, IfOk};
ghost use Rattle.llb_fileop.specs.declared.refusal.Refusal.TheVariants.{At};

use llb_tree::Path;
use llb_wire::Memory;

/// A text of an action, by the name of its field.
#[derive(Clone, Copy, Debug, PartialEq, Eq)]
pub enum Field {
    /// The `path` of an `mkfile`, an `mkdir` or an `rm`.
    Path,
    /// The `src` of a copy.
    Source,
    /// The `dest` of a copy.
    Dest,
}

/// What is wrong at a path.
#[derive(Clone, Copy, Debug, PartialEq, Eq)]
pub enum Obstacle {
    /// Nothing is there that could be removed.
    Nothing,
    /// In the tree that is copied from, nothing is there that could be copied.
    NoSource,
    /// A directory is needed there as a parent, and nothing is there.
    NoDir,
    /// A directory is needed there as a parent, and a file is there.
    FileAbove,
    /// A file would be made there, and a directory is there.
    IsDir,
    /// A directory would be made or copied there, and a file is there.
    IsFile,
    /// A file would be copied there, and a directory is there.
    DirReplaced,
    /// In the tree that is copied from, it would be copied to a path of more than 128 names, or something below it would.
    TooLong,
}

/// Why an action is refused.
#[derive(Drop)]
pub enum Refusal {
    /// The text is no path.
    NotPath(Field),
    /// The text is no pattern.
    NotPattern(Field),
    /// No path matches the text, which is a pattern.
    NoMatch(Field),
    /// A file can't be made at the root, and the root can't be removed.
    Root,
    /// Something is wrong at this path.
    At(Obstacle, Path),
}

/// Returns what is wrong at a path, as a refusal.
pub fn at(obstacle: Obstacle, path: &Path) -> Result<Option<Refusal>, Memory>
    ensures { IfOk result (λ r. r ≡ Some (At obstacle path.now)) }
{
    Ok(Some(Refusal::At(obstacle, path.copy()?)))
}
