//! Makes a file or a directory in a copy of a tree.

ghost use Rattle.std.specs.FinMap as finite;
ghost use Rattle.llb_tree.specs.Tree.{Gives, parents};
ghost use Rattle.llb_fileop.specs.Making.{mkfile, mkdir, make_all, make_dir, kept_or_made};

use crate::owner::made;
use llb_ops::{MkDir, MkFile};
use llb_tree::{Entry, Meta, Path, Tree, TreeFault};
use std::alloc::Global;

/// Returns the tree with a new file, which replaces a file that is there. Fails as `Tree::put_file` does, or with 26
/// `BadName` if the text is no path.
pub fn mkfile(alloc: Global, make: &MkFile, base: &Tree) -> Result<Tree, TreeFault>
    ensures { Gives (λ t. t) result (mkfile make.now base.now) }
{
    let path = Path::read(alloc, make.path.as_str())?;
    let meta = made(make.mode, &make.owner);
    let body = make.body.copy().map_err(|_| TreeFault::Memory)?;
    let mut tree = base.copy()?;
    tree.put_file(&path, meta, body)?;
    Ok(tree)
}

/// Returns the tree with a directory at the action's path; a directory that is there stays as it is. Fails as `Tree::put_dir` does, or with 26 `BadName` if the
/// text is no path.
pub fn mkdir(alloc: Global, make: &MkDir, base: &Tree) -> Result<Tree, TreeFault>
    ensures { Gives (λ t. t) result (mkdir make.now base.now) }
{
    let path = Path::read(alloc, make.path.as_str())?;
    let meta = made(make.mode, &make.owner);
    let mut tree = base.copy()?;
    make_dir(alloc, &mut tree, &path, meta, make.make_parents)?;
    Ok(tree)
}

// Makes a directory, and its missing parents if `parents` is true. A directory that is there stays as it is.
fn make_dir(
    alloc: Global,
    tree: &mut Tree,
    path: &Path,
    meta: Meta,
    parents: bool,
) -> Result<(), TreeFault>
    ensures { Gives (λ _. tree.new) result (make_dir parents meta path.now (finite.get tree.old path.now) tree.old) }
{
    if let Some(Entry::Dir(_)) = tree.get(path) {
        return Ok(());
    }
    if parents {
        make_parents(alloc, tree, path, meta)?;
    }
    tree.put_dir(path, meta)
}

/// Makes the missing parents of a path. Fails with 22 `NotDir` at the first parent that is a file, or with 27 `Memory`;
/// after a failure, some parents may have been made.
pub fn make_parents(
    alloc: Global,
    tree: &mut Tree,
    path: &Path,
    meta: Meta,
) -> Result<(), TreeFault>
    ensures { Gives (λ _. tree.new) result (make_all meta (parents path.now) tree.old) }
{
    let mut parent = Path::root(alloc);
    for name in path.names() {
        keep_or_make(tree, &parent, meta)?;
        parent.push(name.copy()?)?;
    }
    Ok(())
}

// Makes a directory at a path if nothing is there. A directory that is there stays as it is; a file there is the fault 22 `NotDir`.
fn keep_or_make(tree: &mut Tree, path: &Path, meta: Meta) -> Result<(), TreeFault>
    ensures gives { Gives (λ _. tree.new) result (kept_or_made meta path.now (finite.get tree.old path.now) tree.old) }
{
    match tree.get(path) {
        None => {}
        Some(Entry::Dir(_)) => return Ok(()),
        Some(Entry::File(_, _)) => return Err(TreeFault::NotDir),
    }
    tree.put_dir(path, meta)
}
