//! Finds the paths of a tree that pass given tests: such a path has one name for each test, and from the root down
//! each name passes its test. The search goes down only into directories whose own names pass.

ghost use Rattle.std.specs.Prelude.{◌≡◌, ◌∷◌, ◌++◌, ◌+◌, ◌≤◌, length, map, Ok, IfErr, OnOk};
ghost use Rattle.std.specs.List.{filter};
ghost use Rattle.std.specs.FinMap as finite;
ghost use Rattle.llb_tree.specs.Tree.{Gives, height};
ghost use Rattle.llb_tree.specs.Nodes.{below};
ghost use Rattle.llb_tree.specs.PathTests.{passes_all};
ghost use Rattle.llb_tree.specs.declared.fault.TreeFault.TheVariants.{Memory};

use crate::children::Children;
use crate::fault::TreeFault;
use crate::node::{Child, Kind, Node};
use crate::path::Path;
use crate::selected_removal::NameTest;
use crate::tree::Tree;

// Appends to `found` the paths at and below a node that have one name for each of `tests`, each passing its test; `path` is the path of the node itself.
#[cycle(find)]
fn find<T: NameTest>(
    node: &Node,
    tests: &[T],
    path: &mut Path,
    found: &mut Vec<Path>,
) -> Result<(), TreeFault>
    requires { length path.old + height node.now ≤ 129 }
    ensures path { OnOk result (path.new ≡ path.old) }
    ensures found { OnOk result (found.new.items
        ≡ found.old.items ++ map (λ q. path.old ++ q) (filter (passes_all T.passes tests.now) (finite.keys node.now))) }
    ensures err { IfErr result (λ e. e ≡ Memory) }
{
    let _entry = node.entry();
    let kind = &node.kind;
    let [test, rest @ ..] = tests else {
        found.push(path.copy()?)?;
        return Ok(());
    };
    let Kind::Dir(_, kids) = kind else {
        return Ok(());
    };
    let mut left = Children::of(kids.as_slice());
    while let Some((kid, others)) = left.split_first() {
        find_in(kid, test, rest, path, found)?;
        left = others;
    }
    Ok(())
}

// Appends to `found` those paths at and below a child that pass the tests; `path` is the path of the directory that the child is in.
#[cycle(find)]
fn find_in<T: NameTest>(
    kid: &Child,
    test: &T,
    rest: &[T],
    path: &mut Path,
    found: &mut Vec<Path>,
) -> Result<(), TreeFault>
    requires { length path.old + height kid.now.node ≤ 128 }
    ensures path { OnOk result (path.new ≡ path.old) }
    ensures found { OnOk result (found.new.items
        ≡ found.old.items ++ map (λ q. path.old ++ q) (filter (passes_all T.passes (test.now ∷ rest.now)) (map (λ e. e.0) (below kid.now)))) }
    ensures err { IfErr result (λ e. e ≡ Memory) }
{
    if !test.passes(&kid.name) {
        return Ok(());
    }
    let _entry = kid.node.entry();
    path.push(kid.name.copy()?)?;
    find(&kid.node, rest, path, found)?;
    path.pop();
    Ok(())
}

impl Tree {
    /// Returns, in path order, the paths that have as many names as there are tests, and in which each name passes the test at its index. Fails with 27
    /// `Memory` alone. Looks at no path with more names than there are tests.
    pub fn passing<T: NameTest>(&self, tests: &[T]) -> Result<Vec<Path>, TreeFault>
        ensures { Gives (λ v. v.items) result (Ok (filter (passes_all T.passes tests.now) (finite.keys self.now))) }
    {
        let mut path = Path::root(self.alloc);
        let mut found = Vec::new(self.alloc);
        find(&self.root, tests, &mut path, &mut found)?;
        Ok(found)
    }
}
