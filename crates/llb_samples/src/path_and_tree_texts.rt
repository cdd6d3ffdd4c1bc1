//! Paths and trees as texts.

use llb_tree::{Path, Tree};
use llb_treetext::print_tree;
use llb_wire::Over;
use std::alloc::{AllocError, Global};

/// Appends a path to a text: each of the path's names, with `/` before it.
pub fn push_path(text: &mut String, path: &Path) -> Result<(), AllocError> {
    for name in path.names() {
        text.push_str("/")?;
        text.push_str(name.as_str())?;
    }
    Ok(())
}

/// Returns the text of a tree, as the program prints it.
pub fn text_of_tree(alloc: Global, tree: &Tree) -> Option<String> {
    let mut text = Vec::new(alloc);
    print_tree(alloc, tree, &mut Over::new(&mut text)).ok()?;
    String::from_utf8(text).ok()
}
