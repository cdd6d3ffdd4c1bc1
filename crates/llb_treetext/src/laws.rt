//! Laws that hold for all texts and all trees.

ghost use Rattle.llb_treetext.specs.TextGrammar.{HasOneAnswer, ReadsBack};

use llb_tree::Tree;

/// Proves that a text is the text of at most one tree and has at most one first fault, and that the text of a tree has no first fault.
pub fn one_answer(bytes: &[u8])
    ensures { HasOneAnswer bytes.now }
{
    let _ = bytes;
}

/// Proves that what `print_tree` writes for a tree is read as that tree.
pub fn reads_back(tree: &Tree)
    ensures { ReadsBack tree.now }
{
    tree.is_tree();
}
