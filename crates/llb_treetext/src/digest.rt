//! The digest of a tree: SHA-256 of the tree's text, which is hashed a line at a time.

ghost use Rattle.std.specs.Prelude.{◌≡◌, IfOk, Ok};
ghost use Rattle.sha2.specs.Sha256.{sha256};
ghost use Rattle.llb_wire.specs.Digest.{digest_text};
ghost use Rattle.llb_treetext.specs.TreeText.{tree_text};
ghost use Rattle.llb_treetext.specs.CallResults.{Gives};

use crate::fault::TextFault;
use crate::line::set_line;
use llb_tree::Tree;
use llb_wire::{Memory, Text, text_of_digest};
use sha2::{Digest, Sha256};
use std::alloc::Global;

// Returns SHA-256 of the text of a tree.
fn hash(alloc: Global, tree: &Tree) -> Result<[u8; 32], Memory>
    ensures { IfOk result (λ d. d ≡ sha256 (tree_text tree.now)) }
{
    let mut hasher = Sha256::new();
    let mut line = String::new(alloc);
    let mut walk = tree.walk();
    while let Some((path, entry)) = walk.at() {
        set_line(alloc, &mut line, path, &entry)?;
        hasher.update(line.as_bytes());
        if walk.advance().is_err() {
            return Err(Memory);
        }
    }
    Ok(hasher.finalize())
}

/// Returns `sha256:` and the 64 lower-case hexadecimal digits of SHA-256 of the tree's text. Fails with 34 `Memory` alone.
pub fn tree_digest(alloc: Global, tree: &Tree) -> Result<Text, TextFault>
    ensures { Gives (λ t. t) result (Ok (digest_text (tree_text tree.now))) }
{
    let text = text_of_digest(alloc, &hash(alloc, tree)?)?;
    Ok(text)
}
