//! Reads the text of a tree in one pass: each line is checked without allocating, and then the line's entry is put into the
//! tree. Once memory is refused, the lines that follow are only checked.

ghost use Rattle.llb_treetext.specs.TextGrammar.{Answers, MemoryIsLast};

use crate::fault::TextFault;
use crate::growing_tree::{started, whole_if_any, with_line};
use crate::line_check::{first_line, next_line};
use llb_tree::Tree;
use std::alloc::Global;

/// Reads a tree from its text, which has to be spelled as `print_tree` writes it; else fails with the first fault of the first faulty line: 31 `BadLine`, 32
/// `Order` or 33 `NoParent`. An empty text, and a last line without a line feed, have fault 31. Fails with 34 `Memory` only if the text is the text of a tree:
/// once memory is refused, the lines that follow are still checked, without allocating.
pub fn read_tree(alloc: Global, bytes: &[u8]) -> Result<Tree, TextFault>
    ensures answers { Answers bytes.now result }
    ensures last { MemoryIsLast bytes.now result }
{
    let first = match first_line(bytes) {
        Err(fault) => return Err(fault),
        Ok(line) => line,
    };
    let mut tree = started(alloc, first.parts.meta);
    let mut last = first.place;
    let mut rest = first.later;
    let mut number: u64 = 1;
    while !rest.is_empty() {
        number += 1;
        match next_line(&last, rest, number) {
            Err(fault) => return Err(fault),
            Ok(line) => {
                tree = with_line(alloc, tree, &line.parts);
                last = line.place;
                rest = line.later;
            }
        }
    }
    match whole_if_any(tree) {
        None => Err(TextFault::Memory),
        Some(tree) => Ok(tree),
    }
}
