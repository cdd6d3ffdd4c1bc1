//! Writes the text of a tree to a sink, a line at a time.

ghost use Rattle.std.specs.Prelude.{◌≡◌};
ghost use Rattle.llb_tree.specs.PathEntries.{seen};
ghost use Rattle.llb_treetext.specs.TreeText.{line_of, tree_text};
ghost use Rattle.llb_treetext.specs.CallResults.{Prints};

use crate::fault::PrintFault;
use crate::line::set_line;
use llb_tree::{Entry, Path, Tree};
use llb_wire::{Sink, write_all};
use std::alloc::Global;

// Writes the line of an entry to a sink; `line` is a buffer that all calls use.
fn print_line<W: Sink>(
    alloc: Global,
    line: &mut String,
    path: &Path,
    entry: &Entry<'_>,
    out: &mut W,
) -> Result<(), PrintFault>
    ensures prints { Prints (W.taken out.old) (W.taken out.new) (W.failed out.new) (line_of (path.now, seen entry.now)) result }
    ensures same { W.lender out.new ≡ W.lender out.old }
{
    match set_line(alloc, line, path, entry) {
        Err(_) => Err(PrintFault::Memory),
        Ok(()) => match write_all(out, line.as_bytes()) {
            Err(_) => Err(PrintFault::Write),
            Ok(()) => Ok(()),
        },
    }
}

/// Writes the text of a tree to a sink: a line for each entry in path order, `d MODE UID GID PATH` for a directory and
/// `f MODE UID GID CONTENT PATH` for a file. MODE is four octal digits; CONTENT is lower-case hexadecimal, or `-` for an
/// empty file. Fails with 34 `Memory` if memory is refused, and with 35 `Write` only if the writer failed; after either
/// fault, a prefix of the text is written.
pub fn print_tree<W: Sink>(alloc: Global, tree: &Tree, out: &mut W) -> Result<(), PrintFault>
    ensures prints { Prints (W.taken out.old) (W.taken out.new) (W.failed out.new) (tree_text tree.now) result }
    ensures same { W.lender out.new ≡ W.lender out.old }
{
    let mut line = String::new(alloc);
    let mut walk = tree.walk();
    while let Some((path, entry)) = walk.at() {
        print_line(alloc, &mut line, path, &entry, out)?;
        if walk.advance().is_err() {
            return Err(PrintFault::Memory);
        }
    }
    Ok(())
}
