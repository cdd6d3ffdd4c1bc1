//! The trees of local sources, read from the texts of their files. Files are opened through the trait `Sources`. Contracts speak of the bytes that an
//! implementation of the trait returns; no contract says that these bytes are the bytes of the machine's files.

ghost use Rattle.std.specs.Prelude.{◌≡◌, ℕ, List, [], Option, Some, IfOk, IfSome};
ghost use Rattle.llb_commands.specs.Faults.{source_text};
ghost use Rattle.llb_commands.specs.Sources.{Adds, Gathers, Reads, TellsSource, source_status, told};

use crate::bounded_reading::{LIMIT, READS, ReadFault, read_bounded};
use crate::command_line_words::Local;
use llb_loader::Locals;
use llb_tree::Tree;
use llb_treetext::{TextFault, read_tree};
use llb_wire::Text;
use std::alloc::Global;
use std::io::{Read, Write};
use std::{error, fmt, io};

/// Why a local source has no tree.
#[derive(Clone, Copy, Debug)]
pub enum SourceFault {
    /// 181: a local source's file was not opened, a read of it failed, or 2^27 reads did not meet its end.
    Read,
    /// 185: the file of a local source has more than 67,108,864 bytes.
    TooLong,
    /// 31 to 34: the file of a local source can't be read as a tree.
    Text(TextFault),
    /// 184: memory was refused while the file of a local source was read.
    Reading,
    /// 92: memory was refused while the tree of a local source was added.
    Adding,
}

impl fmt::Display for SourceFault {
    ghost output = { λ e. Some (source_text e) };

    fn fmt<W: fmt::Write>(&self, f: &mut fmt::Formatter<W>) -> fmt::Result {
        match self {
            SourceFault::Read => write!(f, "181"),
            SourceFault::TooLong => write!(f, "185"),
            SourceFault::Text(fault) => write!(f, "{fault}"),
            SourceFault::Reading => write!(f, "184"),
            SourceFault::Adding => write!(f, "92"),
        }
    }
}

impl error::Error for SourceFault {}

/// Files that are opened by name.
pub trait Sources {
    type Input: Read + Drop;

    /// The bytes of a file, if they are known.
    ghost bytes: { Self → List ℕ → Option (List ℕ) };

    /// Opens a file at its start.
    fn open(&self, file: &str) -> io::Result<Self::Input>
        ensures { IfOk result (λ input. IfSome (bytes self.now file.now) (λ xs. Self.Input.remaining input ≡ Some xs)) };
}

// Reads a text to its end as a tree.
fn local_from<R: Read>(alloc: Global, input: &mut R) -> Result<Tree, SourceFault>
    ensures { Reads (R.remaining input.old) result }
{
    match read_bounded(alloc, input, LIMIT, READS) {
        Ok(bytes) => told(read_tree(alloc, bytes.as_slice())),
        Err(ReadFault::TooLong) => Err(SourceFault::TooLong),
        Err(ReadFault::Memory) => Err(SourceFault::Reading),
        Err(_) => Err(SourceFault::Read),
    }
}

// Turns the result of reading the text of a tree into the result for a local source.
fn told(read: Result<Tree, TextFault>) -> Result<Tree, SourceFault>
    ensures { result ≡ told read }
{
    match read {
        Ok(tree) => Ok(tree),
        Err(fault) => Err(SourceFault::Text(fault)),
    }
}

/// Reads a text to its end as a tree, and adds the tree as the local tree of this name; a tree that the name had before is replaced. Fails with 181 if a read
/// fails, or the end is not met in 2^27 reads; with 185 past 67,108,864 bytes; with 31 to 33 if the text can't be read as a tree; and with 34, 92 or 184 if
/// memory is refused (92 only if the text can be read as a tree). After a fault no tree is added.
pub fn add_local<R: Read>(
    alloc: Global,
    name: &str,
    input: &mut R,
    locals: &mut Locals,
) -> Result<(), SourceFault>
    ensures { Adds name.now (R.remaining input.old) locals.old locals.new result }
{
    let tree = match local_from(alloc, input) {
        Ok(tree) => tree,
        Err(fault) => return Err(fault),
    };
    let Ok(name) = Text::from_str(alloc, name) else {
        return Err(SourceFault::Adding);
    };
    match locals.add(name, tree) {
        Ok(()) => Ok(()),
        Err(_) => Err(SourceFault::Adding),
    }
}

/// Reads a file as a tree. Fails with 31 to 34, 181, 184 or 185.
pub(crate) fn tree_in<F: Sources>(alloc: Global, files: &F, file: &str) -> Result<Tree, SourceFault>
    ensures { Reads (F.bytes files.now file.now) result }
{
    match files.open(file) {
        Ok(mut input) => local_from(alloc, &mut input),
        Err(_) => Err(SourceFault::Read),
    }
}

// Reads the file of a local source as a tree, and adds the tree to the local trees under the source's name.
fn add_file<F: Sources>(
    alloc: Global,
    files: &F,
    local: &Local<'_>,
    locals: &mut Locals,
) -> Result<(), SourceFault>
    ensures { Adds local.now.name.now (F.bytes files.now local.now.file.now) locals.old locals.new result }
{
    let Ok(mut input) = files.open(local.file) else {
        return Err(SourceFault::Read);
    };
    add_local(alloc, local.name, &mut input, locals)
}

/// Reads the trees of local sources, in their order; if two sources have the same name, the tree of the later one is kept. Stops at the first source that has
/// no tree, and fails with the fault of that source: 31 to 34, 92, 181, 184 or 185.
pub(crate) fn locals_of<F: Sources>(
    alloc: Global,
    files: &F,
    locals: &[Local<'_>],
) -> Result<Locals, SourceFault>
    ensures { Gathers (F.bytes files.now) locals.now [] result }
{
    let mut trees = Locals::new(alloc);
    for local in locals {
        add_file(alloc, files, local, &mut trees)?;
    }
    Ok(trees)
}

impl SourceFault {
    // Returns the status with which the program ends, once the fault's line is written: 2 if the text is refused, else 3.
    fn status(&self) -> u8
        ensures { result ≡ source_status self.now }
    {
        match self {
            SourceFault::TooLong => 2,
            SourceFault::Text(TextFault::Memory) => 3,
            SourceFault::Text(_) => 2,
            _ => 3,
        }
    }
}

/// Writes the line of the fault of a local source, and returns the exit status for this fault; 3 if the line can't be written.
pub fn source_refusal<E: Write>(fault: &SourceFault, err: &mut E) -> u8
    ensures { TellsSource (E.contents err.old) (E.contents err.new) fault.now result }
{
    if writeln!(err, "fault {fault}").is_err() {
        return 3;
    }
    fault.status()
}
