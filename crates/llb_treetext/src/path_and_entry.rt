//! Makes the path and the entry of a line. This needs memory, unlike the checks of a line.

ghost use Rattle.std.specs.Prelude.{◌≡◌, IfOk};
ghost use Rattle.std.specs.Option.{option_map};
ghost use Rattle.std.specs.Result.{result_ok};
ghost use Rattle.llb_tree.specs.Path.{path_of};
ghost use Rattle.llb_treetext.specs.LineFields.{dir_in, file_in, row_from, parts_seen, pair_of};

use crate::line_fields::Parts;
use llb_tree::{Meta, Path, TreeFault};
use llb_wire::{Bytes, Memory, read_hex};
use std::alloc::Global;

// The entry of a line with its path; a directory has no content.
#[derive(Drop)]
pub(crate) struct Row {
    pub path: Path,
    pub meta: Meta,
    pub content: Option<Bytes>,
}

// Reads a text as a path; `None` if the text is no path.
fn path_of(alloc: Global, text: &str) -> Result<Option<Path>, Memory>
    ensures { IfOk result (λ o. option_map (λ p. p) o ≡ result_ok (path_of text.now)) }
{
    match Path::read(alloc, text) {
        Ok(path) => Ok(Some(path)),
        Err(TreeFault::Memory) => Err(Memory),
        Err(_) => Ok(None),
    }
}

// Makes the entry of a directory; `None` if the text is no path.
fn dir_row(alloc: Global, meta: Meta, path: &str) -> Result<Option<Row>, Memory>
    ensures { IfOk result (λ o. option_map pair_of o ≡ dir_in meta path.now) }
{
    match path_of(alloc, path)? {
        None => Ok(None),
        Some(path) => Ok(Some(Row {
            path,
            meta,
            content: None,
        })),
    }
}

// Makes the entry of a file; `None` if the digits are neither `-` nor pairs of hexadecimal digits,
// or if the text is no path.
fn file_row(alloc: Global, meta: Meta, digits: &str, path: &str) -> Result<Option<Row>, Memory>
    ensures { IfOk result (λ o. option_map pair_of o ≡ file_in meta digits.now path.now) }
{
    let Some(content) = read_hex(alloc, digits)? else {
        return Ok(None);
    };
    match path_of(alloc, path)? {
        None => Ok(None),
        Some(path) => Ok(Some(Row {
            path,
            meta,
            content: Some(content),
        })),
    }
}

// Makes the entry of a line from its fields; `None` if the fields spell no entry.
pub(crate) fn row_from(alloc: Global, parts: &Parts<'_>) -> Result<Option<Row>, Memory>
    ensures { IfOk result (λ o. option_map pair_of o ≡ row_from (parts_seen parts.now)) }
{
    match parts.digits {
        None => dir_row(alloc, parts.meta, parts.path),
        Some(digits) => file_row(alloc, parts.meta, digits, parts.path),
    }
}
