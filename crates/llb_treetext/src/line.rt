//! The line of an entry: the kind, the mode, the user and the group, the content of a file, and the path.
//! The caller gives the text to which a line is written, so that the memory of one text serves all lines.

ghost use Rattle.std.specs.Prelude.{◌≡◌, ◌++◌, ◌<◌, OnOk, string_bytes};
ghost use Rattle.std.specs.Fmt.{decimal};
ghost use Rattle.llb_tree.specs.PathEntries.{seen};
ghost use Rattle.llb_treetext.specs.TreeText.{mode_text, meta_text, names_text, path_text, row_text, line_of};

use llb_tree::{Entry, Meta, Name, Path};
use llb_wire::push_hex;
use std::alloc::{AllocError, Global};

// Appends a digit to a text.
fn push_digit(line: &mut String, digit: u32) -> Result<(), AllocError>
    requires { digit < 10 }
    ensures { OnOk result (string_bytes line.new ≡ string_bytes line.old ++ decimal digit) }
{
    line.push((b'0' + digit as u8) as char)
}

// Appends a number to a text, in decimal digits.
fn push_number(line: &mut String, number: u32) -> Result<(), AllocError>
    ensures { OnOk result (string_bytes line.new ≡ string_bytes line.old ++ decimal number) }
{
    if number < 10 {
        return push_digit(line, number);
    }
    push_number(line, number / 10)?;
    push_digit(line, number % 10)
}

// Appends a mode to a text, in four octal digits.
fn push_mode(line: &mut String, mode: u32) -> Result<(), AllocError>
    requires { mode < 4096 }
    ensures { OnOk result (string_bytes line.new ≡ string_bytes line.old ++ mode_text mode) }
{
    let (first, second) = (mode / 512, mode / 64 % 8);
    let (third, last) = (mode / 8 % 8, mode % 8);
    push_digit(line, first)?;
    push_digit(line, second)?;
    push_digit(line, third)?;
    push_digit(line, last)
}

// Appends the mode, the user and the group to a text, a space after each.
fn push_meta(line: &mut String, meta: Meta) -> Result<(), AllocError>
    ensures { OnOk result (string_bytes line.new ≡ string_bytes line.old ++ meta_text meta) }
{
    meta.is_meta();
    push_mode(line, meta.mode() as u32)?;
    line.push_str(" ")?;
    push_number(line, meta.uid())?;
    line.push_str(" ")?;
    push_number(line, meta.gid())?;
    line.push_str(" ")
}

// Appends names to a text, a slash before each.
fn push_names(line: &mut String, names: &[Name]) -> Result<(), AllocError>
    ensures { OnOk result (string_bytes line.new ≡ string_bytes line.old ++ names_text names.now) }
{
    for name in names {
        line.push_str("/")?;
        line.push_str(name.as_str())?;
    }
    Ok(())
}

/// Appends the text of a path to a text: a slash before each name, and a single slash for the root. Fails with `AllocError` alone; then a part of the path may
/// be written.
pub fn push_path(line: &mut String, path: &Path) -> Result<(), AllocError>
    ensures { OnOk result (string_bytes line.new ≡ string_bytes line.old ++ path_text path.now) }
{
    if path.is_root() {
        line.push_str("/")?;
        return Ok(());
    }
    push_names(line, path.names())
}

// Appends the line of an entry to a text, without the line feed.
fn push_row(
    alloc: Global,
    line: &mut String,
    path: &Path,
    entry: &Entry<'_>,
) -> Result<(), AllocError>
    ensures { OnOk result (string_bytes line.new ≡ string_bytes line.old ++ row_text (path.now, seen entry.now)) }
{
    match entry {
        Entry::Dir(meta) => {
            line.push_str("d ")?;
            push_meta(line, *meta)?;
        }
        Entry::File(meta, content) => {
            line.push_str("f ")?;
            push_meta(line, *meta)?;
            push_hex(alloc, line, content.as_slice())?;
            line.push_str(" ")?;
        }
    }
    push_path(line, path)
}

// Replaces a text with the line of an entry.
pub(crate) fn set_line(
    alloc: Global,
    line: &mut String,
    path: &Path,
    entry: &Entry<'_>,
) -> Result<(), AllocError>
    ensures { OnOk result (string_bytes line.new ≡ line_of (path.now, seen entry.now)) }
{
    line.clear();
    push_row(alloc, line, path, entry)?;
    line.push_str("\n")
}
