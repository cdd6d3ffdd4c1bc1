//! Splits a line into its fields without allocating. A field is accepted only if it is spelled as `print_tree` writes it, so a line whose fields are all
//! accepted is the line of an entry.

ghost use Rattle.std.specs.Prelude.{◌≡◌, ◌↔◌, nat_eq, IsTrue, position};
ghost use Rattle.std.specs.Fmt.{decimal};
ghost use Rattle.std.specs.Option.{option_map};
ghost use Rattle.llb_treetext.specs.LineFields.{cut_at, mode_in, number_from, decimal_in, meta_in, are_names, is_path};
ghost use Rattle.llb_treetext.specs.LineFields.{parts_seen, dir_parts, file_parts, parts_in, trail};
ghost use Rattle.llb_treetext.specs.LineScanning.{Spells, BeginsWith};

use llb_tree::{Meta, Mode, Name};
use llb_wire::is_hex;

// The fields of a line: the mode with the user and the group, the digits of a file's content (none for a directory), and the text of the path.
#[derive(Clone, Copy)]
pub(crate) struct Parts<'a> {
    pub meta: Meta,
    pub digits: Option<&'a str>,
    pub path: &'a str,
}

impl<'a> Parts<'a> {
    // Returns the names of the path, a slash before each; an empty text for the root.
    pub(crate) fn trail(&self) -> &'a [u8]
        ensures { result.now ≡ trail self.now.path.now }
    {
        let path = self.path.as_bytes();
        if path.len() == 1 {
            return b"".as_slice();
        }
        path
    }
}

// Splits a text at its first space; `None` if it has no space.
fn cut(text: &str) -> Option<(&str, &str)>
    ensures { option_map (λ x. (x.0.now, x.1.now)) result ≡ cut_at 32 text.now }
{
    text.split_once(' ')
}

// Reads a mode of four octal digits; `None` for any other text.
fn mode_of(text: &str) -> Option<Mode>
    ensures { result ≡ mode_in text.now }
{
    if text.len() != 4 {
        return None;
    }
    Mode::read(text)
}

// Reads decimal digits as a number; `None` above 2^32 - 1. Other bytes are read as if they were digits, so `decimal_of` checks that the text is the spelling
// of the number.
fn number(text: &str) -> Option<u32>
    ensures { result ≡ number_from 0 text.now }
{
    let mut number: u32 = 0;
    for byte in text.as_bytes() {
        let value = number as u64 * 10 + byte.saturating_sub(b'0') as u64;
        if value > u32::MAX as u64 {
            return None;
        }
        number = value as u32;
    }
    Some(number)
}

// Returns whether a text is exactly the decimal spelling of a number.
fn is_decimal(text: &[u8], number: u32) -> bool
    ensures { IsTrue result ↔ (text.now ≡ decimal number) }
{
    match text.split_last() {
        None => false,
        Some((last, front)) => {
            if *last as u32 != b'0' as u32 + number % 10 {
                return false;
            }
            if number < 10 {
                return front.is_empty();
            }
            is_decimal(front, number / 10)
        }
    }
}

// Reads a decimal number without leading zeros; `None` for any other text.
fn decimal_of(text: &str) -> Option<u32>
    ensures { result ≡ decimal_in text.now }
{
    let number = number(text)?;
    if is_decimal(text.as_bytes(), number) {
        Some(number)
    } else {
        None
    }
}

// Reads the mode, the user and the group at the start of a text, and returns them with the rest of the text; `None` if these three are not at the start.
fn front(text: &str) -> Option<(Meta, &str)>
    ensures { option_map (λ x. (x.0, x.1.now)) result ≡ meta_in text.now }
{
    let (mode, rest) = cut(text)?;
    let (uid, rest) = cut(rest)?;
    let (gid, rest) = cut(rest)?;
    let mode = mode_of(mode)?;
    let meta = Meta::new(mode.bits(), decimal_of(uid)?, decimal_of(gid)?)?;
    Some((meta, rest))
}

// Returns whether a text is at most 128 names with slashes between them.
fn are_names(text: &str) -> bool
    ensures { result ≡ are_names text.now }
{
    let mut count: usize = 0;
    for part in text.split('/') {
        if count >= 128 {
            return false;
        }
        if !Name::is_name(part) {
            return false;
        }
        count += 1;
    }
    true
}

// Returns whether a text is a path as `print_tree` writes it.
fn is_path(text: &str) -> bool
    ensures { result ≡ is_path text.now }
{
    match text.strip_prefix('/') {
        None => false,
        Some(names) => names.is_empty() || are_names(names),
    }
}

// Reads the fields of a line that is UTF-8; `None` if the line is not the line of an entry.
fn parts_in(text: &str) -> Option<Parts<'_>>
    ensures { option_map parts_seen result ≡ parts_in text.now }
{
    let (kind, rest) = cut(text)?;
    let Some((meta, rest)) = front(rest) else {
        return None;
    };
    if kind == "d" {
        return dir_parts(meta, rest);
    }
    if kind != "f" {
        return None;
    }
    let (digits, path) = cut(rest)?;
    file_parts(meta, digits, path)
}

// Returns the fields of a directory's line; `None` if the path is not spelled as `print_tree` writes it.
fn dir_parts(meta: Meta, path: &str) -> Option<Parts<'_>>
    ensures { option_map parts_seen result ≡ dir_parts meta path.now }
{
    if !is_path(path) {
        return None;
    }
    Some(Parts {
        meta,
        digits: None,
        path,
    })
}

// Returns the fields of a file; `None` if the content or the path is not spelled as `print_tree` writes it, or if the path is the root.
fn file_parts<'a>(meta: Meta, digits: &'a str, path: &'a str) -> Option<Parts<'a>>
    ensures { option_map parts_seen result ≡ file_parts meta digits.now path.now }
{
    if !is_hex(digits) {
        return None;
    }
    if !is_path(path) {
        return None;
    }
    if path.len() < 2 {
        return None;
    }
    Some(Parts {
        meta,
        digits: Some(digits),
        path,
    })
}

// Reads the fields of a line without its line feed; `None` if the line is not the line of an entry.
fn parts_of(line: &[u8]) -> Option<Parts<'_>>
    ensures { Spells line.now result }
{
    match str::from_utf8(line) {
        Err(_) => None,
        Ok(text) => parts_in(text),
    }
}

// Returns the index of the first line feed; `None` if there is none.
fn line_end(bytes: &[u8]) -> Option<usize>
    ensures { result ≡ position (λ b. nat_eq b 10) bytes.now }
{
    bytes.iter().position(|b| *b == b'\n')
}

// Reads the fields of the line at the start of some bytes, and returns them with the bytes after the line; `None` if the bytes begin with no entry's line.
pub(crate) fn next_parts(bytes: &[u8]) -> Option<(Parts<'_>, &[u8])>
    ensures { BeginsWith bytes.now result }
{
    let Some(end) = line_end(bytes) else {
        return None;
    };
    let (line, rest) = bytes.split_at(end);
    let (_, later) = rest.split_at(1);
    match parts_of(line) {
        None => None,
        Some(parts) => Some((parts, later)),
    }
}
