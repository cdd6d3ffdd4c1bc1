//! Checks a line without allocating. The lines before the checked line are the lines of a tree, so the last of them is enough to know whether the checked line
//! comes after all of them, and whether the parent directory of its path is there.

ghost use Rattle.std.specs.Prelude.{◌≡◌, ◌≢◌, ◌+◌, ◌++◌, ◌∷◌, ℕ, List, IsTrue, true};
ghost use Rattle.std.specs.FinMap as finite;
ghost use Rattle.std.specs.List.{All};
ghost use Rattle.std.specs.Ordering.{is_lt};
ghost use Rattle.std.specs.Option.{is_none};
ghost use Rattle.llb_tree.specs.Tree.{TreeMap, IsTree};
ghost use Rattle.llb_treetext.specs.LineFields.{trail};
ghost use Rattle.llb_treetext.specs.TreeAfterNextLine.{rank, trail_cmp, opens, IsLast, Starts, GoesTo};

use crate::fault::TextFault;
use crate::line_fields::{Parts, next_parts};

// The names of a path, with a slash before each, and whether the entry at the path is a directory.
#[derive(Clone, Copy)]
pub(crate) struct Place<'a> {
    pub names: &'a [u8],
    pub is_dir: bool,
}

// A line: its fields; the `Place` of its entry (the entry's path, and whether it is a directory); and the bytes after the line.
#[derive(Clone, Copy)]
pub(crate) struct Line<'a> {
    pub parts: Parts<'a>,
    pub place: Place<'a>,
    pub later: &'a [u8],
}

fn place_of<'a>(parts: &Parts<'a>) -> Place<'a>
    ensures names { result.names.now ≡ trail parts.now.path.now }
    ensures kind { result.is_dir ≡ is_none parts.now.digits }
{
    Place {
        names: parts.trail(),
        is_dir: parts.digits.is_none(),
    }
}

// Returns the rank of a byte in path order: a slash comes before all bytes of names.
fn rank(byte: u8) -> u8
    ensures { result ≡ rank byte }
{
    if byte == b'/' { 0 } else { byte }
}

// Returns whether a path comes before another; both are given as their names, with a slash before each name.
fn is_before(first: &[u8], second: &[u8]) -> bool
    ensures { result ≡ is_lt (trail_cmp first.now second.now) }
{
    for at in 0..first.len() {
        if at >= second.len() {
            return false;
        }
        let order = rank(first[at]).cmp(&rank(second[at]));
        if order.is_ne() {
            return order.is_lt();
        }
    }
    first.len() < second.len()
}

// Returns the text of the parent of a path: the bytes before the last slash of the path's names.
fn parent(names: &[u8]) -> &[u8]
    ensures { (front last : List ℕ) → All (λ b. b ≢ 47) last → names.now ≡ front ++ 47 ∷ last → result.now ≡ front }
{
    let mut rest = names;
    while let Some((byte, before)) = rest.split_last() {
        rest = before;
        if *byte == b'/' {
            return rest;
        }
    }
    rest
}

// Returns whether the directory `dir` is at the path of a `Place`, or above that path.
fn holds(place: &Place<'_>, dir: &[u8]) -> bool
    ensures found { IsTrue result → (later : List ℕ) × (place.now.names.now ≡ dir.now ++ later) × (opens later place.now.is_dir ≡ true) }
    ensures each { (later : List ℕ) → place.now.names.now ≡ dir.now ++ later → result ≡ opens later place.now.is_dir }
{
    match place.names.strip_prefix(dir) {
        None => false,
        Some(later) => match later.first() {
            None => place.is_dir,
            Some(byte) => *byte == b'/',
        },
    }
}

// Reads the first line, the line of the root. Fails with 31 `BadLine` if the bytes begin with no entry's line, with 32 `Order` if the line's path is not the
// root. Does not allocate.
pub(crate) fn first_line(bytes: &[u8]) -> Result<Line<'_>, TextFault>
    ensures { Starts bytes.now result }
{
    let Some((parts, later)) = next_parts(bytes) else {
        return Err(TextFault::BadLine(1));
    };
    let place = place_of(&parts);
    if !place.names.is_empty() {
        return Err(TextFault::Order(1));
    }
    Ok(Line {
        parts,
        place,
        later,
    })
}

// Reads the line at the start of `rest`. The line's number is `number`, and `last` is the `Place` of the line before: its path, and whether a directory is at
// that path. Fails with the first of 31 `BadLine`, 32 `Order` and 33 `NoParent` that applies. Does not allocate.
pub(crate) fn next_line<'a>(
    last: &Place<'_>,
    rest: &'a [u8],
    number: u64,
) -> Result<Line<'a>, TextFault>
    ensures { (t : TreeMap) → IsTree t → IsLast t last.now → number ≡ finite.len t + 1 → GoesTo t rest.now result }
{
    let Some((parts, later)) = next_parts(rest) else {
        return Err(TextFault::BadLine(number));
    };
    let place = place_of(&parts);
    if !is_before(last.names, place.names) {
        return Err(TextFault::Order(number));
    }
    if !holds(last, parent(place.names)) {
        return Err(TextFault::NoParent(number));
    }
    Ok(Line {
        parts,
        place,
        later,
    })
}
