//! The children of a directory in pieces. Copies of the directory share the pieces: an edit of a shared directory
//! copies the list of the pieces and the piece that the edit changes. A piece with `MOST` children is split in two before
//! another child goes into it.

ghost use Rattle.std.specs.Prelude.{◌≡◌, ◌<◌, ◌++◌, length, map, option_map, Contains, IfOk, IfSome, OnOk};
ghost use Rattle.std.specs.Arc.{arc_value};
ghost use Rattle.llb_tree.specs.Nodes.{child, kids_in, rows_in};
ghost use Rattle.llb_tree.specs.ChildPieces.{AllFull, ArePieced, IsPieceOf, begins_after, pairs_of, row_pairs, tidied};

use crate::edit::copies;
use crate::name::Name;
use crate::node::{Child, Piece, place_of};
use std::alloc::{AllocError, Global};
use std::cmp::Ordering;
use std::mem;
use std::sync::Arc;

// How many children a piece has at most.
pub(crate) const MOST: usize = 256;

impl Piece {
    // Makes a piece of these children.
    pub(crate) fn of(alloc: Global, rows: Vec<Child>) -> Result<Piece, AllocError>
        ensures { IfOk result (λ p. rows_in p ≡ rows.items) }
    {
        let rows = Arc::new(alloc, rows)?;
        Ok(Piece { rows })
    }

    // Copies the piece; the copy shares the children with the piece.
    pub(crate) fn copy(&self) -> Result<Piece, AllocError>
        ensures { IfOk result (λ p. rows_in p ≡ rows_in self.now) }
    {
        let rows = Arc::try_clone(&self.rows)?;
        Ok(Piece { rows })
    }

    // Returns whether the name of the piece's first child comes after the given name; false if the piece has no child.
    fn begins_after(&self, name: &Name) -> bool
        ensures { result ≡ begins_after name.now (row_pairs self.now) }
    {
        match self.rows.as_slice().first() {
            None => false,
            Some(kid) => (*kid.name).cmp(name) == Ordering::Greater,
        }
    }
}

// Returns the index of the piece that a name belongs to: the last piece that does not begin after the name, or the first piece
// if all begin after it.
pub(crate) fn piece_of(pieces: &[Piece], name: &Name) -> usize
    requires { 0 < length pieces.now }
    ensures { IsPieceOf name.now (map row_pairs pieces.now) result }
{
    let mut low = 0;
    let mut high = pieces.len();
    while high - low > 1 {
        let middle = low + (high - low) / 2;
        if pieces[middle].begins_after(name) {
            high = middle;
        } else {
            low = middle;
        }
    }
    low
}

// Returns the child with a name; `None` if there is none.
pub(crate) fn child_of<'a>(pieces: &'a [Piece], name: &Name) -> Option<&'a Child>
    requires { ArePieced pieces.now }
    ensures { option_map (λ k. k.now.node) result ≡ child name.now (kids_in pieces.now) }
{
    if pieces.is_empty() {
        return None;
    }
    let at = piece_of(pieces, name);
    let rows = pieces[at].rows.as_slice();
    match place_of(rows, name) {
        Ok(i) => Some(&rows[i]),
        Err(_) => None,
    }
}

// Returns the child with a name; `None` if there is none. Looks for the child first at index `i` of piece `at`.
pub(crate) fn child_near<'a>(
    pieces: &'a [Piece],
    at: usize,
    i: usize,
    name: &Name,
) -> Option<&'a Child>
    requires { ArePieced pieces.now }
    ensures { option_map (λ k. k.now.node) result ≡ child name.now (kids_in pieces.now) }
{
    match row_at(pieces, at, i) {
        Some(kid) if *kid.name == *name => Some(kid),
        _ => child_of(pieces, name),
    }
}

// Returns the child at index `i` of piece `at`, if there is one.
fn row_at(pieces: &[Piece], at: usize, i: usize) -> Option<&Child>
    ensures { IfSome result (λ k. Contains (kids_in pieces.now) k.now) }
{
    if at >= pieces.len() {
        return None;
    }
    let rows = pieces[at].rows.as_slice();
    if i >= rows.len() {
        return None;
    }
    Some(&rows[i])
}

// Copies a list of pieces; the copy shares the children with the list.
pub(crate) fn second_owners(alloc: Global, pieces: &[Piece]) -> Result<Vec<Piece>, AllocError>
    ensures { IfOk result (λ v. map row_pairs v.items ≡ map row_pairs pieces.now) }
{
    let mut copied = Vec::new(alloc);
    copied.reserve(pieces.len())?;
    for piece in pieces {
        copied.push(piece.copy()?)?;
    }
    Ok(copied)
}

// Replaces a shared list of pieces by a copy that has one owner; the pieces themselves may still be shared.
pub(crate) fn own_list(alloc: Global, pieces: &mut Arc<Vec<Piece>>) -> Result<(), AllocError>
    ensures { map row_pairs (arc_value pieces.new).items ≡ map row_pairs (arc_value pieces.old).items }
{
    if Arc::strong_count(pieces) == 1 {
        return Ok(());
    }
    let copied = second_owners(alloc, pieces.as_slice())?;
    *pieces = Arc::new(alloc, copied)?;
    Ok(())
}

// Splits a piece into halves, if it has two children or more.
fn part(pieces: &mut Vec<Piece>, alloc: Global, at: usize) -> Result<(), AllocError>
    requires pieced { ArePieced pieces.old.items }
    requires within { at < length pieces.old.items }
    ensures same { pairs_of pieces.new.items ≡ pairs_of pieces.old.items }
    ensures pieced { ArePieced pieces.new.items }
    ensures some { 0 < length pieces.new.items }
{
    let rows = pieces[at].rows.as_slice();
    if rows.len() < 2 {
        return Ok(());
    }
    let (lower, upper) = rows.split_at(rows.len() / 2);
    let lower = Piece::of(alloc, copies(alloc, lower)?)?;
    let upper = Piece::of(alloc, copies(alloc, upper)?)?;
    pieces.insert(at, lower)?;
    pieces[at + 1] = upper;
    Ok(())
}

// Adds an empty piece if there are no pieces.
fn some_piece(pieces: &mut Vec<Piece>, alloc: Global) -> Result<(), AllocError>
    requires { ArePieced pieces.old.items }
    ensures same { pairs_of pieces.new.items ≡ pairs_of pieces.old.items }
    ensures pieced { ArePieced pieces.new.items }
    ensures some { OnOk result (0 < length pieces.new.items) }
{
    if pieces.is_empty() {
        let piece = Piece::of(alloc, Vec::new(alloc))?;
        pieces.push(piece)?;
    }
    Ok(())
}

// Makes room for one more child in the piece that the name belongs to: splits the piece if it is full, or adds an empty piece if there are no pieces. Returns
// the index of the piece that the name then belongs to.
pub(crate) fn make_room(
    pieces: &mut Vec<Piece>,
    alloc: Global,
    name: &Name,
) -> Result<usize, AllocError>
    requires { ArePieced pieces.old.items }
    ensures same { pairs_of pieces.new.items ≡ pairs_of pieces.old.items }
    ensures pieced { ArePieced pieces.new.items }
    ensures at { IfOk result (λ j. IsPieceOf name.now (map row_pairs pieces.new.items) j) }
{
    some_piece(pieces, alloc)?;
    let at = piece_of(pieces.as_slice(), name);
    if pieces[at].rows.len() < MOST {
        return Ok(at);
    }
    part(pieces, alloc, at)?;
    Ok(piece_of(pieces.as_slice(), name))
}

// Removes the piece at an index if it has no children.
pub(crate) fn drop_empty(pieces: &mut Vec<Piece>, at: usize)
    requires { at < length pieces.old.items }
    ensures { map row_pairs pieces.new.items ≡ tidied at (map row_pairs pieces.old.items) }
{
    if pieces[at].rows.as_slice().is_empty() {
        let _empty = pieces.remove(at);
    }
}

// Appends a piece of these children; does nothing if there are no children.
fn end_piece(pieces: &mut Vec<Piece>, alloc: Global, rows: Vec<Child>) -> Result<(), AllocError>
    ensures same { OnOk result (kids_in pieces.new.items ≡ kids_in pieces.old.items ++ rows.items) }
    ensures full { AllFull (map row_pairs pieces.old.items) → AllFull (map row_pairs pieces.new.items) }
{
    if rows.as_slice().is_empty() {
        return Ok(());
    }
    pieces.push(Piece::of(alloc, rows)?)?;
    Ok(())
}

// Puts children into pieces. Each piece has `MOST` children, except perhaps the last one.
pub(crate) fn in_pieces(alloc: Global, rows: Vec<Child>) -> Result<Arc<Vec<Piece>>, AllocError>
    ensures same { IfOk result (λ v. kids_in (arc_value v).items ≡ rows.items) }
    ensures full { IfOk result (λ v. AllFull (map row_pairs (arc_value v).items)) }
{
    let mut pieces = Vec::new(alloc);
    let mut last = Vec::new(alloc);
    for child in rows {
        if last.len() >= MOST {
            let whole = mem::replace(&mut last, Vec::new(alloc));
            end_piece(&mut pieces, alloc, whole)?;
        }
        last.push(child)?;
    }
    end_piece(&mut pieces, alloc, last)?;
    Ok(Arc::new(alloc, pieces)?)
}
