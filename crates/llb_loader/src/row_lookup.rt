//! Finds out which rows are distinct, and which row a digest text names. Look-ups use a map that is sorted by the digest texts, so that no choice of entries
//! makes look-ups slow. Before a look-up, one row is guessed; if that row has the digest text, no look-up is made. The terminal's digest text names no row.

ghost use Rattle.std.specs.Prelude.{◌≡◌, ◌<◌, ◌≤◌, ◌↔◌, ℕ, false, length, map, IfOk, IfErr, OnOk, IsTrue, Some};
ghost use Rattle.std.specs.List.{filter_map};
ghost use Rattle.llb_loader.specs.Faults.{is_memory};
ghost use Rattle.llb_loader.specs.RowLookup.{AllSame, AreFirsts, Collides, IsIndex, IsTerminal, terminal_in, row_named, rows_named, graph_of, RefusesCollision};
ghost use Rattle.llb_loader.specs.RowsWithoutBytes.{with_bytes};
ghost use Rattle.llb_loader.specs.ReachedRows.{lists};
ghost use Rattle.llb_loader.specs.GraphOfRows.{input_at};
ghost use Rattle.llb_loader.specs.ReachedRowChecks.{RefusesStart};

use crate::fault::LoadFault;
use crate::row::Row;
use llb_ops::Op;
use llb_wire::{Bytes, Same, Text};
use std::alloc::{AllocError, Global};
use std::collections::BTreeMap;

/// Returns whether there are fewer than two distinct rows; `entries` has the bytes of the rows.
pub fn all_same(rows: &[Row], entries: &[Bytes]) -> bool
    requires { length entries.now ≡ length rows.now }
    ensures { IsTrue result ↔ AllSame (with_bytes rows.now entries.now) }
{
    for k in 0..rows.len() {
        if !same(&rows[k].digest, &rows[0].digest, &entries[k], &entries[0]) {
            return false;
        }
    }
    true
}

// Returns whether two rows have the same digest text and the same bytes.
fn same(digest: &Text, other: &Text, bytes: &Bytes, others: &Bytes) -> bool
    ensures { IsTrue result ↔ ((digest.now ≡ other.now) × (bytes.now ≡ others.now)) }
{
    digest.same(other) && bytes.same(others)
}

/// Returns a map from each digest text to the first row with this text, and a list that has, for each row, the first
/// row with the same digest text. Fails with 84 `Collision` at the first row that has an earlier row's digest text but
/// other bytes, or with 91 `Memory`.
pub fn index_of<'a>(
    alloc: Global,
    rows: &'a [Row],
    entries: &[Bytes],
) -> Result<(BTreeMap<&'a str, usize>, Vec<usize>), LoadFault>
    requires few { length rows.now ≤ 65_536 }
    requires len { length entries.now ≡ length rows.now }
    ensures index { IfOk result (λ found. IsIndex rows.now found.0) }
    ensures firsts { IfOk result (λ found. AreFirsts rows.now found.1.items) }
    ensures apart { IfOk result (λ found. (k : ℕ) → ¬ Collides (with_bytes rows.now entries.now) k) }
    ensures refused { IfErr result (λ e. is_memory e ≡ false → RefusesCollision (with_bytes rows.now entries.now) e) }
{
    let mut index: BTreeMap<&'a str, usize> = BTreeMap::new(alloc);
    let mut firsts = Vec::with_capacity(alloc, rows.len())?;
    for k in 0..rows.len() {
        let digest = rows[k].digest.as_str();
        let Some(first) = index.insert(digest, k)? else {
            firsts.push(k)?;
            continue;
        };
        if !entries[first].same(&entries[k]) {
            return Err(LoadFault::Collision(k as u32));
        }
        // Puts the earlier row back: the index keeps the first row of a digest text.
        index.insert(digest, first)?;
        firsts.push(first)?;
    }
    Ok((index, firsts))
}

/// Returns the terminal: the first row with the last row's digest text.
pub fn terminal_of(rows: &[Row], index: &BTreeMap<&str, usize>) -> usize
    requires some { 0 < length rows.now }
    requires index { IsIndex rows.now index.now }
    requires apart { (k : ℕ) → ¬ Collides rows.now k }
    ensures terminal { IsTerminal rows.now result }
    ensures found { result ≡ terminal_in rows.now }
{
    match index.get(rows[rows.len() - 1].digest.as_str()) {
        Some(row) => *row,
        // This case never occurs: the index has the digest text of each row.
        None => 0,
    }
}

/// Returns the row that a digest text names; `None` if the text names no row.
pub fn row_of(
    rows: &[Row],
    index: &BTreeMap<&str, usize>,
    terminal: usize,
    digest: &Text,
) -> Option<usize>
    requires { IsIndex rows.now index.now }
    ensures { result ≡ row_named rows.now terminal digest.now }
{
    let row = *index.get(digest.as_str())?;
    if row == terminal { None } else { Some(row) }
}

// Returns the row that the terminal's first input names. Fails with 85 `NoResult` if the terminal has no input, and with 86 `UnknownDigest` if its first input
// names no row.
pub(crate) fn start_of(
    rows: &[Row],
    index: &BTreeMap<&str, usize>,
    terminal: usize,
    op: &Op,
) -> Result<usize, LoadFault>
    requires index { IsIndex rows.now index.now }
    requires few { terminal < 65_536 }
    ensures some { OnOk result (0 < length op.now.inputs) }
    ensures start { IfOk result (λ start. row_named rows.now terminal (input_at op.now 0).digest ≡ Some start) }
    ensures refused { IfErr result (RefusesStart rows.now terminal op.now) }
{
    if op.inputs.is_empty() {
        return Err(LoadFault::NoResult);
    }
    let first = &op.inputs.as_slice()[0];
    match row_of(rows, index, terminal, &first.digest) {
        Some(start) => Ok(start),
        None => Err(LoadFault::UnknownDigest(terminal as u32, 0)),
    }
}

// Returns the row that a digest text names; `None` if the text names no row. No look-up is made if row `guess` has the digest text.
fn row_near(
    rows: &[Row],
    index: &BTreeMap<&str, usize>,
    firsts: &[usize],
    terminal: usize,
    digest: &Text,
    guess: usize,
) -> Option<usize>
    requires index { IsIndex rows.now index.now }
    requires firsts { AreFirsts rows.now firsts.now }
    ensures { result ≡ row_named rows.now terminal digest.now }
{
    if guess >= rows.len() {
        return row_of(rows, index, terminal, digest);
    }
    if !rows[guess].digest.same(digest) {
        return row_of(rows, index, terminal, digest);
    }
    let row = firsts[guess];
    if row == terminal { None } else { Some(row) }
}

// Returns the rows that the op's inputs name. `guess` is the row that is guessed for the first input; after an input that names a row, the next guess is the
// row after that row.
fn rows_named_by(
    alloc: Global,
    rows: &[Row],
    index: &BTreeMap<&str, usize>,
    firsts: &[usize],
    terminal: usize,
    op: &Op,
    guess: usize,
) -> Result<Vec<usize>, AllocError>
    requires index { IsIndex rows.now index.now }
    requires firsts { AreFirsts rows.now firsts.now }
    ensures { IfOk result (λ named. named.items ≡ rows_named rows.now terminal op.now) }
{
    let mut named = Vec::with_capacity(alloc, op.inputs.len())?;
    let mut near = guess;
    for input in op.inputs.as_slice() {
        if let Some(row) = row_near(rows, index, firsts, terminal, &input.digest, near) {
            named.push(row)?;
            near = row.wrapping_add(1);
        }
    }
    Ok(named)
}

/// Returns for each row the rows that its inputs name. To find the row that a row's first input names, the call looks first at the row before, since many
/// entries come right after the entry that their first input names.
pub fn links_of(
    alloc: Global,
    rows: &[Row],
    index: &BTreeMap<&str, usize>,
    firsts: &[usize],
    terminal: usize,
    ops: &[Op],
) -> Result<Vec<Vec<usize>>, AllocError>
    requires index { IsIndex rows.now index.now }
    requires firsts { AreFirsts rows.now firsts.now }
    ensures { IfOk result (λ links. lists links.items ≡ graph_of rows.now terminal ops.now) }
{
    let mut links = Vec::with_capacity(alloc, ops.len())?;
    let mut before = 0;
    for op in ops {
        links.push(rows_named_by(alloc, rows, index, firsts, terminal, op, before)?)?;
        before = links.len() - 1;
    }
    Ok(links)
}
