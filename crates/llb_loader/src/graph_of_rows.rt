//! Links rows: looks for the refusals in their order, and then makes the graph. No call here recurses along the graph, so a deep graph needs no deep stack.

ghost use Rattle.std.specs.Prelude.{◌≡◌, ◌<◌, ◌≤◌, true, false, length, IfOk, IfErr};
ghost use Rattle.std.specs.List.{All};
ghost use Rattle.llb_ops.specs.OpsWithinLimits.{IsWithinLimits};
ghost use Rattle.llb_loader.specs.Faults.{is_memory};
ghost use Rattle.llb_loader.specs.RowLookup.{AreFirsts, IsIndex};
ghost use Rattle.llb_loader.specs.RowsWithoutBytes.{AreBare, bared, bytes_of, with_bytes};
ghost use Rattle.llb_loader.specs.GraphOfRows.{IsApart, IsWhole, Refused, GraphOf};
ghost use Rattle.llb_loader.specs.GraphOfRowsResult.{IsGraphOf, IsRefusalOf};
ghost use Rattle.llb_loader.specs.GraphOfRowsStages.{AreNames, IsLinked, IsLinkedFrom, plan_in};

use crate::fault::LoadFault;
use crate::graph::Graph;
use crate::numbering::number;
use crate::op_reading::ops_of;
use crate::reached_row_checks::{
    check_features, check_indexes, check_names, check_rules, counts_of,
};
use crate::reached_rows::reached;
use crate::row::Row;
use crate::row_lookup::{all_same, index_of, links_of, start_of, terminal_of};
use crate::vertex_building::{first_edge, vertices_of};
use crate::vertex_numbers::ranks_of;
use llb_ops::Op;
use llb_wire::{Bytes, Memory};
use std::alloc::Global;
use std::collections::BTreeMap;

// Rows with their ops, and with the rows that the inputs of these ops name. Each input of the row `start`, and of each row to which inputs lead from there,
// names a row. The field `bytes` of each row is empty.
struct Linked {
    rows: Vec<Row>,
    ops: Vec<Op>,
    terminal: usize,
    // The row that the terminal's first input names.
    start: usize,
    // For each row, `links` has the rows that the row's inputs name, and `seen` has whether the row is reached from `start`.
    links: Vec<Vec<usize>>,
    seen: Vec<bool>,
}

impl Drop for Linked {
    fn drop(self) {
        let Linked {
            rows: _,
            ops: _,
            terminal: _,
            start: _,
            links: _,
            seen: _,
        } = self;
    }
}

// The result of resolving the digest texts by which inputs name rows: the fields of `Linked` other than the rows and the ops.
#[derive(Drop)]
struct Names {
    terminal: usize,
    start: usize,
    links: Vec<Vec<usize>>,
    seen: Vec<bool>,
}

/// Returns the graph of the rows. The terminal is the first row that equals the last row; the terminal's first input names the result.
///
/// Fails with 82 `Entry`, 83 `TooFew`, 84 `Collision`, 85 `NoResult`, 86 `UnknownDigest`, 87 `Cycle`, 88 `Unsupported`, 89 `Invalid` or 90 `BadIndex`. If
/// several of these apply, the call fails with the least number. A fault with a row has the first faulty row (but 86 looks at the terminal's first input before
/// all others), and with it that row's first faulty input, feature or rule. Fails with 91 `Memory` if memory is refused.
pub fn link(alloc: Global, rows: &[Row]) -> Result<Graph, LoadFault>
    requires { length rows.now ≤ 65_536 }
    ensures graph { IfOk result (λ g. IsGraphOf rows.now g) }
    ensures refused { IfErr result (λ e. is_memory e ≡ false → IsRefusalOf rows.now e) }
{
    let bare = bared(alloc, rows)?;
    let entries = bytes_of(alloc, rows)?;
    link_entries(alloc, bare, entries)
}

// Copies the rows with their digest texts alone; the bytes of the copies are empty.
fn bared(alloc: Global, rows: &[Row]) -> Result<Vec<Row>, Memory>
    ensures { IfOk result (λ bare. bare.items ≡ bared rows.now) }
{
    let mut bare = Vec::with_capacity(alloc, rows.len())?;
    for row in rows {
        let digest = row.digest.copy()?;
        bare.push(Row::bare(alloc, digest))?;
    }
    Ok(bare)
}

/// Copies the bytes of the rows.
pub fn bytes_of(alloc: Global, rows: &[Row]) -> Result<Vec<Bytes>, Memory>
    ensures { IfOk result (λ entries. entries.items ≡ bytes_of rows.now) }
{
    let mut entries = Vec::with_capacity(alloc, rows.len())?;
    for row in rows {
        let bytes = row.bytes.copy()?;
        entries.push(bytes)?;
    }
    Ok(entries)
}

// Links rows whose field `bytes` must be empty; `entries` must have the bytes of each row's entry. Fails as `link` does.
pub(crate) fn link_entries(
    alloc: Global,
    rows: Vec<Row>,
    entries: Vec<Bytes>,
) -> Result<Graph, LoadFault>
    requires few { length rows.items ≤ 65_536 }
    requires len { length entries.items ≡ length rows.items }
    requires bare { AreBare rows.items }
    ensures graph { IfOk result (λ g. IsGraphOf (with_bytes rows.items entries.items) g) }
    ensures refused { IfErr result (λ e. is_memory e ≡ false → IsRefusalOf (with_bytes rows.items entries.items) e) }
{
    let linked = Linked::of(alloc, rows, entries)?;
    let order = linked.order(alloc)?;
    linked.into_graph(alloc, &order)
}

impl Names {
    // Resolves the digest texts by which the inputs of the ops name rows. Fails with 85 `NoResult` or 86
    // `UnknownDigest`, or with 91 `Memory`.
    fn of(
        alloc: Global,
        rows: &[Row],
        index: &BTreeMap<&str, usize>,
        firsts: &[usize],
        ops: &[Op],
    ) -> Result<Names, LoadFault>
        requires few { length rows.now ≤ 65_536 }
        requires len { length ops.now ≡ length rows.now }
        requires within { All IsWithinLimits ops.now }
        requires index { IsIndex rows.now index.now }
        requires firsts { AreFirsts rows.now firsts.now }
        requires apart { IsApart rows.now }
        requires some { 0 < length rows.now }
        ensures names { IfOk result (λ names. AreNames rows.now ops.now names) }
        ensures refused { IfErr result (λ e. is_memory e ≡ false → Refused rows.now ops.now e) }
    {
        let terminal = terminal_of(rows, index);
        let start = start_of(rows, index, terminal, &ops[terminal])?;
        let links = links_of(alloc, rows, index, firsts, terminal, ops)?;
        let seen = reached(alloc, &links, start)?;
        check_names(rows, index, terminal, ops, &links, &seen)?;
        Ok(Names {
            terminal,
            start,
            links,
            seen,
        })
    }
}

impl Linked {
    // Reads the entries as ops, drops the entries, and resolves the digest texts by which inputs name rows. The rows have empty bytes; entry k has the bytes
    // of row k. Fails with 82 `Entry`, 83 `TooFew`, 84 `Collision`, 85 `NoResult` or 86 `UnknownDigest`, or with 91 `Memory`. The rows are compared before
    // any entry is read, since each entry is dropped once it is read; the result of this comparison (83 or 84) is reported only if all entries can be read.
    fn of(alloc: Global, rows: Vec<Row>, entries: Vec<Bytes>) -> Result<Linked, LoadFault>
        requires few { length rows.items ≤ 65_536 }
        requires len { length entries.items ≡ length rows.items }
        requires bare { AreBare rows.items }
        ensures linked { IfOk result (λ linked. IsLinkedFrom (with_bytes rows.items entries.items) linked) }
        ensures refused { IfErr result (λ e. is_memory e ≡ false → IsRefusalOf (with_bytes rows.items entries.items) e) }
    {
        let titles = rows.as_slice();
        let few = all_same(titles, entries.as_slice());
        let found = index_of(alloc, titles, entries.as_slice());
        let ops = ops_of(alloc, entries)?;
        if few {
            return Err(LoadFault::TooFew);
        }
        let index = found?;
        let names = Names::of(alloc, titles, &index.0, index.1.as_slice(), ops.as_slice())?;
        drop(index);
        Ok(Linked {
            rows,
            ops,
            terminal: names.terminal,
            start: names.start,
            links: names.links,
            seen: names.seen,
        })
    }

    // Checks the rows on which the result depends, and returns them in the order of their vertex numbers. Fails with 87 `Cycle`, 88
    // `Unsupported`, 89 `Invalid` or 90 `BadIndex`, or with 91 `Memory`.
    fn order(&self, alloc: Global) -> Result<Vec<usize>, LoadFault>
        requires { IsLinked self.now }
        ensures whole { IfOk result (λ order. IsWhole (plan_in self.now) order.items) }
        ensures few { IfOk result (λ order. length order.items ≤ length self.now.rows.items) }
        ensures refused { IfErr result (λ e. is_memory e ≡ false → Refused self.now.rows.items self.now.ops.items e) }
    {
        let ops = self.ops.as_slice();
        let links = self.links.as_slice();
        let seen = self.seen.as_slice();
        let Some(order) = number(alloc, links, self.start, seen)? else {
            return Err(LoadFault::Cycle);
        };
        check_features(ops, seen)?;
        check_rules(alloc, ops, seen)?;
        let counts = counts_of(alloc, ops)?;
        check_indexes(ops, links, &counts, seen, self.terminal)?;
        Ok(order)
    }

    // Makes the graph of the linked rows; `order` has the rows on which the result depends, in the order of their vertex numbers. Fails with 91 `Memory` alone.
    fn into_graph(self, alloc: Global, order: &[usize]) -> Result<Graph, LoadFault>
        requires linked { IsLinked self }
        requires whole { IsWhole (plan_in self) order.now }
        requires short { length order.now ≤ length self.rows.items }
        ensures graph { IfOk result (λ g. GraphOf self.rows.items self.ops.items g) }
        ensures refused { IfErr result (λ e. is_memory e ≡ true) }
    {
        let Linked {
            rows,
            ops,
            terminal,
            start,
            links,
            seen: _,
        } = self;
        let ranks = ranks_of(alloc, &links, start, order)?;
        let result = first_edge(ranks[start], &ops[terminal]);
        let vertices = vertices_of(alloc, rows, ops, &links, order, &ranks)?;
        Ok(Graph::of_parts(alloc, vertices, result)?)
    }
}
