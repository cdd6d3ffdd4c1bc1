//! Finds every fault of rows or of a definition: each fault that is at its own place, whatever other faults there are.

ghost use Rattle.std.specs.Prelude.{◌≡◌, ◌≤◌, ◌==◌, ◌&&◌, ◌++◌, ◌∷◌, [], false, cond, Some, length, IfOk, OnOk};
ghost use Rattle.llb_loader.specs.declared.fault.LoadFault.TheVariants as fault;
ghost use Rattle.llb_loader.specs.ReachedRows.{lists};
ghost use Rattle.std.specs.List.{All};
ghost use Rattle.llb_ops.specs.Faults as ops;
ghost use Rattle.llb_ops.specs.OpsWithinLimits.{IsWithinLimits};
ghost use Rattle.llb_loader.specs.Faults.{is_memory, definition_fault};
ghost use Rattle.llb_loader.specs.RowLookup.{IsIndex, AreFirsts, Collides};
ghost use Rattle.llb_loader.specs.GraphOfRows.{IsApart, links_in};
ghost use Rattle.llb_loader.specs.LoadResult.{rows_from};
ghost use Rattle.llb_findings.specs.Findings.{AreFindings, BeginsAsLink, AreFindingsIn, BeginsAsLoad, IsFaultIn, plan_for, ops_in, possible, linked_faults};
ghost use Rattle.llb_findings.specs.FindingSteps.{AreReadMarks, AreReached, HasTerminal, start_by, start_for};
ghost use Rattle.llb_findings.specs.Selections.{AreThose, Adds};

use crate::row_findings::{
    add_collisions, add_features, add_if, add_indexes, add_rules, add_unknown, add_unread,
    counts_of,
};
use llb_loader::digest::digest_of;
use llb_loader::graph_of_rows::{bytes_of, link};
use llb_loader::numbering::number;
use llb_loader::reached_rows::reached;
use llb_loader::row_lookup::{all_same, index_of, links_of, row_of, terminal_of};
use llb_loader::{LoadFault, Row};
use llb_ops::{Bytes, Op, OpFault, read_definition};
use llb_wire::Memory;
use std::alloc::{AllocError, Global};
use std::collections::BTreeMap;

/// Returns every fault of a definition: each fault that is at its own place, whatever other faults there are, in the order in which `load` looks for
/// them. If the bytes can't be read as a definition, this is the only fault. An entry that can't be read as an op counts as an op without inputs: it leads to
/// no entry, and nothing else is looked for in it.
///
/// The list is empty if `load` returns a graph; else its first fault is the one with which `load` fails. Fails only if memory is refused.
pub fn findings(alloc: Global, bytes: &[u8]) -> Result<Vec<LoadFault>, Memory>
    ensures found { IfOk result (λ found. AreFindingsIn bytes.now found.items) }
    ensures begins { IfOk result (λ found. BeginsAsLoad bytes.now found.items) }
{
    let entries = match read_definition(alloc, bytes) {
        Ok(entries) => entries,
        Err(fault) => return unreadable(alloc, fault),
    };
    let rows = rows_of(alloc, entries.as_slice())?;
    findings_of(alloc, rows.as_slice())
}

// Returns the fault of bytes that can't be read as a definition, alone.
fn unreadable(alloc: Global, fault: OpFault) -> Result<Vec<LoadFault>, Memory>
    ensures { IfOk result (λ found. (ops.is_memory fault ≡ false) × (found.items ≡ definition_fault fault ∷ [])) }
{
    let fault = LoadFault::from(fault);
    if is_memory(&fault) {
        return Err(Memory);
    }
    let mut found = Vec::new(alloc);
    found.push(fault)?;
    Ok(found)
}

// Returns whether the fault is that memory was refused.
fn is_memory(fault: &LoadFault) -> bool
    ensures { result ≡ is_memory fault.now }
{
    matches!(fault, LoadFault::Memory)
}

// Returns for each entry a row with the entry's digest text and with its bytes.
fn rows_of(alloc: Global, entries: &[Bytes]) -> Result<Vec<Row>, Memory>
    ensures { IfOk result (λ rows. rows.items ≡ rows_from entries.now) }
{
    let mut rows = Vec::with_capacity(alloc, entries.len())?;
    for bytes in entries {
        let digest = digest_of(alloc, bytes.as_slice())?;
        let bytes = bytes.copy()?;
        rows.push(Row { digest, bytes })?;
    }
    Ok(rows)
}

/// Returns every fault of the rows, in the order in which `link` looks for them, as `findings` does. Fails only if memory is refused.
pub fn findings_of(alloc: Global, rows: &[Row]) -> Result<Vec<LoadFault>, Memory>
    requires { length rows.now ≤ 65_536 }
    ensures found { IfOk result (λ found. AreFindings rows.now found.items) }
    ensures begins { IfOk result (λ found. BeginsAsLink rows.now found.items) }
{
    let fault = match link(alloc, rows) {
        Ok(graph) => {
            drop(graph);
            return Ok(Vec::new(alloc));
        }
        Err(fault) => fault,
    };
    if is_memory(&fault) {
        return Err(Memory);
    }
    every_fault(alloc, rows)
}

// Returns every fault of the rows. The call looks for all of them, also if there are none.
fn every_fault(alloc: Global, rows: &[Row]) -> Result<Vec<LoadFault>, Memory>
    requires { length rows.now ≤ 65_536 }
    ensures { IfOk result (λ found. AreThose (IsFaultIn (plan_for rows.now)) (possible (plan_for rows.now)) found.items) }
{
    let mut found = Vec::new(alloc);
    let (ops, read) = add_unread(alloc, rows, &mut found)?;
    let entries = bytes_of(alloc, rows)?;
    if all_same(rows, &entries) {
        found.push(LoadFault::TooFew)?;
        return Ok(found);
    }
    match index_of(alloc, rows, &entries) {
        Ok(index) => {
            add_linked(alloc, rows, &index.0, &index.1, &ops, &read, &mut found)?;
            Ok(found)
        }
        Err(fault) => {
            if is_memory(&fault) {
                return Err(Memory);
            }
            add_collisions(rows, &mut found)?;
            Ok(found)
        }
    }
}

// Adds the faults that are looked for once at least two rows are distinct and none collide.
fn add_linked(
    alloc: Global,
    rows: &[Row],
    index: &BTreeMap<&str, usize>,
    firsts: &[usize],
    ops: &[Op],
    read: &[bool],
    found: &mut Vec<LoadFault>,
) -> Result<(), Memory>
    requires few { length rows.now ≤ 65_536 }
    requires index { IsIndex rows.now index.now }
    requires firsts { AreFirsts rows.now firsts.now }
    requires apart { IsApart rows.now }
    requires ops { ops.now ≡ ops_in rows.now }
    requires within { All IsWithinLimits ops.now }
    requires read { AreReadMarks rows.now read.now }
    ensures { OnOk result (Adds (IsFaultIn (plan_for rows.now)) (linked_faults (plan_for rows.now)) found.old.items found.new.items) }
{
    let terminal = terminal_of(rows, index);
    add_no_result(read[terminal], &ops[terminal], found)?;
    let links = links_of(alloc, rows, index, firsts, terminal, ops)?;
    let start = start_of(rows, index, terminal, &ops[terminal]);
    let seen = seen_from(alloc, rows, terminal, &links, start)?;
    add_unknown(rows, index, terminal, ops, &seen, found)?;
    add_cycle(alloc, rows, terminal, &links, start, &seen, found)?;
    add_features(alloc, rows, ops, &seen, found)?;
    add_rules(alloc, rows, ops, read, &seen, found)?;
    let counts = counts_of(alloc, ops)?;
    add_indexes(rows, index, terminal, ops, &counts, &seen, found)?;
    Ok(())
}

// Adds 85 `NoResult` if the terminal could be read and has no input.
fn add_no_result(read: bool, op: &Op, found: &mut Vec<LoadFault>) -> Result<(), Memory>
    ensures { OnOk result (found.new.items ≡ found.old.items ++ cond (read && (length op.now.inputs == 0)) (fault.NoResult ∷ []) []) }
{
    if !read {
        return Ok(());
    }
    add_if(op.inputs.is_empty(), LoadFault::NoResult, found)?;
    Ok(())
}

// Returns the row that the terminal's first input names; `None` if the terminal has no input, or if its first one names no row.
fn start_of(rows: &[Row], index: &BTreeMap<&str, usize>, terminal: usize, op: &Op) -> Option<usize>
    requires { IsIndex rows.now index.now }
    ensures { result ≡ start_by rows.now terminal op.now }
{
    if op.inputs.is_empty() {
        return None;
    }
    let first = &op.inputs.as_slice()[0];
    row_of(rows, index, terminal, &first.digest)
}

// Returns for each row whether the result depends on it; for no row if there is no row of the result.
fn seen_from(
    alloc: Global,
    rows: &[Row],
    terminal: usize,
    links: &[Vec<usize>],
    start: Option<usize>,
) -> Result<Vec<bool>, AllocError>
    requires terminal { HasTerminal rows.now terminal }
    requires links { lists links.now ≡ links_in (plan_for rows.now) }
    requires start { start ≡ start_for rows.now }
    ensures { IfOk result (λ seen. AreReached rows.now seen.items) }
{
    let Some(start) = start else {
        let none = vec![in alloc; false; rows.len()]?;
        return Ok(none);
    };
    let seen = reached(alloc, links, start)?;
    Ok(seen)
}

// Adds 87 `Cycle` if the rows on which the result depends have a cycle.
fn add_cycle(
    alloc: Global,
    rows: &[Row],
    terminal: usize,
    links: &[Vec<usize>],
    start: Option<usize>,
    seen: &[bool],
    found: &mut Vec<LoadFault>,
) -> Result<(), Memory>
    requires terminal { HasTerminal rows.now terminal }
    requires links { lists links.now ≡ links_in (plan_for rows.now) }
    requires start { start ≡ start_for rows.now }
    requires seen { AreReached rows.now seen.now }
    ensures { OnOk result (Adds (IsFaultIn (plan_for rows.now)) (fault.Cycle ∷ []) found.old.items found.new.items) }
{
    let Some(start) = start else {
        return Ok(());
    };
    add_cycle_from(alloc, rows, terminal, links, start, seen, found)?;
    Ok(())
}

// Adds 87 `Cycle` if the rows that are reached from the row `start` have a cycle.
fn add_cycle_from(
    alloc: Global,
    rows: &[Row],
    terminal: usize,
    links: &[Vec<usize>],
    start: usize,
    seen: &[bool],
    found: &mut Vec<LoadFault>,
) -> Result<(), Memory>
    requires terminal { HasTerminal rows.now terminal }
    requires links { lists links.now ≡ links_in (plan_for rows.now) }
    requires start { start_for rows.now ≡ Some start }
    requires seen { AreReached rows.now seen.now }
    ensures { OnOk result (Adds (IsFaultIn (plan_for rows.now)) (fault.Cycle ∷ []) found.old.items found.new.items) }
{
    let Some(order) = number(alloc, links, start, seen)? else {
        found.push(LoadFault::Cycle)?;
        return Ok(());
    };
    drop(order);
    Ok(())
}
