//! Finds every fault of one kind in rows, row by row.

ghost use Rattle.std.specs.Prelude.{◌≡◌, ◌++◌, ◌↔◌, ◌<◌, ◌≤◌, ◌==◌, ◌||◌, ◌&&◌, not, cond, [], ◌∷◌, None, length, map, IfOk, OnOk, IsTrue, IsOk};
ghost use Rattle.std.specs.List.{All, filter};
ghost use Rattle.std.specs.Option.{is_some};
ghost use Rattle.llb_ops.specs.Faults.{is_memory};
ghost use Rattle.llb_ops.specs.Messages.{op_of};
ghost use Rattle.llb_ops.specs.OpsWithinLimits.{IsWithinLimits};
ghost use Rattle.llb_loader.specs.declared.fault.LoadFault.TheVariants as fault;
ghost use Rattle.llb_loader.specs.RowLookup.{IsIndex, row_named, Collides};
ghost use Rattle.llb_loader.specs.Features.{has, features};
ghost use Rattle.llb_loader.specs.Rules.{IsBelow};
ghost use Rattle.llb_loader.specs.GraphOfRows.{op_at};
ghost use Rattle.llb_findings.specs.Findings.{ops_in, plan_for, op_or_none, IsFaultIn, IsCounted, entry_faults, collisions};
ghost use Rattle.llb_findings.specs.Findings.{unknown_digests, unsupported, invalid};
ghost use Rattle.llb_findings.specs.Findings.{bad_indexes, at_inputs};
ghost use Rattle.llb_findings.specs.FindingSteps.{AreReadMarks, AreReached, HasTerminal, AddsRules, Differ, feature_faults, unread, AreCounts, IsCount};
ghost use Rattle.llb_findings.specs.FindingSteps.{asked_by, unknown_by, index_by, is_out, is_out_at};
ghost use Rattle.llb_findings.specs.Selections.{Adds, joined_below};

use crate::op_features::features_of;
use crate::op_rules::rules_broken;
use llb_loader::indices::are_outputs;
use llb_loader::op_sizes::count_of;
use llb_loader::row_lookup::row_of;
use llb_loader::{LoadFault, Row, Rule, exec_rules, file_rules};
use llb_ops::{Input, Kind, Op, OpFault, read_op};
use llb_wire::{Bytes, Many, Memory, Same};
use std::alloc::Global;
use std::collections::BTreeMap;

// Reads each row as an op, and adds 82 `Entry` for each row that can't be read; such a row counts as an op without inputs and without a kind.
pub(crate) fn add_unread(
    alloc: Global,
    rows: &[Row],
    found: &mut Vec<LoadFault>,
) -> Result<(Vec<Op>, Vec<bool>), Memory>
    requires { length rows.now ≤ 65_536 }
    ensures ops { IfOk result (λ r. r.0.items ≡ ops_in rows.now) }
    ensures within { IfOk result (λ r. All IsWithinLimits r.0.items) }
    ensures read { IfOk result (λ r. AreReadMarks rows.now r.1.items) }
    ensures adds { OnOk result (Adds (IsFaultIn (plan_for rows.now)) (entry_faults (plan_for rows.now)) found.old.items found.new.items) }
{
    let mut ops = Vec::with_capacity(alloc, rows.len())?;
    let mut read = Vec::with_capacity(alloc, rows.len())?;
    for k in 0..rows.len() {
        let (op, readable) = read_row(alloc, k as u32, &rows[k], found)?;
        ops.push(op)?;
        read.push(readable)?;
    }
    Ok((ops, read))
}

// Reads row `k` as an op, and returns the op and `true`. If the row can't be read, adds 82 `Entry`, and returns an op without inputs and without a kind and
// `false`.
fn read_row(
    alloc: Global,
    k: u32,
    row: &Row,
    found: &mut Vec<LoadFault>,
) -> Result<(Op, bool), Memory>
    ensures op { IfOk result (λ r. r.0 ≡ op_or_none (op_of row.now.bytes)) }
    ensures within { IfOk result (λ r. IsWithinLimits r.0) }
    ensures read { IfOk result (λ r. IsTrue r.1 ↔ IsOk (op_of row.now.bytes)) }
    ensures adds { OnOk result (found.new.items ≡ found.old.items ++ unread k (op_of row.now.bytes)) }
{
    let fault = match read_op(alloc, row.bytes.as_slice()) {
        Ok(op) => return Ok((op, true)),
        Err(fault) => fault,
    };
    if is_memory(&fault) {
        return Err(Memory);
    }
    found.push(LoadFault::Entry(k, fault))?;
    Ok((no_op(alloc), false))
}

// Returns whether the fault is that memory was refused.
fn is_memory(fault: &OpFault) -> bool
    ensures { result ≡ is_memory fault.now }
{
    matches!(fault, OpFault::Memory)
}

// Makes an op without inputs and without a kind.
fn no_op(alloc: Global) -> Op
    ensures { result ≡ record { inputs = []; kind = None; extra = [] } }
{
    Op {
        inputs: Many::new(Vec::new(alloc)),
        kind: None,
        extra: Bytes::new(Vec::new(alloc)),
    }
}

// Adds 84 `Collision` for each row that has an earlier row's digest text and other bytes.
pub(crate) fn add_collisions(rows: &[Row], found: &mut Vec<LoadFault>) -> Result<(), Memory>
    requires { length rows.now ≤ 65_536 }
    ensures { OnOk result (Adds (IsFaultIn (plan_for rows.now)) (collisions (plan_for rows.now)) found.old.items found.new.items) }
{
    for k in 0..rows.len() {
        add_if(collides(rows, k), LoadFault::Collision(k as u32), found)?;
    }
    Ok(())
}

// Adds the fault if it is there.
pub(crate) fn add_if(
    is_there: bool,
    fault: LoadFault,
    found: &mut Vec<LoadFault>,
) -> Result<(), Memory>
    ensures { OnOk result (found.new.items ≡ found.old.items ++ cond is_there (fault ∷ []) []) }
{
    if !is_there {
        return Ok(());
    }
    found.push(fault)?;
    Ok(())
}

// Returns whether row `k` has the digest text of an earlier row, and other bytes.
fn collides(rows: &[Row], k: usize) -> bool
    requires { k < length rows.now }
    ensures { IsTrue result ↔ Collides rows.now k }
{
    for j in 0..k {
        if differ(&rows[j], &rows[k]) {
            return true;
        }
    }
    false
}

// Returns whether two rows have the same digest text and other bytes.
fn differ(row: &Row, other: &Row) -> bool
    ensures { IsTrue result ↔ Differ row.now other.now }
{
    if !row.digest.same(&other.digest) {
        return false;
    }
    !row.bytes.same(&other.bytes)
}

// Adds 86 `UnknownDigest` for each input that is looked at and names no row: each input of a reached row (`seen` has true for it), and the terminal's first.
pub(crate) fn add_unknown(
    rows: &[Row],
    index: &BTreeMap<&str, usize>,
    terminal: usize,
    ops: &[Op],
    seen: &[bool],
    found: &mut Vec<LoadFault>,
) -> Result<(), Memory>
    requires few { length rows.now ≤ 65_536 }
    requires index { IsIndex rows.now index.now }
    requires terminal { HasTerminal rows.now terminal }
    requires ops { ops.now ≡ ops_in rows.now }
    requires within { All IsWithinLimits ops.now }
    requires seen { AreReached rows.now seen.now }
    ensures { OnOk result (Adds (IsFaultIn (plan_for rows.now)) (unknown_digests (plan_for rows.now)) found.old.items found.new.items) }
{
    for k in 0..rows.len() {
        add_unknown_of(rows, index, terminal, seen[k], k, &ops[k], found)?;
    }
    Ok(())
}

// Adds 86 `UnknownDigest` for each input of row `k` that is looked at and names no row.
fn add_unknown_of(
    rows: &[Row],
    index: &BTreeMap<&str, usize>,
    terminal: usize,
    reached: bool,
    k: usize,
    op: &Op,
    found: &mut Vec<LoadFault>,
) -> Result<(), Memory>
    requires few { k < 65_536 }
    requires index { IsIndex rows.now index.now }
    requires within { IsWithinLimits op.now }
    ensures { OnOk result (found.new.items ≡ found.old.items
        ++ joined_below (length op.now.inputs) (unknown_by rows.now terminal reached k op.now)) }
{
    let inputs = op.inputs.as_slice();
    for i in 0..inputs.len() {
        let asked = is_asked(reached, k == terminal, i);
        let unknown = is_unknown(rows, index, terminal, asked, &inputs[i]);
        add_if(unknown, LoadFault::UnknownDigest(k as u32, i as u32), found)?;
    }
    Ok(())
}

// Returns whether input `i` of a row is looked at.
fn is_asked(reached: bool, terminal: bool, i: usize) -> bool
    ensures { result ≡ asked_by reached terminal i }
{
    if reached {
        return true;
    }
    if terminal { i == 0 } else { false }
}

// Returns whether an input is looked at and names no row.
fn is_unknown(
    rows: &[Row],
    index: &BTreeMap<&str, usize>,
    terminal: usize,
    asked: bool,
    input: &Input,
) -> bool
    requires { IsIndex rows.now index.now }
    ensures { result ≡ (asked && not (is_some (row_named rows.now terminal input.now.digest))) }
{
    if !asked {
        return false;
    }
    row_of(rows, index, terminal, &input.digest).is_none()
}

// Adds 88 `Unsupported` for each unsupported feature of each reached row (`seen` has true for such a row).
pub(crate) fn add_features(
    alloc: Global,
    rows: &[Row],
    ops: &[Op],
    seen: &[bool],
    found: &mut Vec<LoadFault>,
) -> Result<(), Memory>
    requires few { length rows.now ≤ 65_536 }
    requires ops { ops.now ≡ ops_in rows.now }
    requires seen { AreReached rows.now seen.now }
    ensures { OnOk result (Adds (IsFaultIn (plan_for rows.now)) (unsupported (plan_for rows.now)) found.old.items found.new.items) }
{
    for k in 0..rows.len() {
        add_features_of(alloc, seen[k], k as u32, &ops[k], found)?;
    }
    Ok(())
}

// Adds 88 `Unsupported` for each unsupported feature of the op of row `k`, if the row is reached.
#[tactic(auto, unfolding(crate::specs::FindingSteps::feature_faults))]
fn add_features_of(
    alloc: Global,
    reached: bool,
    k: u32,
    op: &Op,
    found: &mut Vec<LoadFault>,
) -> Result<(), Memory>
    ensures { OnOk result (found.new.items ≡ found.old.items ++ cond reached (feature_faults k op.now.kind) []) }
{
    if !reached {
        return Ok(());
    }
    let features = features_of(alloc, &op.kind)?;
    let all = features.as_slice();
    for feature in all {
        found.push(LoadFault::Unsupported(k, *feature))?;
    }
    Ok(())
}

// Adds 89 `Invalid` for each rule that a reached row breaks (`seen` has true for such a row); `read` has true for each row that can be read.
pub(crate) fn add_rules(
    alloc: Global,
    rows: &[Row],
    ops: &[Op],
    read: &[bool],
    seen: &[bool],
    found: &mut Vec<LoadFault>,
) -> Result<(), Memory>
    requires few { length rows.now ≤ 65_536 }
    requires ops { ops.now ≡ ops_in rows.now }
    requires read { AreReadMarks rows.now read.now }
    requires seen { AreReached rows.now seen.now }
    ensures { OnOk result (Adds (IsFaultIn (plan_for rows.now)) (invalid (plan_for rows.now)) found.old.items found.new.items) }
{
    for k in 0..rows.len() {
        add_rules_of(alloc, seen[k], read[k], k as u32, &ops[k], found)?;
    }
    Ok(())
}

// Adds 89 `Invalid` for each rule that the op of row `k` breaks, if the row is reached and could be read.
fn add_rules_of(
    alloc: Global,
    reached: bool,
    read: bool,
    k: u32,
    op: &Op,
    found: &mut Vec<LoadFault>,
) -> Result<(), Memory>
    ensures { OnOk result (AddsRules k op.now reached read found.old.items found.new.items) }
{
    if !reached {
        return Ok(());
    }
    if !read {
        return Ok(());
    }
    let rules = rules_broken(alloc, op)?;
    add_each(k, rules, found)?;
    Ok(())
}

// Adds 89 `Invalid` with row `k` for each of the rules.
fn add_each(k: u32, mut rules: Vec<Rule>, found: &mut Vec<LoadFault>) -> Result<(), Memory>
    ensures { OnOk result (found.new.items ≡ found.old.items ++ map (λ r. fault.Invalid k r) rules.items) }
{
    while !rules.is_empty() {
        let rule = rules.remove(0);
        found.push(LoadFault::Invalid(k, rule))?;
    }
    Ok(())
}

// Adds 90 `BadIndex` for each input that is looked at and names an output that does not exist, of a row whose outputs can be counted.
pub(crate) fn add_indexes(
    rows: &[Row],
    index: &BTreeMap<&str, usize>,
    terminal: usize,
    ops: &[Op],
    counts: &[Option<usize>],
    seen: &[bool],
    found: &mut Vec<LoadFault>,
) -> Result<(), Memory>
    requires few { length rows.now ≤ 65_536 }
    requires index { IsIndex rows.now index.now }
    requires terminal { HasTerminal rows.now terminal }
    requires ops { ops.now ≡ ops_in rows.now }
    requires within { All IsWithinLimits ops.now }
    requires counts { AreCounts ops.now counts.now }
    requires seen { AreReached rows.now seen.now }
    ensures { OnOk result (Adds (IsFaultIn (plan_for rows.now)) (bad_indexes (plan_for rows.now)) found.old.items found.new.items) }
{
    for k in 0..rows.len() {
        add_indexes_of(rows, index, terminal, counts, seen[k], k, &ops[k], found)?;
    }
    Ok(())
}

// Adds 90 `BadIndex` for each input of row `k` that is looked at and names an output that does not exist.
fn add_indexes_of(
    rows: &[Row],
    index: &BTreeMap<&str, usize>,
    terminal: usize,
    counts: &[Option<usize>],
    reached: bool,
    k: usize,
    op: &Op,
    found: &mut Vec<LoadFault>,
) -> Result<(), Memory>
    requires few { k < 65_536 }
    requires index { IsIndex rows.now index.now }
    requires counts { length counts.now ≡ length rows.now }
    requires within { IsWithinLimits op.now }
    ensures { OnOk result (found.new.items ≡ found.old.items
        ++ joined_below (length op.now.inputs) (index_by rows.now terminal counts.now reached k op.now)) }
{
    let inputs = op.inputs.as_slice();
    for i in 0..inputs.len() {
        let asked = is_asked(reached, k == terminal, i);
        let bad = names_no_output(rows, index, terminal, counts, asked, &inputs[i]);
        add_if(bad, LoadFault::BadIndex(k as u32, i as u32), found)?;
    }
    Ok(())
}

// Returns whether an input is looked at and names an output that does not exist, of a row whose outputs can be counted.
fn names_no_output(
    rows: &[Row],
    index: &BTreeMap<&str, usize>,
    terminal: usize,
    counts: &[Option<usize>],
    asked: bool,
    input: &Input,
) -> bool
    requires index { IsIndex rows.now index.now }
    requires counts { length counts.now ≡ length rows.now }
    ensures { result ≡ (asked && is_out_at counts.now (row_named rows.now terminal input.now.digest) input.now.index) }
{
    if !asked {
        return false;
    }
    let Some(row) = row_of(rows, index, terminal, &input.digest) else {
        return false;
    };
    is_out(counts[row], input.index)
}

// Returns whether an index is that of none of the outputs; false if they can't be counted.
fn is_out(count: Option<usize>, index: i64) -> bool
    ensures { result ≡ is_out count index }
{
    let Some(count) = count else {
        return false;
    };
    if index < 0 {
        return true;
    }
    index as usize >= count
}

// Returns the number of outputs of each op; `None` if they can't be counted.
pub(crate) fn counts_of(alloc: Global, ops: &[Op]) -> Result<Vec<Option<usize>>, Memory>
    ensures { IfOk result (λ counts. AreCounts ops.now counts.items) }
{
    let mut counts = Vec::with_capacity(alloc, ops.len())?;
    for k in 0..ops.len() {
        let count = counted(alloc, &ops[k])?;
        counts.push(count)?;
    }
    Ok(counts)
}

// Returns the number of the op's outputs; `None` if they can't be counted.
fn counted(alloc: Global, op: &Op) -> Result<Option<usize>, Memory>
    ensures { IfOk result (IsCount op.now) }
{
    let countable = is_counted(alloc, &op.kind)?;
    if countable {
        return Ok(Some(count_of(op)));
    }
    Ok(None)
}

// Returns whether the outputs of an op of this kind can be counted.
fn is_counted(alloc: Global, kind: &Option<Kind>) -> Result<bool, Memory>
    ensures { IfOk result (λ counted. IsTrue counted ↔ IsCounted kind.now) }
{
    match kind {
        Some(Kind::Source(_)) => Ok(true),
        Some(Kind::Merge(_)) => Ok(true),
        Some(Kind::File(file)) => {
            let outputs = file_rules::outputs_of(alloc, file.actions.as_slice())?;
            Ok(are_outputs(alloc, &outputs)?)
        }
        Some(Kind::Exec(exec)) => {
            let outputs = exec_rules::outputs_of(alloc, exec.get().mounts.as_slice())?;
            Ok(are_outputs(alloc, &outputs)?)
        }
        _ => Ok(false),
    }
}
