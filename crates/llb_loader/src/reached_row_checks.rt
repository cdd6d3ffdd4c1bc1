//! Checks the reached rows, those on which the result depends. The list `seen` has true for each reached row. Each check goes through these rows in order, and
//! stops at the first row that fails the check.

ghost use Rattle.std.specs.Prelude.{◌≡◌, ◌<◌, ◌≤◌, ◌↔◌, ℕ, false, cond, length, map, IfOk, IfErr, OnOk, IsTrue, MatchOption};
ghost use Rattle.std.specs.List.{All};
ghost use Rattle.llb_ops.specs.OpsWithinLimits.{IsWithinLimits};
ghost use Rattle.llb_loader.specs.Faults.{is_memory};
ghost use Rattle.llb_loader.specs.WaitingRows.{IsMarked};
ghost use Rattle.llb_loader.specs.RowLookup.{IsIndex, graph_of, rows_named};
ghost use Rattle.llb_loader.specs.ReachedRows.{lists, InRange, inputs};
ghost use Rattle.llb_loader.specs.GraphOfRows.{op_at};
ghost use Rattle.llb_loader.specs.Features.{feature_of};
ghost use Rattle.llb_loader.specs.Rules.{IsBelow, MeetsRules, output_count};
ghost use Rattle.llb_loader.specs.ReachedRowChecks.{NamesAll, FirstUnknown, FitsAll, FirstBad, asked_of, RefusesIndex, RefusesUnknown, RefusesFeature};
ghost use Rattle.llb_loader.specs.ReachedRowChecks.{RefusesRule};

use crate::fault::LoadFault;
use crate::features::first_feature;
use crate::op_sizes::count_of;
use crate::row::Row;
use crate::row_lookup::row_of;
use crate::rules::broken_rule;
use llb_ops::{Input, Op};
use std::alloc::{AllocError, Global};
use std::collections::BTreeMap;

// Checks that each input of a reached row (`seen` has true for such a row) names a row. Fails with 86 `UnknownDigest` alone.
pub(crate) fn check_names(
    rows: &[Row],
    index: &BTreeMap<&str, usize>,
    terminal: usize,
    ops: &[Op],
    links: &[Vec<usize>],
    seen: &[bool],
) -> Result<(), LoadFault>
    requires index { IsIndex rows.now index.now }
    requires links { lists links.now ≡ graph_of rows.now terminal ops.now }
    requires len { length seen.now ≡ length ops.now }
    requires few { length ops.now ≤ 65_536 }
    requires within { All IsWithinLimits ops.now }
    ensures named { OnOk result ((k : ℕ) → IsMarked seen.now k → NamesAll rows.now terminal (op_at ops.now k) (length (op_at ops.now k).inputs)) }
    ensures refused { IfErr result (RefusesUnknown rows.now terminal ops.now (IsMarked seen.now)) }
{
    for k in 0..ops.len() {
        if !seen[k] {
            continue;
        }
        let Some(i) = unnamed_in(rows, index, terminal, &ops[k], links[k].as_slice()) else {
            continue;
        };
        return Err(LoadFault::UnknownDigest(k as u32, i as u32));
    }
    Ok(())
}

// Returns the index of the op's first input that names no row; `None` if each input names one. `named` has the rows that the op's inputs name. If there are as
// many of these rows as inputs, each input names a row, and none is looked up.
fn unnamed_in(
    rows: &[Row],
    index: &BTreeMap<&str, usize>,
    terminal: usize,
    op: &Op,
    named: &[usize],
) -> Option<usize>
    requires index { IsIndex rows.now index.now }
    requires named { named.now ≡ rows_named rows.now terminal op.now }
    ensures { MatchOption result (NamesAll rows.now terminal op.now (length op.now.inputs)) (FirstUnknown rows.now terminal op.now) }
{
    if named.len() == op.inputs.len() {
        return None;
    }
    first_unknown(rows, index, terminal, op)
}

// Returns the index of the first input that names no row; `None` if each input names one.
fn first_unknown(
    rows: &[Row],
    index: &BTreeMap<&str, usize>,
    terminal: usize,
    op: &Op,
) -> Option<usize>
    requires { IsIndex rows.now index.now }
    ensures { MatchOption result (NamesAll rows.now terminal op.now (length op.now.inputs)) (FirstUnknown rows.now terminal op.now) }
{
    for (i, input) in op.inputs.as_slice().iter().enumerate() {
        if row_of(rows, index, terminal, &input.digest).is_none() {
            return Some(i);
        }
    }
    None
}

// Checks that no reached row (`seen` has true for such a row) has an unsupported feature. Fails with 88 `Unsupported` alone.
pub(crate) fn check_features(ops: &[Op], seen: &[bool]) -> Result<(), LoadFault>
    requires len { length seen.now ≡ length ops.now }
    requires few { length ops.now ≤ 65_536 }
    ensures free { OnOk result ((k : ℕ) → IsMarked seen.now k → feature_of (op_at ops.now k) ≡ None) }
    ensures refused { IfErr result (RefusesFeature ops.now (IsMarked seen.now)) }
{
    for k in 0..ops.len() {
        if seen[k] {
            if let Some(feature) = first_feature(&ops[k]) {
                return Err(LoadFault::Unsupported(k as u32, feature));
            }
        }
    }
    Ok(())
}

// Checks that no reached row (`seen` has true for such a row) breaks a rule. Fails with 89 `Invalid`, or with 91 `Memory`.
pub(crate) fn check_rules(alloc: Global, ops: &[Op], seen: &[bool]) -> Result<(), LoadFault>
    requires len { length seen.now ≡ length ops.now }
    requires few { length ops.now ≤ 65_536 }
    ensures met { OnOk result ((k : ℕ) → IsMarked seen.now k → MeetsRules (op_at ops.now k)) }
    ensures refused { IfErr result (λ e. is_memory e ≡ false → RefusesRule ops.now (IsMarked seen.now) e) }
{
    for k in 0..ops.len() {
        if !seen[k] {
            continue;
        }
        let Some(rule) = broken_rule(alloc, &ops[k])? else {
            continue;
        };
        return Err(LoadFault::Invalid(k as u32, rule));
    }
    Ok(())
}

/// Returns the number of outputs of each row.
pub(crate) fn counts_of(alloc: Global, ops: &[Op]) -> Result<Vec<usize>, AllocError>
    ensures { IfOk result (λ counts. counts.items ≡ map output_count ops.now) }
{
    let mut counts = Vec::new(alloc);
    for op in ops {
        counts.push(count_of(op))?;
    }
    Ok(counts)
}

// Checks that each input of a reached row (`seen` has true for such a row), and the terminal's first input, names an output that exists. Fails with
// 90 `BadIndex` alone.
pub(crate) fn check_indexes(
    ops: &[Op],
    links: &[Vec<usize>],
    counts: &[usize],
    seen: &[bool],
    terminal: usize,
) -> Result<(), LoadFault>
    requires len { length seen.now ≡ length ops.now }
    requires links { length links.now ≡ length ops.now }
    requires counts { length counts.now ≡ length ops.now }
    requires few { length ops.now ≤ 65_536 }
    requires within { All IsWithinLimits ops.now }
    requires asked { (k : ℕ) → k < length ops.now → asked_of ops.now seen.now terminal k ≤ length (inputs (lists links.now) k) }
    requires there { (k : ℕ) → k < length ops.now → asked_of ops.now seen.now terminal k ≤ length (op_at ops.now k).inputs }
    requires range { InRange (lists links.now) (length ops.now) }
    ensures fit { OnOk result ((k : ℕ) → k < length ops.now → FitsAll counts.now (inputs (lists links.now) k) (op_at ops.now k)
        (asked_of ops.now seen.now terminal k)) }
    ensures refused { IfErr result (RefusesIndex ops.now (lists links.now) counts.now seen.now terminal) }
{
    for k in 0..ops.len() {
        let asked = asked_inputs(&ops[k], seen[k], k == terminal);
        let Some(i) = first_bad(&ops[k], links[k].as_slice(), counts, asked) else {
            continue;
        };
        return Err(LoadFault::BadIndex(k as u32, i as u32));
    }
    Ok(())
}

// Returns how many inputs of a row are checked: all if the row is reached (the result depends on it); else the first one if it is the terminal; else none.
fn asked_inputs(op: &Op, reached: bool, terminal: bool) -> usize
    ensures { result ≡ cond reached (length op.now.inputs) (cond terminal 1 0) }
{
    if reached {
        return op.inputs.len();
    }
    if terminal { 1 } else { 0 }
}

// Returns the index of the first input, among the first `asked` ones, that names an output that does not exist; `None` if there is no such input.
fn first_bad(op: &Op, named: &[usize], counts: &[usize], asked: usize) -> Option<usize>
    requires named { asked ≤ length named.now }
    requires inputs { asked ≤ length op.now.inputs }
    requires range { All (λ row. row < length counts.now) named.now }
    ensures { MatchOption result (FitsAll counts.now named.now op.now asked) (FirstBad counts.now named.now op.now asked) }
{
    let inputs = op.inputs.as_slice();
    for i in 0..asked {
        if !is_output_of(counts[named[i]], &inputs[i]) {
            return Some(i);
        }
    }
    None
}

// Returns whether the input's index is the index of one of `count` outputs.
fn is_output_of(count: usize, input: &Input) -> bool
    ensures { IsTrue result ↔ IsBelow count input.now.index }
{
    input.index >= 0 && (input.index as usize) < count
}
