//! Finds the order in which the reached rows, on which the result depends, get their vertex numbers.

ghost use Rattle.std.specs.Prelude.{◌≡◌, ◌↔◌, ℕ, ◌<◌, ◌≤◌, length, slice_index, slice_index_or, true, false, IfOk, OnOk, MatchOption, List, [], vec_len};
ghost use Rattle.std.specs.Option.{IfSome, IfNone};
ghost use Rattle.std.specs.List.{All};
ghost use Rattle.std.specs.Ordering.{nat_cmp};
ghost use Rattle.std.specs.BTreeSet.{contains};
ghost use Rattle.llb_loader.specs.ReachedRows.{lists, InRange, inputs, Reached};
ghost use Rattle.llb_loader.specs.Numbering.{IsNumbering, HasCycle};
ghost use Rattle.llb_loader.specs.WaitingRows.{IsMarked, IsChecked, IsPlacing};

use std::alloc::{AllocError, Global};
use std::collections::BTreeSet;
use std::mem;

/// A row that has no vertex number yet. Its first `checked` inputs name rows that have vertex numbers. If this value is in a list, the row waits until the row
/// that its next input, the one at index `checked`, names has a vertex number.
#[derive(Clone, Copy)]
struct Waiter {
    row: usize,
    checked: usize,
}

/// Returns the rows that are reached from `start`, in the order of their vertex numbers; `None` if these rows have a cycle. `seen` must have true for each of
/// these rows and false for every other row.
pub fn number(
    alloc: Global,
    rows: &[Vec<usize>],
    start: usize,
    seen: &[bool],
) -> Result<Option<Vec<usize>>, AllocError>
    requires rows { InRange (lists rows.now) (length rows.now) }
    requires len { length seen.now ≡ length rows.now }
    requires exact { (k : ℕ) → (slice_index_or seen.now k false ≡ true) ↔ Reached (lists rows.now) start k }
    ensures numbering { IfOk result (λ answer. IfSome answer (λ order. IsNumbering (lists rows.now) start order.items)) }
    ensures few { IfOk result (λ answer. IfSome answer (λ order. length order.items ≤ length rows.now)) }
    ensures cycle { IfOk result (λ answer. IfNone answer (HasCycle (lists rows.now) start)) }
{
    let mut done = vec![in alloc; false; rows.len()]?;
    let mut ready = BTreeSet::new(alloc);
    let mut waiting = empty_lists(alloc, rows.len())?;
    'placing: for row in 0..seen.len() {
        if seen[row] {
            place(
                rows,
                &done,
                &mut ready,
                &mut waiting,
                Waiter { row, checked: 0 },
            )?;
        }
    }
    let mut order = Vec::new(alloc);
    'turns: while let Some(next) = ready.pop_first() {
        done[next] = true;
        order.push(next)?;
        let woken = mem::replace(&mut waiting[next], Vec::new(alloc));
        'woken: for waiter in &woken {
            place(rows, &done, &mut ready, &mut waiting, *waiter)?;
        }
    }
    match first_stuck(seen, &done) {
        Some(_) => Ok(None),
        None => Ok(Some(order)),
    }
}

// Returns the first row that is reached (`seen` has true for it) and has no number (`done` has false); `None` if there is no such row.
fn first_stuck(seen: &[bool], done: &[bool]) -> Option<usize>
    requires { length done.now ≡ length seen.now }
    ensures { MatchOption result ((k : ℕ) → IsMarked seen.now k → IsMarked done.now k) (λ k. IsMarked seen.now k × (slice_index_or done.now k false ≡ false)) }
{
    for row in 0..seen.len() {
        if seen[row] {
            if !done[row] {
                return Some(row);
            }
        }
    }
    None
}

// Makes `count` empty lists of waiters (rows that have no vertex number yet, and wait until other rows have theirs).
fn empty_lists(alloc: Global, count: usize) -> Result<Vec<Vec<Waiter>>, AllocError>
    ensures len { IfOk result (λ all. length all.items ≡ count) }
    ensures empty { IfOk result (λ all. (b : ℕ) → slice_index_or (lists all.items) b [] ≡ []) }
{
    let mut all = Vec::new(alloc);
    for _i in 0..count {
        all.push(Vec::new(alloc))?;
    }
    Ok(all)
}

// Returns the index of the first input at or after `from` whose row is not numbered; if there is none, returns the number of inputs.
fn first_open(named: &[usize], from: usize, done: &[bool]) -> usize
    requires from { from ≤ length named.now }
    requires range { All (λ b. b < length done.now) named.now }
    ensures after { from ≤ result }
    ensures within { result ≤ length named.now }
    ensures passed { (i : ℕ) → from ≤ i → i < result → IsMarked done.now (slice_index named.now i) }
    ensures stops { result < length named.now → slice_index_or done.now (slice_index named.now result) false ≡ false }
{
    for i in from..named.len() {
        if !done[named[i]] {
            return i;
        }
    }
    named.len()
}

// Puts a row that has no vertex number (a `Waiter`) among the rows that can be numbered, `ready`, if all rows that its inputs name have numbers. If not, puts
// it into the list of the rows that wait for the first of these rows without a number.
fn place(
    rows: &[Vec<usize>],
    done: &[bool],
    ready: &mut BTreeSet<usize>,
    waiting: &mut Vec<Vec<Waiter>>,
    waiter: Waiter,
) -> Result<(), AllocError>
    requires rows { InRange (lists rows.now) (length rows.now) }
    requires done { length done.now ≡ length rows.now }
    requires waiting { vec_len waiting.old ≡ length rows.now }
    requires row { waiter.row < length rows.now }
    requires checked { IsChecked (lists rows.now) done.now waiter }
    ensures placed { OnOk result (IsPlacing (lists rows.now) done.now waiter (contains nat_cmp ready.old) (contains nat_cmp ready.new)
        (lists waiting.old.items) (lists waiting.new.items)) }
    ensures len { vec_len waiting.new ≡ vec_len waiting.old }
{
    let named = rows[waiter.row].as_slice();
    let checked = first_open(named, waiter.checked, done);
    if checked == named.len() {
        ready.insert(waiter.row)?;
        return Ok(());
    }
    waiting[named[checked]].push(Waiter {
        row: waiter.row,
        checked,
    })?;
    Ok(())
}
