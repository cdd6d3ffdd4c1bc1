//! Tests which keys of caches are the same, and what faults print for a key.

use super::boards_from_texts::DIGEST_OF_A;
use super::lease_transcripts::{Row, key_of};
use super::tree_rows::{prints, row_holds};
use llb_cache::{Key, KeyRef, LeaseFault, Memory, Mode};
use std::alloc::Global;
use std::process::Abort;

const A: Row<'static> = ("a", Mode::Locked, None, "");

const B: Row<'static> = ("b", Mode::Locked, None, "");

const P: Row<'static> = ("p", Mode::Private, Some(0), "f");

const S: Row<'static> = ("s", Mode::Shared, None, "");

// Returns the key of a row, made from a `KeyRef`, which borrows the key's texts.
fn again(rt: &impl Abort, alloc: Global, row: &Row<'_>) -> Key {
    let (id, mode, index, _) = *row;
    let seed = match index {
        Some(index) => Some((DIGEST_OF_A, index)),
        None => None,
    };
    let key = KeyRef::new(id, seed, mode);
    key.to_key(alloc).expect(rt, "memory")
}

// Returns whether the copy of a key is the same as the key, and whether the copy is the same as the key of the row `other`.
fn compared(rt: &impl Abort, alloc: Global, row: &Row<'_>, other: &Row<'_>) -> (bool, bool) {
    let (key, other) = (key_of(rt, alloc, row), again(rt, alloc, other));
    let copy = key.copy().expect(rt, "memory");
    (copy.same(&key), copy.same(&other))
}

#[test]
fn a_key_is_the_same_as_its_copy_and_as_one_that_borrowed_its_texts(rt: HostRuntime) {
    let rows = [A, B, P, S, ("", Mode::Shared, None, "")];
    for (i, row) in rows.iter().enumerate() {
        for (j, other) in rows.iter().enumerate() {
            let answer = compared(&rt, rt.alloc(), row, other);
            row_holds(&rt, i, answer == (true, i == j));
        }
    }
}

#[test]
fn a_fault_prints_its_number_and_the_key_by_its_id(rt: HostRuntime) {
    let alloc = rt.alloc();
    let held = LeaseFault::Held(key_of(&rt, alloc, &A));
    prints(&rt, alloc, &held, "111 a");
    prints(&rt, alloc, &LeaseFault::Memory, "112");
    prints(&rt, alloc, &Memory, "112");
}
