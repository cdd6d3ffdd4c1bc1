//! Refuses each growth (each request for memory) of a call in turn. The library `tools/llbm_tools/repository/refuse.c`, which is between the test and the
//! allocator, makes the growth fail. To say which growth is to fail, a test requests memory: the number of the growth is in the size of the request, which is
//! so large that no allocator grants it.

use super::value_texts::is_same;
use llb_samples::tree_text;
use std::alloc::Global;
use std::process::Abort;

/// A row of a test: the call; what the call is made on; the result of the call if memory is refused; and the result if no memory is refused. The third text
/// is empty for a call that does not allocate. If it has several faults with ` and ` between them, each of these faults has to be the result of some refusal.
/// If it has several faults with ` or ` between them, each refusal has to result in one of them. The last text may be the name of a tree in place of the tree's
/// text.
pub(crate) type Row = (&'static str, &'static str, &'static str, &'static str);

/// A call that can be made more than once, with the values that the call is made on and the result of the latest call.
pub(crate) trait Trial: Sized + Drop {
    /// Makes the values with which the call of a test's row is made.
    fn ready(rt: &impl Abort, alloc: Global, row: &Row) -> Self;

    /// Makes the call and nothing else.
    fn call(&mut self, alloc: Global);

    /// Returns the result of the call in words.
    fn printed(&self, rt: &impl Abort, alloc: Global) -> String;

    /// Returns whether the values on which the call was made are unchanged. They are compared with equal values, which were made in the same steps.
    fn is_as_before(&mut self, rt: &impl Abort, alloc: Global) -> bool;
}

const ASK: usize = 0x1000_0000_0000_0000;

const START: usize = 0x3000_0000_0000_0000;

const TELL: usize = 0x2000_0000_0000_0000;

const ALL: usize = 0x4000_0000_0000_0000;

/// The limit on the number of growths (requests for memory) of one call: a call that has this many ends the test.
pub(crate) const MOST: usize = 100_000;

/// Makes the `k`-th growth (request for memory) from now on fail, and only that one. Has no effect if the library `refuse.c` is not loaded.
pub(crate) fn refuse(alloc: Global, k: usize) {
    let _ = Vec::<u8>::with_capacity(alloc, ASK | k);
}

/// Makes every growth (request for memory) from now on fail, until `was_refused` is called. Has no effect if the library `refuse.c` is not loaded.
pub(crate) fn refuse_all(alloc: Global) {
    let _ = Vec::<u8>::with_capacity(alloc, ALL);
}

/// Makes the `k`-th start of a thread from now on fail, and only that one. Has no effect if the library `refuse.c` is not loaded.
pub(crate) fn refuse_thread(alloc: Global, k: usize) {
    let _ = Vec::<u8>::with_capacity(alloc, START | k);
}

/// Returns whether the growth (request for memory), or the start of a thread, that was to fail has failed. After this call nothing fails.
pub(crate) fn was_refused(alloc: Global) -> bool {
    Vec::<u8>::with_capacity(alloc, TELL).is_ok()
}

/// Returns whether a result is one of the faults in `lacks`: the third text of a test's `Row`, which has ` and ` or ` or ` between its faults.
pub(crate) fn is_lack(printed: &str, lacks: &str) -> bool {
    for lack in lacks.split(" and ") {
        if lack == printed {
            return true;
        }
    }
    for lack in lacks.split(" or ") {
        if lack == printed {
            return true;
        }
    }
    false
}

// Makes the call of a row while growth `k` of the call (its request for memory with the number `k`) is refused. Returns the result in words, or `None` if the
// call makes no such request. Ends the test if the refused call changes what it was made on, or if the same call, made again, does not have the row's last
// text as its result.
fn told_at<T: Trial>(rt: &impl Abort, alloc: Global, row: &Row, k: usize) -> Option<String> {
    let (call, on, lacks, wanted) = *row;
    let mut trial = T::ready(rt, alloc, row);
    refuse(alloc, k);
    trial.call(alloc);
    if !was_refused(alloc) {
        is_same(rt, trial.printed(rt, alloc).as_str(), tree_text(wanted));
        return None;
    }
    let printed = trial.printed(rt, alloc);
    assert!(rt;
        is_lack(printed.as_str(), lacks),
        "growth {k} of {call} on {on}: {printed}"
    );
    assert!(rt;
        trial.is_as_before(rt, alloc),
        "growth {k} of {call} on {on}"
    );
    trial.call(alloc);
    is_same(rt, trial.printed(rt, alloc).as_str(), tree_text(wanted));
    Some(printed)
}

fn is_among(lack: &str, came: &[String]) -> bool {
    for printed in came {
        if printed.as_str() == lack {
            return true;
        }
    }
    false
}

// Returns whether each of the faults in `lacks` is one of the results in `came`.
fn all_came(lacks: &str, came: &[String]) -> bool {
    for lack in lacks.split(" and ") {
        if !is_among(lack, came) {
            return false;
        }
    }
    true
}

// Makes the call of a row again and again: while its first growth (request for memory) is refused, then while its second growth is refused, and so on, as long
// as the call has a growth to refuse. Returns the results of the calls that were refused memory.
fn growths<T: Trial>(rt: &impl Abort, alloc: Global, row: &Row) -> Vec<String> {
    let mut came = Vec::new(alloc);
    for k in 1..MOST {
        match told_at::<T>(rt, alloc, row, k) {
            Some(printed) => came.push(printed).expect(rt, "memory"),
            None => return came,
        }
    }
    panic!(rt; "no end of growths");
}

/// Prints how many growths (requests for memory) were refused, the row's faults (`none` for a call that does not allocate), the call, and what the call is made
/// on.
pub(crate) fn print_count(rt: &impl Print, count: usize, row: &Row) {
    let (call, on, lacks, _) = *row;
    let number = if lacks.is_empty() { "none" } else { lacks };
    let _ = println!(rt; "refused {count} ({number}): {call} on {on}");
}

/// Makes each row's call once for each growth (request for memory) of the call, and refuses this growth. Ends the test if a result is not one that the row has.
/// Prints a line for each row.
pub(crate) fn are_refused<T: Trial>(rt: &(impl Abort + Print), alloc: Global, rows: &[Row]) {
    for row in rows {
        let came = growths::<T>(rt, alloc, row);
        assert!(rt;
            came.is_empty() || all_came(row.2, &came),
            "each of {}",
            row.2
        );
        print_count(rt, came.len(), row);
    }
}
