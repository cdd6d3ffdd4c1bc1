//! Tests of laying one tree over another with an `OverlaySettings`, which sets modes and owners. What a merge lays is tested by the program (`tests/merges`).

use super::library_transcripts::are_transcripts;
use super::tree_rows::{holds, is_so, row_holds, sample};
use llb_merge::{lay, lay_onto, lay_over};
use llb_tree::{OverlaySettings, Tree};
use llb_wire::Same;
use std::alloc::Global;
use std::process::Abort;

#[test]
fn settings_have_a_mode_of_at_most_4095(rt: HostRuntime) {
    let rows = [
        (None, true),
        (Some(0), true),
        (Some(4095), true),
        (Some(4096), false),
        (Some(u16::MAX), false),
    ];
    for (at, (mode, wanted)) in rows.iter().enumerate() {
        let made = OverlaySettings::new(*mode, Some(u32::MAX), None, true);
        row_holds(&rt, at, made.is_some() == *wanted);
    }
}

const LAID: &str = "
    # The upper entry stands.
    > new LOWER UPPER
    > overlay - - - -
    > tree
    d d/a(755 2:2) f/a/x(644 2:2)=up f/a/y(600 1:1)=low d/b(755 2:2) f/b/e(644 2:2)=up d/c(755 2:2) f/c/d(644 2:2)=up f/z(644 2:2)=up

    # Directories that both have stay.
    > new LOWER UPPER
    > overlay - - - keeps
    > tree
    d(700 1:1) d/a(700 1:1) f/a/x(644 2:2)=up f/a/y(600 1:1)=low d/b(755 2:2) f/b/e(644 2:2)=up d/c(755 2:2) f/c/d(644 2:2)=up f/z(644 2:2)=up

    # A settings gives a mode and a user.
    > new LOWER UPPER
    > overlay 4640 9 - -
    > tree
    d(4640 9:0) d/a(4640 9:2) f/a/x(4640 9:2)=up f/a/y(600 1:1)=low d/b(4640 9:2) f/b/e(4640 9:2)=up d/c(4640 9:2) f/c/d(4640 9:2)=up f/z(4640 9:2)=up

    # A settings gives a group, and directories that both have stay.
    > new LOWER UPPER
    > overlay - - 5 keeps
    > tree
    d(700 1:1) d/a(700 1:1) f/a/x(644 2:5)=up f/a/y(600 1:1)=low d/b(755 2:5) f/b/e(644 2:5)=up d/c(755 2:5) f/c/d(644 2:5)=up f/z(644 2:5)=up
    ";

#[test]
fn files_hide_directories_are_one_and_settings_keep_and_give(rt: HostRuntime) {
    are_transcripts(&rt, rt.alloc(), LAID);
}

pub(crate) fn copied(rt: &impl Abort, tree: &Tree) -> Tree {
    tree.copy().expect(rt, "memory")
}

fn overlaid(rt: &impl Abort, lower: Tree, settings: &OverlaySettings, upper: &Tree) -> Tree {
    lower.overlaid(settings, upper).expect(rt, "memory")
}

// Lays an upper tree over a copy of a lower tree. Returns whether the upper tree and the lower tree are unchanged.
fn both_stay(rt: &impl Abort, alloc: Global) -> bool {
    let (lower, upper) = (sample(rt, alloc, "LOWER"), sample(rt, alloc, "UPPER"));
    let settings = OverlaySettings::new(Some(0), Some(0), Some(0), false).expect(rt, "settings");
    let _laid = overlaid(rt, copied(rt, &lower), &settings, &upper);
    lower.same(&sample(rt, alloc, "LOWER")) && upper.same(&sample(rt, alloc, "UPPER"))
}

#[test]
fn what_is_laid_and_what_it_is_laid_over_stay(rt: HostRuntime) {
    is_so(&rt, both_stay(&rt, rt.alloc()));
}

pub(crate) fn lent(rt: &impl Abort, alloc: Global, lower: &Tree, upper: &Tree) -> Tree {
    lay(alloc, lower, upper).expect(rt, "memory")
}

fn handed_over(rt: &impl Abort, lower: Tree, upper: &Tree) -> Tree {
    lay_onto(lower, upper).expect(rt, "memory")
}

fn in_place(rt: &impl Abort, mut lower: Tree, upper: &Tree) -> Tree {
    lay_over(&mut lower, upper).expect(rt, "memory");
    lower
}

// Returns whether `lay_over` and `lay_onto` make the same tree as `lay`.
fn lays_the_same(rt: &impl Abort, alloc: Global, lower: &str, upper: &str) -> bool {
    let (first, second) = (sample(rt, alloc, lower), sample(rt, alloc, lower));
    let upper = sample(rt, alloc, upper);
    let wanted = lent(rt, alloc, &first, &upper);
    in_place(rt, second, &upper).same(&wanted) && handed_over(rt, first, &upper).same(&wanted)
}

#[test]
fn a_lower_tree_is_lent_or_handed_over_or_laid_over_in_place(rt: HostRuntime) {
    for (lower, upper) in [
        ("LOWER", "UPPER"),
        ("UPPER", "LOWER"),
        ("LOWER", "LOWER"),
        ("LOWER", ""),
    ] {
        let same = lays_the_same(&rt, rt.alloc(), lower, upper);
        holds(&rt, upper, same);
    }
}

// Returns whether `overlay`, which changes the lower tree itself, makes the same tree as `overlaid` makes of a copy. The `OverlaySettings` keeps directories,
// and sets the mode and the group.
fn settings_in_place(rt: &impl Abort, alloc: Global) -> bool {
    let (mut lower, upper) = (sample(rt, alloc, "LOWER"), sample(rt, alloc, "UPPER"));
    let settings = OverlaySettings::new(Some(0o4640), None, Some(5), true).expect(rt, "settings");
    let laid = overlaid(rt, copied(rt, &lower), &settings, &upper);
    lower.overlay(&settings, &upper).expect(rt, "memory");
    lower.same(&laid)
}

#[test]
fn settings_come_to_the_same_in_place(rt: HostRuntime) {
    is_so(&rt, settings_in_place(&rt, rt.alloc()));
}
