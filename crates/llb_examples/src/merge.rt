//! Tests of laying one tree over another: examples with three trees, and calls of the laws of laying on pairs of trees. What a merge op makes of its inputs
//! is tested by whole commands (`tests/merges`).

use super::overlay::lent;
use super::tree_rows::{is_same, prints, sample, tree_text};
use llb_merge::{Memory, at_each_path, over_itself, over_the_empty_tree, under_the_empty_tree};
use llb_tree::Tree;
use std::alloc::Global;
use std::process::Abort;

fn laws(lower: &Tree, upper: &Tree) {
    at_each_path(lower, upper);
    over_itself(lower);
    over_the_empty_tree(lower);
    under_the_empty_tree(lower);
}

fn over(rt: &impl Abort, alloc: Global, lower: &Tree, upper: &Tree) -> Tree {
    laws(lower, upper);
    lent(rt, alloc, lower, upper)
}

// Returns the tree `lower` with the tree of this name laid over it.
fn over_by(rt: &impl Abort, alloc: Global, lower: &Tree, name: &str) -> Tree {
    over(rt, alloc, lower, &sample(rt, alloc, name))
}

// Lays the third tree over the second, and the result over the first. Returns the last result.
fn upper_two_first(rt: &impl Abort, alloc: Global) -> Tree {
    let second = sample(rt, alloc, "P");
    let both = over_by(rt, alloc, &second, "PR");
    let first = sample(rt, alloc, "PQ");
    over(rt, alloc, &first, &both)
}

fn lower_two_first(rt: &impl Abort, alloc: Global) -> Tree {
    let first = sample(rt, alloc, "PQ");
    over_by(rt, alloc, &over_by(rt, alloc, &first, "P"), "PR")
}

#[test]
fn which_two_of_three_are_laid_first_makes_a_difference(rt: HostRuntime) {
    let alloc = rt.alloc();
    let printed = tree_text(&rt, alloc, &lower_two_first(&rt, alloc));
    is_same(&rt, printed.as_str(), " d d/p f/p/r=3");
    let printed = tree_text(&rt, alloc, &upper_two_first(&rt, alloc));
    is_same(&rt, printed.as_str(), " d d/p f/p/q=1 f/p/r=3");
}

#[test]
fn want_of_memory_prints_its_number(rt: HostRuntime) {
    prints(&rt, rt.alloc(), &Memory, "55");
}
