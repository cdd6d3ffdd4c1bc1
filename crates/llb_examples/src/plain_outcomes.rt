//! Stories of plain outcomes, which an evaluation without a board returns. A line that begins with `@ ` has the name of the local trees, `: `, and the
//! entries of the definition. If the evaluation is refused, the line below has the refusal. Otherwise the lines below have, for each vertex, how the vertex
//! ended and, if the vertex is done, the trees of its outputs.

use super::boards_from_texts::{graph_from, locals_of};
use super::stories::{StoryKind, are_stories, wanted};
use super::tree_rows::{is_so, prints};
use super::worker_stories::say_tree;
use llb_laws::contents::contents_are_handed_on;
use llb_laws::trees_with_names::locals_have_names;
use llb_loader::{Graph, Locals};
use llb_plain::{Outcome, Outcomes, PlainFault, evaluate};
use llb_samples::locals_named;
use llb_tree::Tree;
use std::alloc::Global;
use std::process::Abort;

const EVALUATED: &str = "
    # What stands on a failed vertex is blocked.
    @ NONE: MAKES_XA; D_ON_0; RESULT_1
    0 failed action 0 fault 21
    1 blocked

    # A merge lays one input after another.
    @ NONE: MAKES_PQ; MAKES_P; MAKES_PR; MERGES_0_1_2; RESULT_3
    0 done
    d 0755 0 0 /
    d 0755 0 0 /p
    f 0644 0 0 31 /p/q
    1 done
    d 0755 0 0 /
    f 0644 0 0 32 /p
    2 done
    d 0755 0 0 /
    d 0755 0 0 /p
    f 0644 0 0 33 /p/r
    3 done
    d 0755 0 0 /
    d 0755 0 0 /p
    f 0644 0 0 33 /p/r

    # Sources are read and merged.
    @ EMPTY_AND_SUB: SOURCE_P; SOURCE_Q; MERGES_0_1_EMPTY; RESULT_2
    0 done
    d 0755 0 0 /
    1 done
    d 0755 0 0 /
    d 0755 0 0 /sub
    f 0644 0 0 6869 /sub/f
    2 done
    d 0755 0 0 /
    d 0755 0 0 /sub
    f 0644 0 0 6869 /sub/f

    # An exec gives the whole trees of its mounts, and a token in the place of a content comes out in its places.
    @ SUB_BY_A_TOKEN: SOURCE_P; SOURCE_Q; COPIES_BY_A_TMPFS; RESULT_2
    0 done
    d 0755 0 0 /
    1 done
    d 0755 0 0 /
    d 0755 0 0 /sub
    f 0644 0 0 ff00000001 /sub/f
    2 done
    d 0755 0 0 /
    f 0644 0 0 ff00000001 /y
    d 0755 0 0 /
    d 0755 0 0 /sub
    f 0644 0 0 ff00000001 /sub/f
    f 0644 0 0 6b0a /sub/g

    # Outputs of mounts come in the order of their numbers.
    @ EMPTY_AND_SUB: SOURCE_P; SOURCE_Q; ENDS_IN_SUB; RESULT_2
    0 done
    d 0755 0 0 /
    1 done
    d 0755 0 0 /
    d 0755 0 0 /sub
    f 0644 0 0 6869 /sub/f
    2 done
    d 0755 0 0 /
    d 0755 0 0 /sub
    f 0644 0 0 413d310a /sub/e
    f 0644 0 0 6869 /sub/f
    f 0644 0 0 6b0a /sub/g
    d 0755 0 0 /

    # Commands run or are skipped by their joins and the last status, whose own is the exec's.
    @ NONE: sh: false || write /x a \\x3b false && true || true; RESULT_0
    0 done
    d 0755 0 0 /
    f 0644 0 0 610a /x
    @ NONE: sh: false || false && true; RESULT_0
    0 failed command 1 status 1

    # The first status other than 0 with only `&&` behind it ends an exec.
    @ EMPTY_AND_SUB: SOURCE_P; SOURCE_Q; FAILS_AT_1; RESULT_2
    0 done
    d 0755 0 0 /
    1 done
    d 0755 0 0 /
    d 0755 0 0 /sub
    f 0644 0 0 6869 /sub/f
    2 failed command 1 status 1

    # The least vertex whose local tree is missing is named.
    @ NONE: SOURCE_P; SOURCE_Q; MERGES_0_1_EMPTY; RESULT_2
    101 p
    @ EMPTY_P: SOURCE_P; SOURCE_Q; MERGES_0_1_EMPTY; RESULT_2
    101 q

    # The least vertex that mounts a cache is named, after missing trees: such a graph has no plain outcomes.
    @ NONE: MAKES_A; locked on 0: true; private on 0: true; MERGES_1_2; RESULT_3
    102 1
    @ NONE: shared: true; SOURCE_P; MERGES_0_1; RESULT_2
    101 p
    @ NONE: locked: write /c/a x && false; D_ON_0; RESULT_1
    102 0
    ";

fn say_trees(rt: &impl Abort, text: &mut String, trees: &[Tree]) {
    for tree in trees {
        say_tree(rt, text, tree);
    }
}

fn say_outcome(rt: &impl Abort, text: &mut String, v: usize, outcome: &Outcome) {
    match outcome {
        Outcome::Done(trees) => {
            write!(text, "{v} done\n").expect(rt, "memory");
            say_trees(rt, text, trees.as_slice());
        }
        Outcome::Failed(fault) => write!(text, "{v} failed {fault}\n").expect(rt, "memory"),
        Outcome::Blocked => write!(text, "{v} blocked\n").expect(rt, "memory"),
    }
}

fn law(graph: &Graph, locals: &Locals) {
    contents_are_handed_on(graph);
    locals_have_names(graph, locals);
}

fn evaluated(rt: &impl Abort, alloc: Global, head: &str) -> Result<Outcomes, PlainFault> {
    let (locals, definition) = head.split_once(": ").expect(rt, "a definition");
    let graph = graph_from(rt, alloc, definition);
    let locals = locals_of(rt, alloc, locals_named(locals));
    law(&graph, &locals);
    evaluate(alloc, &graph, &locals)
}

fn say_outcomes(rt: &impl Abort, text: &mut String, outcomes: &Outcomes) {
    for (v, outcome) in outcomes.as_slice().iter().enumerate() {
        say_outcome(rt, text, v, outcome);
    }
}

fn printed(rt: &impl Abort, alloc: Global, head: &str) -> String {
    let mut text = String::new(alloc);
    match evaluated(rt, alloc, head) {
        Ok(outcomes) => say_outcomes(rt, &mut text, &outcomes),
        Err(fault) => write!(text, "{fault}\n").expect(rt, "memory"),
    }
    text
}

// Evaluates the definition and the local trees of a story's first line, `head`. Returns whether the result is the one that the story's other lines have.
pub(crate) fn are_outcomes(rt: &impl Abort, alloc: Global, head: &str, lines: &str) -> bool {
    printed(rt, alloc, head).as_str() == wanted(rt, alloc, lines).as_str()
}

#[test]
fn a_graph_has_the_outcomes_of_its_vertices_or_is_refused(rt: HostRuntime) {
    are_stories(&rt, rt.alloc(), StoryKind::Outcomes, EVALUATED);
}

#[test]
fn a_fault_of_an_evaluation_prints_its_number_and_its_argument(rt: HostRuntime) {
    prints(&rt, rt.alloc(), &PlainFault::HasCache(7), "102 7");
    prints(&rt, rt.alloc(), &PlainFault::Memory, "103");
}

// Returns whether the vertex with this number has an output 0 and no output 1.
fn has_one_output(outcomes: &Outcomes, v: u32) -> bool {
    match outcomes.get(v) {
        Some(outcome) => outcome.output(0).is_some() && outcome.output(1).is_none(),
        None => false,
    }
}

fn found(rt: &impl Abort, alloc: Global, head: &str) -> [bool; 4] {
    let outcomes = evaluated(rt, alloc, head).expect(rt, "outcomes");
    [
        has_one_output(&outcomes, 0),
        has_one_output(&outcomes, 2),
        has_one_output(&outcomes, 3),
        outcomes.is_empty(),
    ]
}

#[test]
fn an_outcome_and_an_output_are_found_by_their_numbers(rt: HostRuntime) {
    let alloc = rt.alloc();
    let failed = found(&rt, alloc, "NONE: MAKES_XA; D_ON_0; RESULT_1");
    is_so(&rt, failed == [false; 4]);
    let merged = "EMPTY_AND_SUB: SOURCE_P; SOURCE_Q; MERGES_0_1_EMPTY; RESULT_2";
    is_so(&rt, found(&rt, alloc, merged) == [true, true, false, false]);
}
