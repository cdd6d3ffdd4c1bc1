//! Transcripts of calls of libraries. A line that begins with `> ` is a call, and the lines below it are the call's result or fault; a line that begins with
//! `# ` describes the calls below it. The calls work on two trees (module `trees`), which are empty after the call `new`. After
//! `new NAME` this tree, and after `new NAME OTHER` also the other tree, is the one with this name in `llb_samples`.

use super::tree_calls::{Trees, answer, word_and_rest};
use super::tree_rows::{is_same, is_so, sample, say, say_fault};
use std::alloc::Global;
use std::process::Abort;

// Returns the trees with the names that a text has, with a space between them.
fn trees_of(rt: &impl Abort, alloc: Global, names: &str) -> Trees {
    let (this, other) = word_and_rest(names);
    Trees {
        this: sample(rt, alloc, this),
        other: sample(rt, alloc, other),
    }
}

fn say_on_trees(rt: &impl Abort, alloc: Global, text: &mut String, trees: &mut Trees, call: &str) {
    if let Err(fault) = answer(rt, alloc, text, trees, call) {
        say_fault(rt, text, &fault);
    }
}

fn say_call(rt: &impl Abort, alloc: Global, text: &mut String, trees: &mut Trees, call: &str) {
    match word_and_rest(call) {
        ("new", names) => *trees = trees_of(rt, alloc, names),
        _ => say_on_trees(rt, alloc, text, trees, call),
    }
}

// Appends a call and its result; appends nothing if the line is no call.
fn say_line(rt: &impl Abort, alloc: Global, text: &mut String, trees: &mut Trees, line: &str) {
    if let Some(call) = line.strip_prefix("> ") {
        say(rt, text, line);
        say(rt, text, "\n");
        say_call(rt, alloc, text, trees, call);
    }
}

fn transcript(rt: &impl Abort, alloc: Global, story: &str) -> String {
    let mut text = String::new(alloc);
    let mut trees = trees_of(rt, alloc, "");
    for line in story.lines() {
        say_line(rt, alloc, &mut text, &mut trees, line.trim());
    }
    text
}

// Ends the test if the lines of a text are not the lines of the transcript `story`, in which empty lines and comments are skipped.
pub(crate) fn is_story_of(rt: &impl Abort, text: &str, story: &str) {
    let mut lines = text.lines();
    for line in story.lines() {
        let line = line.trim();
        if !line.is_empty() && !line.starts_with("# ") {
            is_same(rt, lines.next().unwrap_or("nothing").trim(), line);
        }
    }
    is_so(rt, lines.next().is_none());
}

// Does the calls of a transcript. Ends the test if their results are not those of the transcript.
pub(crate) fn are_transcripts(rt: &impl Abort, alloc: Global, story: &str) {
    is_story_of(rt, transcript(rt, alloc, story).as_str(), story);
}
