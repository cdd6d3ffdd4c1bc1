//! Stories about what a session does not print: what each worker of a board does, and which instances caches have. Such a story is a transcript as in
//! `sessions`: a line that begins with `> ` is a call, and the lines below it are the call's result. A call is an event as in a session (a granted event prints
//! nothing), or one of these. `job W V` claims vertex V for worker W, and prints the job and the job's cache instances. `worker W` prints what worker
//! W does. `instance MODE I` prints the tree of instance I of the cache `k` with that mode (`seeded`: locked, with a seed). `leases` prints the number of
//! current leases.

use super::board_calls::{event_in, is_event_done};
use super::boards_from_texts::{CacheRow, key_of};
use super::cache_instances::{K_LOCKED, K_PRIVATE, K_SEEDED, K_SHARED};
use super::stories::wanted;
use super::tree_rows::say;
use llb_board::laws::headline;
use llb_board::{Board, Event, Job, WorkerStatus};
use llb_samples::text_of_tree;
use llb_tree::Tree;
use std::alloc::Global;
use std::process::Abort;

fn say_number(rt: &impl Abort, text: &mut String, number: u32) {
    write!(text, "{number}\n").expect(rt, "memory");
}

fn number(word: &str) -> u32 {
    match word.parse::<u32>() {
        Ok(number) => number,
        Err(_) => u32::MAX,
    }
}

fn say_done(rt: &impl Abort, text: &mut String, board: &mut Board, event: Event) {
    if !is_event_done(board, event) {
        say(rt, text, "refused\n");
    }
}

fn say_runs(rt: &impl Abort, text: &mut String, v: u32, done: u32, finished: bool) {
    write!(text, "runs {v}, {done} done, {finished}\n").expect(rt, "memory");
}

fn say_worker(rt: &impl Abort, text: &mut String, status: Option<WorkerStatus>) {
    match status {
        None => say(rt, text, "none\n"),
        Some(WorkerStatus::Idle) => say(rt, text, "idle\n"),
        Some(WorkerStatus::Runs(v, done, finished)) => say_runs(rt, text, v, done, finished),
    }
}

pub(crate) fn say_tree(rt: &impl Abort, text: &mut String, tree: &Tree) {
    let lines = text_of_tree(*text.allocator(), tree).expect(rt, "a text");
    say(rt, text, lines.as_str());
}

// Appends, for each instance, its number and its tree.
fn say_instances(rt: &impl Abort, text: &mut String, instances: &[u32], trees: &[Tree]) {
    for (number, tree) in instances.iter().zip(trees) {
        say(rt, text, "instance ");
        say_number(rt, text, *number);
        say_tree(rt, text, tree);
    }
}

fn say_job(rt: &impl Abort, text: &mut String, job: &Job) {
    let (worker, vertex, done) = (job.worker(), job.vertex(), job.done());
    write!(text, "{worker} at {vertex}, {done} done\n").expect(rt, "memory");
    say_instances(rt, text, job.instances(), job.trees());
}

fn say_begun(rt: &impl Abort, text: &mut String, board: &mut Board, w: u32, v: u32) {
    match board.claim(w, v) {
        Ok(job) => say_job(rt, text, &job),
        Err(fault) => write!(text, "{fault}\n").expect(rt, "memory"),
    }
}

fn cache_of(mode: &str) -> CacheRow<'static> {
    match mode {
        "shared" => K_SHARED,
        "private" => K_PRIVATE,
        "seeded" => K_SEEDED,
        _ => K_LOCKED,
    }
}

// Appends the text of the tree that an instance of a cache has; `none` if there is no such instance.
fn say_instance(rt: &impl Abort, text: &mut String, board: &Board, mode: &str, number: u32) {
    let key = key_of(rt, *text.allocator(), &cache_of(mode));
    match board.caches().instance(&key, number) {
        Some(tree) => say_tree(rt, text, tree),
        None => say(rt, text, "none\n"),
    }
}

fn say_answer(rt: &impl Abort, text: &mut String, board: &mut Board, call: &str) {
    let (name, rest) = call.split_once(' ').unwrap_or((call, ""));
    let (one, other) = rest.split_once(' ').unwrap_or((rest, ""));
    match name {
        "job" => say_begun(rt, text, board, number(one), number(other)),
        "worker" => say_worker(rt, text, board.worker(number(one))),
        "instance" => say_instance(rt, text, board, one, number(other)),
        _ => say_number(rt, text, board.caches().leases()),
    }
}

fn law(board: &Board) {
    headline(board);
}

// Appends the line of a call and the call's result; appends nothing if the line is no call.
fn say_line(rt: &impl Abort, text: &mut String, board: &mut Board, line: &str) {
    if let Some(call) = line.strip_prefix("> ") {
        say(rt, text, line);
        say(rt, text, "\n");
        law(board);
        match event_in(call) {
            Some(event) => say_done(rt, text, board, event),
            None => say_answer(rt, text, board, call),
        }
    }
}

fn transcript(rt: &impl Abort, alloc: Global, board: &mut Board, story: &str) -> String {
    let mut text = String::new(alloc);
    for line in story.lines() {
        say_line(rt, &mut text, board, line.trim());
    }
    text
}

// Makes the calls of a story on a board. Returns whether each call has the result that the story has below it.
pub(crate) fn is_answered(rt: &impl Abort, alloc: Global, board: &mut Board, story: &str) -> bool {
    let text = transcript(rt, alloc, board, story);
    text.as_str() == wanted(rt, alloc, story).as_str()
}
