//! Transcripts of calls on caches. A line that begins with `> ` is a call, and the lines below it are the call's result; a line that begins with `# `
//! describes the calls below it. A NEED is the ID and the mode of a key, the index of the key's seed (`-` if the key has none), and the name of the only file
//! in the need's tree (no name if the tree is empty). LEASE is the position of a lease among the leases that were granted, and I the position of a need among
//! the needs of that lease.
//!
//! `lease NEED, ..` prints the number of the new lease and the number of the instance of each need, or the fault, or `twice` if two needs have the same key.
//! `near ROW NEED, ..` does the same, but looks for each key in row ROW first. `see LEASE I` prints the name of the file in the need's instance, and
//! `set LEASE I NAME` replaces that file by one with the name NAME. `back LEASE` gives a lease back. `count NEED` prints how many instances the key has, how
//! many leases are current, and the file of each instance. `next NEED` prints the number of the instance that a lease of the key would take, or `shut` if the
//! lease would be refused. `look ROW NEED` looks for the key, in row ROW first (`-` for no row). It prints the row of the key, `held` or `free`, the number
//! of the instance that a lease would take, and the file of that instance if the instance exists. `grow NEED` prints what a lease of the key would add to the
//! rows. `new` makes the caches empty.

use super::boards_from_texts;
use super::tree_calls::word_and_rest;
use super::tree_rows::{file, made, row_holds, say, say_fault, say_number};
use llb_cache::{Caches, Found, Growth, Key, Lease, LeaseFault, Many, Mode, Need};
use llb_tree::{Path, Tree};
use std::alloc::Global;
use std::process::Abort;

pub(crate) type Row<'a> = (&'a str, Mode, Option<u32>, &'a str);

#[derive(Drop)]
struct Stage {
    caches: Caches,
    leases: Vec<Lease>,
}

fn empty_stage(alloc: Global) -> Stage {
    Stage {
        caches: Caches::new(alloc),
        leases: Vec::new(alloc),
    }
}

fn mode_of(way: &str) -> Mode {
    match way {
        "locked" => Mode::Locked,
        "private" => Mode::Private,
        _ => Mode::Shared,
    }
}

fn row_of(need: &str) -> Row<'_> {
    let (id, rest) = word_and_rest(need);
    let (way, rest) = word_and_rest(rest);
    let (seed, name) = word_and_rest(rest);
    (id, mode_of(way), seed.parse::<u32>().ok(), name)
}

// Returns a tree with one empty file of this name. If the name is empty, returns a tree without files.
fn marked(rt: &impl Abort, alloc: Global, name: &str) -> Tree {
    if name.is_empty() {
        return Tree::empty(alloc).expect(rt, "memory");
    }
    made(rt, alloc, &[file(name, "")])
}

pub(crate) fn key_of(rt: &impl Abort, alloc: Global, row: &Row<'_>) -> Key {
    let (id, mode, index, _) = *row;
    boards_from_texts::key_of(rt, alloc, &(id, mode, index))
}

fn needs_of(rt: &impl Abort, alloc: Global, words: &str) -> Vec<Need> {
    let mut needs = Vec::new(alloc);
    for need in words.split(", ") {
        if !need.is_empty() {
            let row = row_of(need);
            let key = key_of(rt, alloc, &row);
            let tree = marked(rt, alloc, row.3);
            needs.push(Need { key, tree }).expect(rt, "memory");
        }
    }
    needs
}

// Appends the names of the files in a tree's root, or `-` if there are none.
fn say_files(rt: &impl Abort, alloc: Global, text: &mut String, tree: &Tree) {
    let names = tree.list(&Path::root(alloc)).expect(rt, "memory");
    for name in names.as_slice() {
        say(rt, text, name.as_str());
    }
    if names.as_slice().is_empty() {
        say(rt, text, "-");
    }
}

// ---- the calls, each in a function without clauses: a test compares values, and relies on no other promise of a call

// Leases an instance for each need. Returns `None` if two needs have the same key.
fn leased(caches: &mut Caches, needs: Vec<Need>) -> Option<Result<Lease, LeaseFault>> {
    if !caches.can_lease(&needs) {
        return None;
    }
    Some(caches.lease(Many::new(needs)))
}

fn instance_of(caches: &Caches, lease: Lease, need: u32) -> Option<u32> {
    if (need as usize) < caches.needs(lease) {
        return Some(caches.instance_of(&lease, need));
    }
    None
}

fn content(caches: &Caches, lease: Lease, need: u32) -> Option<&Tree> {
    if (need as usize) < caches.needs(lease) {
        return Some(caches.content(&lease, need));
    }
    None
}

fn is_set(caches: &mut Caches, lease: Lease, need: u32, tree: Tree) -> bool {
    if (need as usize) < caches.needs(lease) {
        caches.set_content(&lease, need, tree);
        return true;
    }
    false
}

fn is_given_back(caches: &mut Caches, lease: Lease) -> bool {
    if caches.is_out(lease) {
        caches.give_back(lease);
        return true;
    }
    false
}

fn instance<'a>(caches: &'a Caches, key: &Key, number: u32) -> Option<&'a Tree> {
    caches.instance(key, number)
}

fn instances(caches: &Caches, key: &Key) -> u32 {
    caches.instances(key)
}

// Returns the number of the instance that a lease of the key would take; `None` if the lease would be refused.
fn next_instance(caches: &Caches, key: &Key) -> Option<u32> {
    if caches.is_locked_and_held(&key.by_ref()) {
        return None;
    }
    Some(caches.next_instance(key))
}

fn look_up<'a>(caches: &'a Caches, key: &Key, row: Option<usize>) -> Found<'a> {
    caches.look_up(&key.by_ref(), row)
}

fn growth(caches: &Caches, key: &Key) -> Growth {
    caches.growth(&key.by_ref())
}

// Leases an instance for each need. Looks for the key of need `i` in row `rows[i]` first. Returns `None` if two needs have the same key.
fn leased_near(
    caches: &mut Caches,
    needs: Vec<Need>,
    rows: &[Option<usize>],
) -> Option<Result<Lease, LeaseFault>> {
    if !caches.can_lease(&needs) {
        return None;
    }
    Some(caches.lease_near(Many::new(needs), rows))
}

// ---- the results of the calls as texts

// Appends the number of a lease, a colon, and for each need of the lease the number of the need's instance.
fn say_lease(rt: &impl Abort, text: &mut String, caches: &Caches, lease: Lease) {
    say_number(rt, text, lease.number());
    say(rt, text, ":");
    for need in 0..4 {
        if let Some(number) = instance_of(caches, lease, need) {
            say_number(rt, text, number);
        }
    }
    say(rt, text, "\n");
}

fn ask(rt: &impl Abort, alloc: Global, text: &mut String, stage: &mut Stage, words: &str) {
    let asked = leased(&mut stage.caches, needs_of(rt, alloc, words));
    say_asked(rt, text, stage, asked);
}

// Requests a lease as `ask` does. But the first word is the number of a row, and the key of each need is looked for in that row first.
fn ask_near(rt: &impl Abort, alloc: Global, text: &mut String, stage: &mut Stage, words: &str) {
    let (row, needs) = word_and_rest(words);
    let row = row.parse::<usize>().ok();
    let asked = leased_near(
        &mut stage.caches,
        needs_of(rt, alloc, needs),
        &[row, row, row],
    );
    say_asked(rt, text, stage, asked);
}

fn say_asked(
    rt: &impl Abort,
    text: &mut String,
    stage: &mut Stage,
    asked: Option<Result<Lease, LeaseFault>>,
) {
    match asked {
        None => say(rt, text, "twice\n"),
        Some(Ok(lease)) => {
            stage.leases.push(lease).expect(rt, "memory");
            say_lease(rt, text, &stage.caches, lease);
        }
        Some(Err(fault)) => say_fault(rt, text, &fault),
    }
}

fn say_instances(rt: &impl Abort, alloc: Global, text: &mut String, caches: &Caches, key: &Key) {
    for number in 0..4 {
        if let Some(tree) = instance(caches, key, number) {
            say(rt, text, " ");
            say_files(rt, alloc, text, tree);
        }
    }
}

fn say_count(rt: &impl Abort, alloc: Global, text: &mut String, caches: &Caches, need: &str) {
    let key = key_of(rt, alloc, &row_of(need));
    say_number(rt, text, instances(caches, &key));
    say(rt, text, "/");
    say_number(rt, text, caches.leases());
    say_instances(rt, alloc, text, caches, &key);
    say(rt, text, "\n");
}

// Appends the number of the instance that a lease of the key would take, or `shut` if the lease would be refused.
fn say_next(rt: &impl Abort, alloc: Global, text: &mut String, caches: &Caches, need: &str) {
    let key = key_of(rt, alloc, &row_of(need));
    match next_instance(caches, &key) {
        Some(number) => say_number(rt, text, number),
        None => say(rt, text, "shut"),
    }
    say(rt, text, "\n");
}

// Appends what is found for a key: the row of the key, `held` or `free`, the number of the instance that a lease would take, and the file of that instance.
fn say_found(rt: &impl Abort, alloc: Global, text: &mut String, caches: &Caches, words: &str) {
    let (row, need) = word_and_rest(words);
    let key = key_of(rt, alloc, &row_of(need));
    let found = look_up(caches, &key, row.parse::<usize>().ok());
    match found.row {
        Some(row) => say_number(rt, text, u32::try_from(row).expect(rt, "few rows")),
        None => say(rt, text, "-"),
    }
    say(rt, text, if found.is_held { " held " } else { " free " });
    say_number(rt, text, found.number);
    if let Some(tree) = found.tree {
        say(rt, text, " ");
        say_files(rt, alloc, text, tree);
    }
    say(rt, text, "\n");
}

// Appends what a lease of the key would add to the rows.
fn say_growth(rt: &impl Abort, alloc: Global, text: &mut String, caches: &Caches, need: &str) {
    let key = key_of(rt, alloc, &row_of(need));
    let word = match growth(caches, &key) {
        Growth::Nothing => "nothing\n",
        Growth::NewInstance => "an instance\n",
        Growth::NewRow => "a row\n",
    };
    say(rt, text, word);
}

// Reads the position of a lease and the position of a need. Returns that lease, the position of the need, and the words that follow.
fn lease_at<'a>(rt: &impl Abort, stage: &Stage, words: &'a str) -> (Lease, u32, &'a str) {
    let (place, rest) = word_and_rest(words);
    let (need, name) = word_and_rest(rest);
    let place = place.parse::<usize>().unwrap_or(0);
    let lease = stage.leases.get(place).copied().expect(rt, "a lease");
    (lease, need.parse::<u32>().unwrap_or(0), name)
}

fn see(rt: &impl Abort, alloc: Global, text: &mut String, stage: &Stage, words: &str) {
    let (lease, need, _) = lease_at(rt, stage, words);
    let tree = content(&stage.caches, lease, need).expect(rt, "a need");
    say_files(rt, alloc, text, tree);
    say(rt, text, "\n");
}

fn set(rt: &impl Abort, alloc: Global, stage: &mut Stage, words: &str) {
    let (lease, need, name) = lease_at(rt, stage, words);
    let tree = marked(rt, alloc, name);
    assert!(rt; is_set(&mut stage.caches, lease, need, tree));
}

fn give_back(rt: &impl Abort, stage: &mut Stage, words: &str) {
    let (lease, _, _) = lease_at(rt, stage, words);
    assert!(rt; is_given_back(&mut stage.caches, lease));
}

fn say_call(rt: &impl Abort, alloc: Global, text: &mut String, stage: &mut Stage, call: &str) {
    let (name, words) = word_and_rest(call);
    match name {
        "new" => *stage = empty_stage(alloc),
        "lease" => ask(rt, alloc, text, stage, words),
        "near" => ask_near(rt, alloc, text, stage, words),
        "look" => say_found(rt, alloc, text, &stage.caches, words),
        "grow" => say_growth(rt, alloc, text, &stage.caches, words),
        "see" => see(rt, alloc, text, stage, words),
        "set" => set(rt, alloc, stage, words),
        "back" => give_back(rt, stage, words),
        "count" => say_count(rt, alloc, text, &stage.caches, words),
        _ => say_next(rt, alloc, text, &stage.caches, words),
    }
}

fn say_line(rt: &impl Abort, alloc: Global, text: &mut String, stage: &mut Stage, line: &str) {
    if let Some(call) = line.strip_prefix("> ") {
        say(rt, text, line);
        say(rt, text, "\n");
        say_call(rt, alloc, text, stage, call);
    }
}

pub(crate) fn transcript(rt: &impl Abort, alloc: Global, story: &str) -> String {
    let mut text = String::new(alloc);
    let mut stage = empty_stage(alloc);
    for line in story.lines() {
        say_line(rt, alloc, &mut text, &mut stage, line.trim());
    }
    text
}

// Does the calls of a text, which has one call on each line.
fn go_on(rt: &impl Abort, alloc: Global, stage: &mut Stage, calls: &str) {
    let mut text = String::new(alloc);
    for call in calls.lines() {
        say_call(rt, alloc, &mut text, stage, call);
    }
}

fn stage_after(rt: &impl Abort, alloc: Global, calls: &str) -> Stage {
    let mut stage = empty_stage(alloc);
    go_on(rt, alloc, &mut stage, calls);
    stage
}

// Does `calls` on empty caches, copies the caches, and does `more` on the original. Returns whether the copy equals caches on which `others` were done.
pub(crate) fn is_copy(
    rt: &impl Abort,
    alloc: Global,
    calls: &str,
    more: &str,
    others: &str,
) -> bool {
    let mut stage = stage_after(rt, alloc, calls);
    let copy = stage.caches.copy().expect(rt, "memory");
    go_on(rt, alloc, &mut stage, more);
    copy.same(&stage_after(rt, alloc, others).caches)
}
