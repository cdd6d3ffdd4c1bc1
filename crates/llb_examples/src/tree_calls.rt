//! Calls on trees in transcripts (module `stage`). There are two trees, which are called this tree and the other tree, and are empty at first.
//!
//! `dir PATH MODE OWNER` and `file PATH MODE OWNER CONTENT` put an entry into this tree; `\n` at the end of CONTENT is a line end. `remove PATH` removes what
//! is at or below PATH. `graft PATH GOAL` puts a copy of what is at or below PATH at GOAL. `share PATH GOAL MODE OWNER` puts a file at GOAL with the content
//! of the file at PATH; without such a file it does nothing. `overlay MODE USER GROUP KEEPS` lays the other tree over this tree, with the `OverlaySettings`
//! that the four words describe (`-` sets nothing). `look PATH` shows the entry at PATH, `list PATH` shows the names in the directory PATH, and `tree` shows
//! this whole tree. `copy` replaces the other tree by a copy of this tree, `subtree PATH` by a copy of what is at or below PATH in this tree, and
//! `below PATH` by a tree that has nothing but a copy of this tree at PATH. `swap` exchanges the two trees.

use super::tree_rows::{say, say_looked, say_names, say_tree};
use llb_tree::{Bytes, Meta, OverlaySettings, Path, Tree, TreeFault};
use std::alloc::{AllocError, Global};
use std::mem;
use std::process::Abort;

#[derive(Drop)]
pub(crate) struct Trees {
    pub this: Tree,
    pub other: Tree,
}

pub(crate) fn word_and_rest(words: &str) -> (&str, &str) {
    words.split_once(' ').unwrap_or((words, ""))
}

fn octal(word: &str) -> Option<u16> {
    u16::from_str_radix(word, 8).ok()
}

// Reads a mode and an owner (`USER:GROUP`) from two words. If one of the words can't be read, returns those of a new directory.
fn meta(mode: &str, owner: &str) -> Meta {
    let (user, group) = owner.split_once(':').unwrap_or(("", ""));
    match (octal(mode), user.parse::<u32>(), group.parse::<u32>()) {
        (Some(mode), Ok(user), Ok(group)) => {
            Meta::new(mode, user, group).unwrap_or(Meta::new_dir())
        }
        _ => Meta::new_dir(),
    }
}

// Returns the content that a text describes: `\n` at the end of the text is a line end.
fn content_of(alloc: Global, text: &str) -> Result<String, AllocError> {
    match text.strip_suffix("\\n") {
        Some(line) => format!(in alloc; "{line}\n"),
        None => String::from_str(alloc, text),
    }
}

fn put(alloc: Global, tree: &mut Tree, name: &str, words: &str) -> Result<(), TreeFault> {
    let (path, rest) = word_and_rest(words);
    let (mode, rest) = word_and_rest(rest);
    let (owner, content) = word_and_rest(rest);
    let path = Path::read(alloc, path)?;
    let meta = meta(mode, owner);
    if name == "dir" {
        return tree.put_dir(&path, meta);
    }
    let content = content_of(alloc, content)?;
    let content = Bytes::from_slice(alloc, content.as_bytes())?;
    tree.put_file(&path, meta, content)
}

fn graft(alloc: Global, tree: &mut Tree, from: &str, to: &str) -> Result<(), TreeFault> {
    let (from, to) = (Path::read(alloc, from)?, Path::read(alloc, to)?);
    let taken = tree.subtree(&from)?;
    tree.graft(&to, &taken)
}

fn share(alloc: Global, tree: &mut Tree, from: &str, words: &str) -> Result<(), TreeFault> {
    let (to, rest) = word_and_rest(words);
    let (mode, owner) = word_and_rest(rest);
    let (from, to) = (Path::read(alloc, from)?, Path::read(alloc, to)?);
    match tree.content(&from)? {
        None => Ok(()),
        Some(content) => tree.put_content(&to, meta(mode, owner), content),
    }
}

// Does a call that edits one tree.
pub(crate) fn edit(alloc: Global, tree: &mut Tree, call: &str) -> Result<(), TreeFault> {
    let (name, words) = word_and_rest(call);
    match name {
        "remove" => tree.remove(&Path::read(alloc, words)?),
        "graft" => {
            let (from, to) = word_and_rest(words);
            graft(alloc, tree, from, to)
        }
        "share" => {
            let (from, rest) = word_and_rest(words);
            share(alloc, tree, from, rest)
        }
        _ => put(alloc, tree, name, words),
    }
}

// Returns the tree that the test's call `copy`, `subtree` or `below` makes of the given tree: a copy of it, its subtree at the path, or a tree that has it at
// the path. The caller puts this tree in place of the second one of its two trees (`Trees`).
fn taken(alloc: Global, tree: &Tree, name: &str, path: &str) -> Result<Tree, TreeFault> {
    let path = Path::read(alloc, path)?;
    if name == "subtree" {
        return tree.subtree(&path);
    }
    if name == "copy" {
        return tree.copy();
    }
    let mut other = Tree::empty(alloc)?;
    other.graft(&path, tree)?;
    Ok(other)
}

fn overlay(trees: &mut Trees, words: &str) -> Result<(), TreeFault> {
    let (mode, rest) = word_and_rest(words);
    let (user, rest) = word_and_rest(rest);
    let (group, keeps) = word_and_rest(rest);
    let (user, group) = (user.parse::<u32>().ok(), group.parse::<u32>().ok());
    if let Some(settings) = OverlaySettings::new(octal(mode), user, group, keeps == "keeps") {
        trees.this = trees.this.copy()?.overlaid(&settings, &trees.other)?;
    }
    Ok(())
}

fn change(alloc: Global, trees: &mut Trees, name: &str, call: &str) -> Result<(), TreeFault> {
    let (_, words) = word_and_rest(call);
    match name {
        "swap" => mem::swap(&mut trees.this, &mut trees.other),
        "overlay" => overlay(trees, words)?,
        "copy" | "subtree" | "below" => trees.other = taken(alloc, &trees.this, name, words)?,
        _ => edit(alloc, &mut trees.this, call)?,
    }
    Ok(())
}

// Appends what `look`, `list` or `tree` shows of a tree.
fn tell(
    rt: &impl Abort,
    alloc: Global,
    text: &mut String,
    tree: &Tree,
    call: &str,
) -> Result<(), TreeFault> {
    let (name, path) = word_and_rest(call);
    let path = Path::read(alloc, path)?;
    tree.is_tree();
    match name {
        "look" => say_looked(rt, text, tree, &path),
        "list" => say_names(rt, text, " ", tree.list(&path)?.as_slice()),
        _ => say_tree(rt, text, tree),
    }
    say(rt, text, "\n");
    Ok(())
}

// Does a call, and appends what the call shows. Fails with the fault of the call.
pub(crate) fn answer(
    rt: &impl Abort,
    alloc: Global,
    text: &mut String,
    trees: &mut Trees,
    call: &str,
) -> Result<(), TreeFault> {
    let (name, _) = word_and_rest(call);
    match name {
        "look" | "list" | "tree" => tell(rt, alloc, text, &trees.this, call),
        _ => change(alloc, trees, name, call),
    }
}
