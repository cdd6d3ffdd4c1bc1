//! Definitions from texts in a short form, which has the entries of a definition, with `; ` between them.
//!
//! An entry is written in one of four ways: a name in `entries`; `RESULT_N` or `RESULT N`, the terminal that names entry N; the script of an exec; or lines
//! of the assembler's text. `sh: SCRIPT` is an exec of the script on the empty tree at `/`. `locked: SCRIPT`, `private: SCRIPT` and `shared: SCRIPT` are the
//! same exec with the cache `k` of this mode at `/c`. A new instance of this cache is empty, unless ` on 0` follows the mode, as in `locked on 0: SCRIPT`:
//! then it begins with the output of the first entry. A `;` in a script is written as `\x3b`.

use crate::entries::ENTRIES;
use llb_asm::assemble;
use llb_loader::{Graph, load};
use llb_ops::{Entries, write_definition};
use llb_wire::Bytes;
use std::alloc::{AllocError, Global};

/// Returns the lines below the line `== NAME` or `== NAME: DESCRIPTION`, where NAME is the wanted name; `None` if there is no such line.
pub fn block<'a>(text: &'a str, wanted: &str) -> Option<&'a str> {
    for block in text.split("== ") {
        if let Some((head, lines)) = block.split_once('\n') {
            let (name, _) = head.split_once(": ").unwrap_or((head, ""));
            if name == wanted {
                return Some(lines);
            }
        }
    }
    None
}

fn push_lines(text: &mut String, lines: &str) -> Result<(), AllocError> {
    text.extend(lines.chars().map(|c| if c == '|' { '\n' } else { c }))?;
    text.push_str("\n")
}

// Appends the text of an exec up to and with its first mount, without the lines that close the exec.
fn push_exec(text: &mut String, inputs: &str, script: &str) -> Result<(), AllocError> {
    write!(
        text,
        "op {{\n{inputs}exec {{\nmeta {{\nargs \"/bin/sh\"\nargs \"-c\"\nargs \"{script}\"\ncwd \"/\"\n}}\nmounts {{\ninput -1\ndest \"/\"\n}}\n"
    )
}

fn push_on_cache(
    text: &mut String,
    way: &str,
    sharing: u32,
    script: &str,
) -> Result<(), AllocError> {
    let (inputs, begins) = if way.ends_with(" on 0") {
        ("inputs {\ndigest %0\n}\n", "0")
    } else {
        ("", "-1")
    };
    push_exec(text, inputs, script)?;
    write!(
        text,
        "mounts {{\ninput {begins}\ndest \"/c\"\noutput -1\nmountType 3\ncacheOpt {{\nID \"k\"\nsharing {sharing}\n}}\n}}\n}}\n}}\n"
    )
}

fn push_script(text: &mut String, way: &str, script: &str) -> Result<(), AllocError> {
    match way.split_once(' ').unwrap_or((way, "")).0 {
        "shared" => push_on_cache(text, way, 0, script),
        "private" => push_on_cache(text, way, 1, script),
        "locked" => push_on_cache(text, way, 2, script),
        _ => {
            push_exec(text, "", script)?;
            text.push_str("}\n}\n")
        }
    }
}

fn push_result(text: &mut String, on: &str) -> Result<(), AllocError> {
    write!(text, "op {{\ninputs {{\ndigest %{on}\n}}\n}}\n")
}

// Appends the text of an entry that is not written as a name in `entries`.
fn push_made(text: &mut String, entry: &str) -> Result<(), AllocError> {
    if let Some(on) = entry.strip_prefix("RESULT") {
        return push_result(text, on.strip_prefix('_').unwrap_or(on).trim());
    }
    match entry.split_once(": ") {
        Some((way, script)) => push_script(text, way, script),
        None => push_lines(text, entry),
    }
}

fn push_entry(text: &mut String, entry: &str) -> Result<(), AllocError> {
    match block(ENTRIES, entry) {
        Some(lines) => push_lines(text, lines),
        None => push_made(text, entry),
    }
}

/// Returns the entries of a short text, written in full as the assembler reads them. (A short text has entries with `; ` between them; the head of this file
/// says how each is written.)
pub fn entries_text(alloc: Global, written: &str) -> Result<String, AllocError> {
    let mut text = String::new(alloc);
    for entry in written.split("; ") {
        push_entry(&mut text, entry)?;
    }
    Ok(text)
}

/// Returns the entries that the assembler makes of a text; `None` if it refuses the text.
pub fn entries_in(alloc: Global, text: &str) -> Option<Entries> {
    assemble(alloc, text.as_bytes()).ok()
}

/// Returns the entries that are in `written`, in short form with `; ` between them; `None` if the assembler refuses one of them.
pub fn entries_of(alloc: Global, written: &str) -> Option<Entries> {
    let text = entries_text(alloc, written).ok()?;
    entries_in(alloc, text.as_str())
}

/// Returns the definition whose entries are in `written`, in short form with `; ` between them; `None` if the assembler refuses one of them.
pub fn definition_of(alloc: Global, written: &str) -> Option<Bytes> {
    let entries = entries_of(alloc, written)?;
    write_definition(alloc, &entries).ok()
}

// Returns the graph of the definition that has these entries.
fn graph_with(alloc: Global, entries: &Entries) -> Option<Graph> {
    let definition = write_definition(alloc, entries).ok()?;
    load(alloc, definition.as_slice()).ok()
}

/// Returns the graph of the definition that the assembler makes of a text; `None` if the text or the definition is refused.
pub fn graph_in(alloc: Global, text: &str) -> Option<Graph> {
    let entries = entries_in(alloc, text)?;
    graph_with(alloc, &entries)
}

/// Returns the graph of the definition whose entries are in `written`, in short form with `; ` between them; `None` if an entry or the definition is refused.
pub fn graph_of(alloc: Global, written: &str) -> Option<Graph> {
    let entries = entries_of(alloc, written)?;
    graph_with(alloc, &entries)
}
